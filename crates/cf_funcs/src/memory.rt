use std::alloc::AllocError;

/// Want of memory for a text.
#[derive(Debug, Drop, PartialEq, Eq)]
pub struct TextMemory;

impl From<AllocError> for TextMemory {
    fn from(_error: AllocError) -> TextMemory {
        TextMemory
    }
}
