//! What the programs of rows share: memory that may be wanting while a row is read or an answer written. It promises nothing.
#![tactic(auto)]

use cf_tree::Txt;
use std::alloc::{AllocError, Global};

/// Where memory is taken from, and whether it was wanting. What has no memory is left out, and nothing is
/// answered or played with what was read.
#[derive(Drop)]
pub struct Memory {
    pub alloc: Global,
    is_lost: bool,
}

impl Memory {
    /// Memory that was not wanting yet.
    pub fn new(alloc: Global) -> Memory {
        Memory {
            alloc,
            is_lost: false,
        }
    }

    /// Notes that memory was wanting.
    pub fn lose(&mut self) {
        self.is_lost = true;
    }

    /// Notes whether memory was wanting.
    pub fn note(&mut self, is_lost: bool) {
        self.is_lost = self.is_lost || is_lost;
    }

    /// An error where memory was wanting.
    pub fn end(&self) -> Result<(), AllocError> {
        if self.is_lost {
            Err(AllocError)
        } else {
            Ok(())
        }
    }

    /// A copy of a text.
    pub fn copy(&mut self, text: &str) -> String {
        match String::from_str(self.alloc, text) {
            Ok(text) => text,
            Err(_) => {
                self.is_lost = true;
                String::new(self.alloc)
            }
        }
    }

    /// The same as a text of templates.
    pub fn text(&mut self, text: &str) -> Txt {
        Txt::new(self.copy(text))
    }

    /// A copy of bytes.
    pub fn bytes(&mut self, bytes: &[u8]) -> Vec<u8> {
        match Vec::from_slice(self.alloc, bytes) {
            Ok(bytes) => bytes,
            Err(_) => {
                self.is_lost = true;
                Vec::new(self.alloc)
            }
        }
    }
}
