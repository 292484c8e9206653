//! The lanes of the program: handlers of files and of records as one type.
#![tactic(auto)]

mod shipped;

pub use shipped::Shipped;
