//! Handlers of records, which are rows of a file that all lanes of records share.
#![tactic(auto)]

mod records;

pub use records::{RecordsHandler, Rows, records_handler};
