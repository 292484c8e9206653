//! Token tables: which call of a lane was answered how, beside what its handler stores, in one file for all lanes that share a folder.
//!
//! A table is a list of rows behind gates, as the journal is one of frames. A row is durable before its call is answered.
#![tactic(auto)]

mod file;
mod handler;
mod known;
mod row;
mod spell;
mod system;
mod table;
mod told;

pub use file::sync_folder;
pub use handler::{Stores, TableHandler};
pub use known::{Known, Undone};
pub use row::Row;
pub use system::System;
pub use table::{Gate, Place, Table};
pub use told::{Told, Trouble, noted, tell};
