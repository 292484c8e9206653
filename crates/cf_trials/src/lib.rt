//! Tests of what rows can not show: room and memory, torn disks, and generic bounds once at a concrete type.
//!
//! They call what is public, with expected values worked out by hand from the rules, and stand in a crate of their own so
//! that they are proved over the libraries that they test. All other cases are rows: of cf_tables what templates, schemas,
//! values, plans, words and bytes come to and what a handler in memory answers, of cf_steps what may follow in a journal, of
//! cf_scenarios whole commands.
//!
//! A test owns what it tries in one function, which lets it go by a call of `drop` before its one exit, and looks at it in
//! others, which borrow it: each exit at which a value that owns much is let go makes the check longer.
#![tactic(auto)]

#[cfg(test)]
mod disk_tests;
#[cfg(test)]
mod file_tests;
#[cfg(test)]
mod handler_tests;
#[cfg(test)]
mod io_tests;
#[cfg(test)]
mod journal_tests;
#[cfg(test)]
mod lane_tests;
#[cfg(test)]
mod room_tests;
#[cfg(test)]
mod told;
#[cfg(test)]
mod tree_tests;
#[cfg(test)]
mod worlds;
