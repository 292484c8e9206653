//! What the engine reads and says: the words of a command line, how a command ended, and reports on stacks. Nothing here
//! knows of a run.
#![tactic(auto)]

mod cause;
mod changes;
mod exit;
mod fault_words;
mod line;
mod load;
mod overview;
mod parameters;
mod print;
mod rows;
mod set_words;
mod telling;
mod words;

pub use changes::set_report;
pub use exit::{Exit, Refusal, StackFault};
pub use load::load_report;
pub use overview::{events_report, list_report};
pub use print::{print_exit, print_text, put};
pub use telling::report;
pub use words::{
    Choice, Command, Question, Subject, Task, load_choice, load_name, read_words, read_workers,
};
