//! Where templates come from and where reports go: the traits, their forms in memory, and the real ones.
#![tactic(auto)]

mod folder_library;
mod library;
mod memory_library;
mod memory_sink;
mod sink;
mod stdout_sink;
mod steady_library;
mod steady_sink;

pub use folder_library::FolderLibrary;
pub use library::{FetchFault, Library};
pub use memory_library::MemoryLibrary;
pub use memory_sink::MemorySink;
pub use sink::{Sink, SinkFail};
pub use stdout_sink::StdoutSink;
pub use steady_library::SteadyLibrary;
pub use steady_sink::SteadySink;
