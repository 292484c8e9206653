//! Handlers of files: each is a real file of a folder that all lanes of files share.
#![tactic(auto)]

mod files;
mod folder;
mod paths;

pub use files::{FilesHandler, FolderFiles, files_handler};
