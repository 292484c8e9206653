//! What is asked of the system.
use std::fs::File;
use std::rt::Files;

/// What a lane over a folder asks for: the system's files, memory, and standard error.
pub trait System: Files<File = File> + AllocGlobal + Eprint {}

impl<R: Files<File = File> + AllocGlobal + Eprint> System for R {}
