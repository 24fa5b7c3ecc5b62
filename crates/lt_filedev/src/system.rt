use std::fs::File;
use std::rt::Files;

/// What is asked of the system: its files and memory.
pub trait System: Files<File = File> + AllocGlobal + Clone + Drop {}

impl<R: Files<File = File> + AllocGlobal + Clone + Drop> System for R {}
