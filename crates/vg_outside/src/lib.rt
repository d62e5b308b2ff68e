//! The world outside: a folder of files, a sink of bytes, and the gate that workers pass.
//!
//! `Folder` and `Sink` are what a run reads and writes through. `MemoryFolder` and `MemorySink` fail
//! where they are told to, `SureFolder` and `SureSink` at want of memory alone, and `RealFolder` and
//! `RealSink` stand for the files of the system and its standard output. `OpenGate` lets all workers in,
//! `MeetGate` lets two of them wait for each other.
//!
//! In which order to read: `folder`, `sink`, `gates`; then `calls`, `file_map`, `memory`, `sure`; then `real` with `saving`.
#![tactic(auto)]

pub mod calls;
pub mod file_map;
pub mod folder;
pub mod gates;
pub mod memory;
pub mod real;
pub mod saving;
pub mod sink;
pub mod sure;

pub use calls::Calls;
pub use file_map::FileMap;
pub use folder::{Folder, LoadError};
pub use gates::{Gate, MeetGate, OpenGate};
pub use memory::{MemoryFolder, MemorySink};
pub use real::{RealFolder, RealSink};
pub use sink::{Failed, Sink};
pub use sure::{SureFolder, SureSink};
