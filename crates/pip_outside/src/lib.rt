//! Where the program's bytes come from and where they go: sources and sinks that count their faults.
//!
//! The program is written over [`Source`] and [`Sink`], so its contracts can name the bytes that were read and
//! written. [`StdSource`] and [`StdSink`] stand over std's readers and writers and tell no content; their own clauses
//! speak of what the reader and the writer tell. The other four stand over memory. A [`Window`] holds the part of an
//! input that is looked at.
#![tactic(auto)]

mod copy;
mod failed;
mod memory_sink;
mod memory_source;
mod plan;
mod sink;
mod source;
mod std_sink;
mod std_source;
mod steady_sink;
mod steady_source;
mod window;

pub use failed::Failed;
pub use memory_sink::MemorySink;
pub use memory_source::MemorySource;
pub use sink::{Sink, write_all};
pub use source::Source;
pub use std_sink::StdSink;
pub use std_source::StdSource;
pub use steady_sink::SteadySink;
pub use steady_source::SteadySource;
pub use window::{FillRefusal, Window};
