//! The record log, write batches, and the memtable.
#![tactic(auto)]

pub mod laws;
pub mod log;
pub mod memtable;
pub mod skipmap;
pub mod write_batch;
