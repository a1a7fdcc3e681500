//! A store's tables of its memtables, and a store that is open: its memtables, its version set, and
//! the log to which batches are appended.
#![tactic(auto)]

pub mod build;
pub mod damage;
pub mod log_replay;
pub mod merge_inputs;
pub mod merge_tables;
pub mod open_store;
pub mod opening;
pub mod outputs;
pub mod passing;
pub mod store_walk;
mod table_file;
