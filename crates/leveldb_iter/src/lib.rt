//! Walks over sorted pairs of keys and values: their meaning, their merge, and the view of a store
//! above it. The snapshots at which a store is read.
#![tactic(auto)]

mod children;
pub mod db_iter;
mod entry;
pub mod in_memory;
pub mod laws;
pub mod merging_iter;
pub mod moves;
pub mod snapshot;
pub mod walk;
pub mod walk_iter;
