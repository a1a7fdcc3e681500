//! The version set: the live files of a store as its manifest keeps them, and the compactions that
//! replace some of them.
#![tactic(auto)]

pub mod compaction;
pub mod laws;
pub mod version_set;
