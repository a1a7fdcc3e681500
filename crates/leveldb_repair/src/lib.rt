//! What is found of a store whose manifest is lost or damaged, and the new tables to which it goes.
#![tactic(auto)]

mod folder;
pub mod found_logs;
pub mod found_tables;
pub mod found_walk;
pub mod laws;
pub mod look_over;
pub mod numbers;
pub mod repair_store;
pub mod write_found;
