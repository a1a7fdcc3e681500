//! Environments that the crates of a store don't need to know: a disk in memory that records what
//! its files were at each moment, and the files of the operating system.
#![tactic(auto)]

pub mod disk_env;
pub mod mem_env;
