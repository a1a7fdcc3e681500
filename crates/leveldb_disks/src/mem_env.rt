//! Disks in memory: that of `leveldb_env`, and one that records what its files were.

mod journal;
mod record;

pub use leveldb_env::mem_env::{MemEnv, MemHandle, Pick, files, picks};
pub use record::RecordEnv;
