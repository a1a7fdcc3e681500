//! The store: an engine, and `DB`, which is an engine beside a borrow of its environment.
// LevelDB: db/db_impl.cc

mod close;
mod compact;
mod engine;
mod iterate;
mod names;
mod open;
mod read;
mod read_only;
mod read_only_db;
mod repairing;
mod scan;
mod snapshots;
mod store;
mod walk;
mod write;

pub use crate::db_iter::sample_period;
pub use engine::{Engine, Mode};
pub use leveldb_store::build::{build_memtable, build_table};
pub use read_only::ReadOnlyEngine;
pub use read_only_db::{ReadOnlyDB, open_read_only};
pub use repairing::repair;
pub use store::{DB, DiskDB, MemDB, Store};
