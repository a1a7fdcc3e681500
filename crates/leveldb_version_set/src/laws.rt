//! Laws of version sets, compactions, engines and repairs, each the contract of a function that
//! does nothing. Those of versions and open tables are in leveldb_version, and those of files alone
//! in leveldb_files.

pub mod compactions;
pub mod levels;
pub mod opening;
pub mod repairing;
pub mod version_sets;
pub mod writing;

pub use leveldb_version::laws::{iters, table_caches};
