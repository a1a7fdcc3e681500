//! The store: a machine over a history, on a disk that holds it.
#![tactic(auto)]

pub mod db_impl;
pub mod db_iter;
pub mod promises;
pub mod read_samples;
pub mod scan;
pub mod shell;

pub use db_impl::{DB, DiskDB, MemDB, repair};
pub use db_iter::DBIterator;
pub use leveldb_base::cmp::{Cmp, DefaultCmp};
pub use leveldb_base::error::{Result, Status, StatusCode};
pub use leveldb_base::types::LdbIterator;
pub use leveldb_base::{blockhandle, cmp, crc, error, key_types, laws, names, types, varint};
pub use leveldb_disks::disk_env::PosixDiskEnv;
pub use leveldb_disks::{disk_env, mem_env};
pub use leveldb_env::compressor::{Compressor, CompressorId, CompressorList};
pub use leveldb_env::filter::{BloomPolicy, FilterPolicy};
pub use leveldb_env::mem_env::MemEnv;
pub use leveldb_env::options::{Options, in_memory};
pub use leveldb_env::{compressor, env, filter, filter_block, infolog, laws as env_laws, options};
pub use leveldb_files::laws as files_laws;
pub use leveldb_iter::moves::{Move, Step};
pub use leveldb_iter::snapshot::Snapshot;
pub use leveldb_iter::{
    db_iter as db_iter_core, in_memory as in_memory_walk, laws as iter_laws, merging_iter, moves,
    snapshot, walk, walk_iter,
};
pub use leveldb_mem::skipmap::SkipMap;
pub use leveldb_mem::write_batch::WriteBatch;
pub use leveldb_mem::{laws as log_laws, log, memtable, skipmap, write_batch};
pub use leveldb_store::{build, open_store, store_walk};
pub use leveldb_table::{
    block, block_builder, block_cache, cache, laws as table_laws, table_block, table_builder,
    table_reader,
};
pub use leveldb_version::{table_cache, version, version_edit, version_iter};
pub use leveldb_version_set::{compaction, laws as version_laws, version_set};
pub use scan::Scan;
