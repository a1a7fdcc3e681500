//! What a store is opened with.
// LevelDB: include/leveldb/options.h
ghost use Rattle.std.specs.Prelude.{◌≡◌, ◌⊎◌, ◌≤◌, ◌^◌, ℕ, List, true, None, IfErr, OnOk, IsSome};
ghost use Rattle.leveldb_env.specs.Compressor.{plain_codings};
ghost use Rattle.leveldb_env.specs.MemEnv.{disk_of};
ghost use Rattle.leveldb_env.specs.Options.{IsSizeWithin, AreWithinLimits, IsLimitError, HasDefaultChoices};

use crate::compressor::{CompressorId, CompressorList, Compressors, NoneCompressor};
use crate::filter::BloomPolicy;
use crate::infolog::Logger;
use crate::mem_env::MemEnv;
use leveldb_base::cmp::DefaultCmp;
use leveldb_base::error::{Result, StatusCode, err};
use std::alloc::Global;

/// What a store is opened with: its comparator, its filter policy, its compressors and its choices.
pub struct Options<C, FP> {
    /// The order of users' keys.
    pub cmp: C,

    /// What the filters of tables are made by.
    pub filter_policy: FP,

    /// Where the store says what it does; none by default.
    pub log: Option<Logger>,

    /// Whether a store that isn't there is made.
    pub create_if_missing: bool,

    /// Whether a store that is there is an error.
    pub error_if_exists: bool,

    /// It has no effect.
    pub paranoid_checks: bool,

    /// A memtable of this many bytes becomes a table before the next write.
    pub write_buffer_size: usize,

    /// How many files are open at most: the cache of tables has ten fewer.
    pub max_open_files: usize,

    /// A table that has more bytes than this takes no further key.
    pub max_file_size: usize,

    /// How many bytes of blocks are kept in memory: a block counts as `block_size` bytes.
    pub block_cache_capacity_bytes: usize,

    /// A block of a table that has more bytes than this takes no further entry.
    pub block_size: usize,

    /// How many entries of a block lie between the starts of two restart points; 0 is taken as 1.
    pub block_restart_interval: usize,

    /// The id of the compressor by which blocks are stored.
    pub compressor: u8,

    /// The compressors by which blocks are stored and read, each under its id.
    pub compressor_list: CompressorList,

    /// Whether the last log goes on to be used, if its end is clean.
    pub reuse_logs: bool,

    /// Whether the manifest goes on to be used, if its end is clean and it isn't long.
    pub reuse_manifest: bool,
}

impl<C: Drop, FP: Drop> Drop for Options<C, FP> {
    // One call for whoever drops them, in place of one for each of them.
    fn drop(self) {
        let Options {
            cmp,
            filter_policy,
            log,
            create_if_missing: _,
            error_if_exists: _,
            paranoid_checks: _,
            write_buffer_size: _,
            max_open_files: _,
            max_file_size: _,
            block_cache_capacity_bytes: _,
            block_size: _,
            block_restart_interval: _,
            compressor: _,
            compressor_list,
            reuse_logs: _,
            reuse_manifest: _,
        } = self;
        drop(cmp);
        drop(filter_policy);
        drop(log);
        drop(compressor_list);
    }
}

impl Options<DefaultCmp, BloomPolicy> {
    /// LevelDB's order of bytes and its filters, with ten bits a key; a missing store is created;
    /// 4 MiB of memtable, tables of 2 MiB, blocks of 4096 bytes, stored as they are, with a restart
    /// point every 16 entries, 4 MiB of them in memory; 1024 open files.
    pub fn default() -> Options<DefaultCmp, BloomPolicy>
        ensures filters { result.filter_policy ≡ 10 }
        ensures create { result.create_if_missing ≡ true }
        ensures compressors { ⟦<CompressorList as Compressors>⟧.codings result.compressor_list
            ≡ plain_codings }
        ensures choices { HasDefaultChoices result }
    {
        Options {
            cmp: DefaultCmp,
            filter_policy: BloomPolicy::new(10),
            log: None,
            create_if_missing: true,
            error_if_exists: false,
            paranoid_checks: false,
            write_buffer_size: 4 << 20,
            max_open_files: 1 << 10,
            max_file_size: 2 << 20,
            block_cache_capacity_bytes: 4096 * 1024,
            block_size: 4096,
            block_restart_interval: 16,
            compressor: NoneCompressor::ID,
            compressor_list: CompressorList::default(),
            reuse_logs: true,
            reuse_manifest: true,
        }
    }
}

impl<C, FP> Options<C, FP> {
    /// Whether a store can be opened with these options: sizes and counts within their limits, and
    /// a compressor's id that is set.
    pub fn check(&self, alloc: Global) -> Result<()>
        ensures limits { OnOk result (AreWithinLimits self.now) }
        ensures compressor { OnOk result
            (IsSome (⟦<CompressorList as Compressors>⟧.codings self.now.compressor_list
            self.now.compressor)) }
        ensures cause { IfErr result
            (λ e. IsLimitError self.now e ⊎ ((e.code ≡ StatusCode.NotSupported)
            × (⟦<CompressorList as Compressors>⟧.codings self.now.compressor_list
            self.now.compressor ≡ None))) }
    {
        check_limit(alloc, "write_buffer_size", self.write_buffer_size, 1)?;
        check_limit(alloc, "max_open_files", self.max_open_files, 11)?;
        check_limit(alloc, "max_file_size", self.max_file_size, 1)?;
        check_limit(alloc, "block_size", self.block_size, 1)?;
        check_limit(
            alloc,
            "block_restart_interval",
            self.block_restart_interval,
            1,
        )?;
        check_limit(
            alloc,
            "block_cache_capacity_bytes",
            self.block_cache_capacity_bytes,
            self.block_size,
        )?;
        if !self.compressor_list.is_set(self.compressor) {
            return err(alloc, StatusCode::NotSupported, "the compressor isn't set");
        }
        Ok(())
    }
}

// Whether a choice is from its least to 2^30.
fn check_limit(alloc: Global, name: &str, chosen: usize, least: usize) -> Result<()>
    ensures ok { OnOk result (IsSizeWithin least chosen) }
    ensures cause { IfErr result
        (λ e. (e.code ≡ StatusCode.InvalidArgument) × (IsSizeWithin least chosen → ⊥)) }
{
    if least <= chosen && chosen <= 1 << 30 {
        return Ok(());
    }
    match format!(in alloc; "{name} is {chosen}, and not from {least} to 2^30") {
        Ok(msg) => err(alloc, StatusCode::InvalidArgument, msg.as_str()),
        Err(_) => err(alloc, StatusCode::InvalidArgument, name),
    }
}

/// An empty disk in memory, and the options for a store on it: the defaults.
pub fn in_memory(alloc: Global) -> (MemEnv, Options<DefaultCmp, BloomPolicy>)
    ensures files { (name : List ℕ) → (disk_of result.0).files name ≡ None }
    ensures choices { HasDefaultChoices result.1 }
{
    (MemEnv::new(alloc), Options::default())
}

/// The same, for tests.
pub fn for_test(alloc: Global) -> (MemEnv, Options<DefaultCmp, BloomPolicy>)
    ensures files { (name : List ℕ) → (disk_of result.0).files name ≡ None }
    ensures choices { HasDefaultChoices result.1 }
{
    in_memory(alloc)
}
