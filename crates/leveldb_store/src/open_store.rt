//! An open store: what is in memory of it, and the log to which batches are appended.
// LevelDB: db/db_impl.h, DBImpl
ghost use Rattle.std.specs.Prelude.{◌≡◌, ◌↔◌, IsTrue, false};
ghost use Rattle.leveldb_store.specs.Keeping.OpenStore.{IsUnbroken};

mod compact;
mod compact_range;
mod damage;
mod end_opening;
mod merge_files;
mod obsolete;
mod read;
mod room;
mod set_aside;
mod switch;
mod table;
mod view;
mod write;
mod write_batch;

use leveldb_base::cmp::{Cmp, UserCmp};
use leveldb_base::error::Result;
use leveldb_base::types::{FileNum, SequenceNumber};
use leveldb_env::env::Env;
use leveldb_mem::log::LogFile;
use leveldb_mem::memtable::MemTable;
use leveldb_version_set::version_set::VersionSet;
use std::alloc::Global;
use std::marker::Model;
pub use view::StoreView;

/// What the last removal of obsolete files that a call did returned, or `None` if it did none. Of
/// several the last counts, since each deletes all that is obsolete then.
pub type Removal = Option<Result<()>>;

/// A log that batches are appended to: its number, and its file with the writer of its records.
#[derive(Drop)]
pub(crate) struct OpenLog<E: Env> {
    pub(crate) number: FileNum,
    pub(crate) file: LogFile<E>,
}

/// A store that is open, without its lock and its environment, which each call is given.
pub struct OpenStore<E: Env, C: Cmp> {
    pub(crate) alloc: Global,
    // The store's path.
    pub(crate) name: String,
    pub(crate) cmp: C,
    pub(crate) versions: VersionSet<E, C>,
    pub(crate) log: OpenLog<E>,
    // The memtable: the entries of the log's batches.
    pub(crate) mem: MemTable<C>,
    // The immutable memtable: those of the logs before it, until they are in a table.
    pub(crate) imm: Option<MemTable<C>>,
    // The greatest number of the files that are kept, if some are, since a log or a manifest that
    // was left aside is damaged.
    pub(crate) kept_to: Option<FileNum>,
}

impl<E: Env, C: Cmp + Drop> Drop for OpenStore<E, C> {
    // One call for whoever drops one, in place of one for each part of it.
    fn drop(self) {
        let OpenStore {
            alloc: _,
            name,
            cmp,
            versions,
            log,
            mem,
            imm,
            kept_to: _,
        } = self;
        drop(name);
        drop(cmp);
        drop(versions);
        drop(log);
        drop(mem);
        drop(imm);
    }
}

impl<E: Env, C: Cmp> Model for OpenStore<E, C> {
    ghost use Rattle.std.specs.Prelude.{◌≡◌, ◌≢◌, ◌<◌, ◌^◌, [], IfSome, IsTrue, string_bytes};
    ghost use Rattle.std.specs.Option.{option_map};
    ghost use Rattle.leveldb_base.specs.History.{AreUpTo};
    ghost use Rattle.leveldb_files.specs.Stores.Paths.{log_path};
    ghost use Rattle.leveldb_version_set.specs.Sets.VersionSetValue.{unmade};
    ghost use Rattle.leveldb_store.specs.Keeping.OpenStore.{AreInLevels, AreNumbersGiven, HasOwnManifest, OpenStoreValue};

    ghost Value = { OpenStoreValue C };

    ghost view = { λ it. record {
      cmp = it.cmp;
      set = it.versions.set;
      current = it.versions.current;
      log = record { number = it.log.number; writer = it.log.file.writer };
      mem = it.mem.kept;
      imm = option_map (λ memtable. memtable.kept) it.imm;
      kept_to = it.kept_to;
    } };

    // The version set is of the store's path, the log's file has the path of the log's number,
    // which has 64 bits, and both memtables have the store's order. A manifest in use is in the
    // store's folder. The manifest is in use or broken. No entry of the memtable has a number past
    // the last one, and an immutable memtable has entries. The version has the store's order. The
    // number of each live file was given, and they are in levels.
    ghost invariant = { λ it. (it.versions.set.store ≡ string_bytes it.name)
        × ((it.log.file.path ≡ log_path (string_bytes it.name) it.log.number)
        × (it.log.number < 2 ^ 64))
        × (it.mem.cmp ≡ it.cmp)
        × IfSome it.imm (λ memtable. memtable.cmp ≡ it.cmp)
        × (IsTrue E.models_disk → HasOwnManifest it.versions.set)
        × (it.versions.set.manifest ≢ unmade)
        × AreUpTo it.versions.set.last_sequence it.mem.kept.entries
        × IfSome it.imm (λ memtable. memtable.kept.entries ≢ [])
        × (it.versions.current.cmp ≡ it.cmp)
        × AreNumbersGiven it.versions.set it.versions.set.full.added
        × AreInLevels E.models_disk (C.cmp it.cmp) it.versions.set.full.added };
}

impl<E: Env, C: UserCmp + Copy> OpenStore<E, C> {
    /// The number of the last entry.
    pub fn last_sequence(&self) -> SequenceNumber
        ensures { result ≡ self.now.set.last_sequence }
    {
        self.versions.last_seq()
    }

    /// The comparator of user keys.
    pub fn cmp(&self) -> C
        ensures { result ≡ self.now.cmp }
    {
        self.cmp
    }

    /// Whether a call on its manifest or its log failed: it may be read, and nothing is written to
    /// it any more.
    pub fn is_broken(&self) -> bool
        ensures { (result ≡ false) ↔ IsUnbroken self.now }
    {
        self.versions.is_broken() || self.log.file.is_broken()
    }
}
