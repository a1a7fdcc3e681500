//! What a store has in memory while it is open. Each call is given the environment.
// LevelDB: db/db_impl.h, DBImpl
ghost use Rattle.std.specs.Prelude.{◌≡◌, Bool, List, OnOk, IfErr};
ghost use Rattle.leveldb_base.specs.History.{Item};
ghost use Rattle.rusty_leveldb.specs.Machines.State.{open_mode, write, refused};
ghost use Rattle.rusty_leveldb.specs.Engines.Serves.{refusal_of};
ghost use Rattle.rusty_leveldb.specs.Engines.Engine.{IsClosed, RefusedAsClosed, RefusedByMode, AnswersStill};
ghost use Rattle.rusty_leveldb.specs.Engines.EngineValue.{FollowsStore, mode_of, removal_after};
ghost use Rattle.leveldb_store.specs.Keeping.OpenStore.{IsUnbroken};
ghost use Rattle.leveldb_store.specs.Writing.Removal.{but_removal};
ghost use Rattle.leveldb_files.specs.Stores.Format.{format_of};

use crate::read_samples::ReadSamples;
use leveldb_base::cmp::{Cmp, InternalKeyCmp, UserCmp};
use leveldb_base::error::{Result, StatusCode, err};
use leveldb_env::compressor::{CompressorList, Compressors};
use leveldb_env::env::Env;
use leveldb_env::filter::FilterPolicy;
use leveldb_env::options::Options;
use leveldb_iter::snapshot::SnapshotList;
use leveldb_store::open_store::{OpenStore, Removal};
use leveldb_version::table_cache::TableCache;
use std::alloc::Global;
use std::marker::{Model, PhantomData};

/// Whether a store may be written to and read.
#[derive(Clone, Copy, Debug, PartialEq, Eq)]
pub enum Mode {
    /// It may be read, and written to.
    Open,
    /// A call that writes to its files failed, or it could not be closed: it may be read and
    /// abandoned, and every call that writes fails.
    Broken,
    /// It is to be opened again.
    Closed,
}

/// A store that was opened, without its environment. Its lock stays held until `close` or `abandon`
/// gives it back. `O` are the options that it was opened with, and `T` holds its open tables; there
/// are calls only for the defaults.
pub struct Engine<E: Env, C: Cmp, FP, O = Options<C, FP>, T = TableCache<E, C, FP>> {
    pub(crate) alloc: Global,
    // A parameter, since a struct with bounds that owns the options' boxes can't have a model.
    pub(crate) options: O,
    // The name of the lock.
    pub(crate) lock: String,
    pub(crate) store: OpenStore<E, C>,
    // A parameter, since no contract may name a type that has tables beside the options' boxes.
    pub(crate) tables: T,
    // The defaults of the two name the filters' policy.
    pub(crate) policy: PhantomData<FP>,
    pub(crate) snapshots: SnapshotList,
    // What its iterators read, until a compaction is looked for.
    pub(crate) samples: ReadSamples,
    // How much memory the memtable took when a write last looked for a compaction.
    pub(crate) looked_at: usize,
    // What the last removal of obsolete files returned.
    pub(crate) removal: Result<()>,
    pub(crate) mode: Mode,
}

impl<E: Env, C: Cmp + Drop, FP: Drop, O: Drop, T: Drop> Drop for Engine<E, C, FP, O, T> {
    // One call for whoever drops an engine, in place of one for each part of it.
    fn drop(self) {
        let Engine {
            alloc: _,
            options,
            lock,
            store,
            tables,
            policy: _,
            snapshots,
            samples,
            looked_at: _,
            removal,
            mode: _,
        } = self;
        drop(options);
        drop(lock);
        drop(store);
        drop(tables);
        drop(snapshots);
        drop(samples);
        drop(removal);
    }
}

impl<E: Env, C: Cmp, FP, O, T> Model for Engine<E, C, FP, O, T> {
    ghost use Rattle.std.specs.Prelude.{string_bytes};
    ghost use Rattle.rusty_leveldb.specs.Engines.EngineValue.{EngineValue, IsUnbrokenIfOpen, mode_of};

    ghost Value = { EngineValue C O T };

    ghost view = { λ it. record {
      options = it.options;
      lock = string_bytes it.lock;
      store = it.store;
      tables = it.tables;
      snapshots = it.snapshots;
      looked_at = it.looked_at;
      removal = it.removal;
      mode = mode_of it.mode;
    } };

    // Where it is open, no call on its store's manifest or log has failed.
    ghost invariant = { λ it. IsUnbrokenIfOpen (mode_of it.mode) it.store };
}

// The mode of an engine that was open when its store was written to.
pub(super) fn mode_by<E: Env, C: UserCmp + Copy>(store: &OpenStore<E, C>) -> Mode
    ensures { FollowsStore (mode_of result) store.now }
{
    if store.is_broken() {
        Mode::Broken
    } else {
        Mode::Open
    }
}

// Keeps what the last removal of obsolete files in a call returned, if the call is Ok and did one.
pub(super) fn keep_removal(last: &mut Result<()>, done: Result<Removal>) -> Result<()>
    ensures done { result ≡ but_removal done }
    ensures kept { last.new ≡ removal_after last.old done }
{
    match done {
        Ok(Some(removal)) => {
            *last = removal;
            Ok(())
        }
        Ok(None) => Ok(()),
        Err(status) => Err(status),
    }
}

impl<E: Env, C: UserCmp + Copy, FP: FilterPolicy + Copy> Engine<E, C, FP> {
    /// What the last removal of obsolete files returned: that of the opening, or of the last call
    /// that wrote or compacted, made files obsolete and removed them. Where it is Ok, none was
    /// left then, but those that are kept. Where it is an Err, some may be, and the next removal
    /// deletes them: memory was out, or a call of the device failed. Nothing reads such a file.
    pub fn last_removal(&self) -> &Result<()>
        ensures { result.now ≡ self.now.removal }
    {
        &self.removal
    }

    /// Whether it may be written to; if not, this fails as every write does.
    pub fn check_writable(&self) -> Result<()>
        ensures ok { OnOk result (self.now.mode ≡ open_mode) }
        ensures unbroken { OnOk result (IsUnbroken self.now.store) }
        ensures step { let formats = format_of C.Cmp FP.FilterPolicy
            ⟦<CompressorList as Compressors>⟧.codings in
            IfErr result (λ status. (items : List Item) (sync : Bool)
            → AnswersStill ⟦<InternalKeyCmp<C> as Cmp>⟧ E.Env formats self.now (write items sync)
            (refused (refusal_of status))) }
        ensures cause { IfErr result (RefusedByMode self.now.mode) }
    {
        self.check_open()
    }

    // A closed store fails every call but `abandon`.
    pub(crate) fn check_not_closed(&self) -> Result<()>
        ensures ok { OnOk result (IsClosed self.now.mode → ⊥) }
        ensures cause { IfErr result (RefusedAsClosed self.now.mode) }
    {
        if self.mode == Mode::Closed {
            return err(
                self.alloc,
                StatusCode::InvalidArgument,
                "the store is closed",
            );
        }
        Ok(())
    }

    // A closed store fails every call that writes, and so does one that broke.
    pub(crate) fn check_open(&self) -> Result<()>
        ensures ok { OnOk result (self.now.mode ≡ open_mode) }
        ensures unbroken { OnOk result (IsUnbroken self.now.store) }
        ensures cause { IfErr result (RefusedByMode self.now.mode) }
    {
        self.check_not_closed()?;
        if self.mode == Mode::Broken {
            return err(self.alloc, StatusCode::IOError, "reopen the store");
        }
        Ok(())
    }
}
