//! Snapshots of a store: the numbers at which its readers hold it.
// LevelDB: db/db_impl.cc, DBImpl::GetSnapshot and ReleaseSnapshot
ghost use Rattle.std.specs.Prelude.{◌≡◌, Some, Contains, OnOk, IfErr};
ghost use Rattle.leveldb_base.specs.declared.error.StatusCode.TheVariants.{InvalidArgument};
ghost use Rattle.rusty_leveldb.specs.Machines.Causes.{IsNotHeld};
ghost use Rattle.rusty_leveldb.specs.Engines.Serves.{snapshot_of};
ghost use Rattle.rusty_leveldb.specs.Engines.Engine.{held_in};
ghost use Rattle.leveldb_store.specs.Tables.BuildTable.{choices_of};
ghost use Rattle.rusty_leveldb.specs.Engines.Calls.{EngineHolds, EngineReleases};
ghost use Rattle.rusty_leveldb.specs.Programs.Views.{RefusesUnknown};
ghost use Rattle.rusty_leveldb.specs.Engines.AnyValue.{IsAnyValue};

use super::engine::Engine;
use leveldb_base::cmp::{Cmp, InternalKeyCmp, UserCmp};
use leveldb_base::error::{Result, Status, StatusCode, err};
use leveldb_env::compressor::{CompressorList, Compressors};
use leveldb_env::env::Env;
use leveldb_env::filter::{FilterPolicy, InternalFilterPolicy};
use leveldb_iter::snapshot::Snapshot;

impl<E: Env, C: UserCmp + Copy, FP: FilterPolicy + Copy> Engine<E, C, FP> {
    /// Holds the store as it is now: look-ups at the snapshot find what look-ups find now, until it
    /// is released or the store is closed.
    pub fn get_snapshot(&mut self) -> Result<Snapshot>
        requires any { IsAnyValue self.old }
        ensures { let choices = choices_of C.Cmp FP.FilterPolicy
            ⟦<InternalKeyCmp<C> as Cmp>⟧ ⟦<InternalFilterPolicy<FP> as FilterPolicy>⟧
            ⟦<CompressorList as Compressors>⟧.codings in
            (at : E) → EngineHolds E.Env choices self.old at result self.new at }
    {
        self.check_not_closed()?;
        let last = self.store.last_sequence();
        let snapshot = self.snapshots.new_snapshot(last)?;
        Ok(snapshot)
    }

    /// Releases a snapshot. One that isn't held is `InvalidArgument`; one that is held is released,
    /// whatever memory there is.
    pub fn release_snapshot(&mut self, snapshot: Snapshot) -> Result<()>
        requires any { IsAnyValue self.old }
        ensures { let choices = choices_of C.Cmp FP.FilterPolicy
            ⟦<InternalKeyCmp<C> as Cmp>⟧ ⟦<InternalFilterPolicy<FP> as FilterPolicy>⟧
            ⟦<CompressorList as Compressors>⟧.codings in
            (at : E) → EngineReleases E.Env choices self.old at snapshot result self.new at }
    {
        self.check_not_closed()?;
        self.check_held(snapshot)?;
        self.snapshots.release(snapshot);
        Ok(())
    }

    // Why a snapshot is refused that was never given out: it isn't held.
    pub(crate) fn refuse_unknown(&self) -> Status
        ensures { let choices = choices_of C.Cmp FP.FilterPolicy
            ⟦<InternalKeyCmp<C> as Cmp>⟧ ⟦<InternalFilterPolicy<FP> as FilterPolicy>⟧
            ⟦<CompressorList as Compressors>⟧.codings in
            RefusesUnknown E.Env choices self.now result }
    {
        match self.check_not_closed() {
            Err(status) => status,
            Ok(()) => {
                // Whatever is held reads at a number of 64 bits.
                let _ = self.snapshots.newest();
                Status::new(
                    self.alloc,
                    StatusCode::InvalidArgument,
                    "no such snapshot was given out",
                )
            }
        }
    }

    // A snapshot that isn't held is refused.
    pub(crate) fn check_held(&self, snapshot: Snapshot) -> Result<()>
        ensures ok { OnOk result (Contains (held_in self.now) (snapshot_of snapshot)) }
        ensures cause { IfErr result (λ status. (status.code ≡ InvalidArgument)
            × IsNotHeld (held_in self.now) (Some (snapshot_of snapshot))) }
    {
        if !self.snapshots.is_held(snapshot) {
            return err(
                self.alloc,
                StatusCode::InvalidArgument,
                "the snapshot isn't held",
            );
        }
        Ok(())
    }
}
