//! Scans of a store's view.
ghost use Rattle.std.specs.Prelude.{◌≡◌, ◌++◌, ℕ, List, [], OnErr, map};
ghost use Rattle.std.specs.Global.{Vec};
ghost use Rattle.std.specs.Option.{option_map};
ghost use Rattle.leveldb_version.specs.Tables.TableCache.{options_by};
ghost use Rattle.leveldb_version.specs.Walks.VersionIter.{reading as reading_by};
ghost use Rattle.leveldb_store.specs.Tables.BuildTable.{choices_of};
ghost use Rattle.rusty_leveldb.specs.Engines.AnyValue.{IsAnyValue};
ghost use Rattle.rusty_leveldb.specs.Engines.Serves.{snapshot_of};
ghost use Rattle.rusty_leveldb.specs.Walks.Scan.{ScansWalk, bytes_of_copy};
ghost use Rattle.rusty_leveldb.specs.Engines.Witness.{shown_by};
ghost use Rattle.rusty_leveldb.specs.Machines.Shown.{snapshot_number};
ghost use Rattle.rusty_leveldb.specs.Walks.StoreScan.{EngineScans, SaysScanned, ScansStore};

use super::engine::Engine;
use super::store::Store;
use crate::scan::{Scan, scan_walk};
use leveldb_base::cmp::{Cmp, InternalKeyCmp, UserCmp};
use leveldb_base::error::Result;
use leveldb_base::types::SequenceNumber;
use leveldb_env::compressor::{CompressorList, Compressors};
use leveldb_env::env::Env;
use leveldb_env::filter::{FilterPolicy, InternalFilterPolicy};
use leveldb_iter::db_iter::ViewWalk;
use leveldb_iter::merging_iter::MergeCore;
use leveldb_iter::snapshot::Snapshot;
use leveldb_iter::walk::Walk;
use leveldb_store::open_store::OpenStore;
use leveldb_version::table_cache::{ReadTables, ReadsTables, TableCache};
use std::alloc::Global;

impl<E: Env, C: UserCmp + Copy, FP: FilterPolicy + Copy> Engine<E, C, FP> {
    /// Appends to `pairs` copies of the first `count` pairs of a scan over the store as it is now,
    /// or over a snapshot. After an error `pairs` is as it was. A snapshot that isn't held is
    /// `InvalidArgument`, and so is a key of more than 2^30 bytes.
    pub fn scan(
        &mut self,
        env: &mut E,
        at: Option<Snapshot>,
        scan: Scan<'_>,
        count: usize,
        pairs: &mut Vec<(Vec<u8>, Vec<u8>)>,
    ) -> Result<()>
        requires any { IsAnyValue self.old }
        ensures { let choices = choices_of C.Cmp FP.FilterPolicy ⟦<InternalKeyCmp<C> as Cmp>⟧
            ⟦<InternalFilterPolicy<FP> as FilterPolicy>⟧
            ⟦<CompressorList as Compressors>⟧.codings in
            (given : List (Vec ℕ × Vec ℕ)) × (pairs.new.items ≡ pairs.old.items ++ given)
            × EngineScans E.Env choices self.old env.old (option_map snapshot_of at) scan.entry
            count (map bytes_of_copy given) result self.new env.new }
    {
        self.check_not_closed()?;
        let sequence = self.sequence_at(at)?;
        scan.check_key(self.alloc)?;
        let alloc = self.alloc;
        let options = &self.options;
        let policy = options.filter_policy;
        let compressors = &options.compressor_list;
        scan_store(
            alloc,
            &self.store,
            env,
            &mut self.tables,
            policy,
            compressors,
            sequence,
            scan,
            count,
            pairs,
        )
    }
}

impl<'e, E: Env, C: UserCmp + Copy, FP: FilterPolicy + Copy> Store<'e, E, Engine<E, C, FP>> {
    /// Appends to `pairs` copies of the first `count` pairs of a scan over the store as it is now,
    /// or over a snapshot. A program goes through a store by one scan after another, each from or
    /// before the key at which the last one ended. A snapshot that isn't held is `InvalidArgument`,
    /// and so is a key of more than 2^30 bytes.
    ///
    /// Ok: they are the first of the scan, of all pairs of the history's sorted map (`ScansView`);
    /// fewer than `count` if no more are there.
    /// Err: `pairs` is as it was, and nothing changes.
    /// Crash: as without this call.
    pub fn scan(
        &mut self,
        at: Option<Snapshot>,
        scan: Scan<'_>,
        count: usize,
        pairs: &mut Vec<(Vec<u8>, Vec<u8>)>,
    ) -> Result<()>
        requires any { IsAnyValue self.old }
        ensures says { let codings = ⟦<CompressorList as Compressors>⟧.codings in
            (given : List (Vec ℕ × Vec ℕ)) × (pairs.new.items ≡ pairs.old.items ++ given)
            × SaysScanned E.Env (shown_by ⟦<InternalKeyCmp<C> as Cmp>⟧ E.Env C.Cmp FP.FilterPolicy
            codings) self.old.state self.old.env.now (snapshot_number (option_map snapshot_of at))
            scan.entry count (map bytes_of_copy given) result self.new.state self.new.env.now }
        ensures same_reference { self.new.env.ghost_name ≡ self.old.env.ghost_name }
        ensures scans { let choices = choices_of C.Cmp FP.FilterPolicy
            ⟦<InternalKeyCmp<C> as Cmp>⟧ ⟦<InternalFilterPolicy<FP> as FilterPolicy>⟧
            ⟦<CompressorList as Compressors>⟧.codings in
            (given : List (Vec ℕ × Vec ℕ)) × (pairs.new.items ≡ pairs.old.items ++ given)
            × EngineScans E.Env choices self.old.state self.old.env.now
            (option_map snapshot_of at) scan.entry count (map bytes_of_copy given) result
            self.new.state self.new.env.now }
    {
        self.state.scan(&mut *self.env, at, scan, count, pairs)
    }
}

// Appends the first pairs of a scan of an open store's view at a sequence number.
pub(super) fn scan_store<
    E: Env,
    C: UserCmp + Copy,
    FP: FilterPolicy + Copy,
    K: ReadsTables<E, C, FP>,
>(
    alloc: Global,
    store: &OpenStore<E, C>,
    env: &mut E,
    tables: &mut TableCache<E, C, FP>,
    policy: FP,
    compressors: &K,
    sequence: SequenceNumber,
    scan: Scan<'_>,
    count: usize,
    pairs: &mut Vec<(Vec<u8>, Vec<u8>)>,
) -> Result<()>
    ensures { let by = options_by C.Cmp FP.FilterPolicy (K.codings compressors.now) store.now.cmp
        policy in
        (given : List (Vec ℕ × Vec ℕ)) × (pairs.new.items ≡ pairs.old.items ++ given)
        × ScansStore ⟦<InternalKeyCmp<C> as Cmp>⟧ E.Env by store.now env.old tables.old sequence
        scan.entry count (map bytes_of_copy given) result env.new tables.new }
{
    let mut reading = store.reading(store.cmp(), policy, compressors, tables);
    let scanned = scan_in(
        alloc,
        store,
        env,
        &mut reading,
        sequence,
        scan,
        count,
        pairs,
    );
    // This gives the open tables back.
    let _tables = reading.cache;
    scanned
}

// The same, in these tables.
fn scan_in<'b, E: Env, C: UserCmp + Copy, FP: FilterPolicy + Copy, K: ReadsTables<E, C, FP>>(
    alloc: Global,
    store: &OpenStore<E, C>,
    env: &mut E,
    reading: &mut ReadTables<'b, E, C, FP, K>,
    sequence: SequenceNumber,
    scan: Scan<'_>,
    count: usize,
    pairs: &mut Vec<(Vec<u8>, Vec<u8>)>,
) -> Result<()>
    requires order { C.cmp reading.old.cmp ≡ C.cmp store.now.cmp }
    requires below { reading.old.below ≡ store.now.set.next_file }
    ensures scans { let by = reading_by E.Env C.Cmp FP.FilterPolicy K.codings reading.old in
        (given : List (Vec ℕ × Vec ℕ)) × (pairs.new.items ≡ pairs.old.items ++ given)
        × ScansStore ⟦<InternalKeyCmp<C> as Cmp>⟧ E.Env by store.now env.old reading.old.cache.now
        sequence scan.entry count (map bytes_of_copy given) result env.new reading.new.cache.now }
    ensures reference { reading.new.cache.ghost_name ≡ reading.old.cache.ghost_name }
{
    let view = store.view::<FP, K>(sequence)?;
    scan_view(alloc, view, env, reading, scan, count, pairs)
}

// Scans a walk over a view, which ends then.
fn scan_view<E, T, C: Cmp + Drop, I: Walk<E, T> + Drop>(
    alloc: Global,
    view: ViewWalk<MergeCore<C, I>>,
    env: &mut E,
    tables: &mut T,
    scan: Scan<'_>,
    count: usize,
    pairs: &mut Vec<(Vec<u8>, Vec<u8>)>,
) -> Result<()>
    ensures { let walk = ⟦<ViewWalk<MergeCore<C, I>> as Walk<E, T>>⟧ in
        (given : List (Vec ℕ × Vec ℕ)) × (pairs.new.items ≡ pairs.old.items ++ given)
        × ScansWalk walk scan.entry count (map bytes_of_copy given) (env.old, tables.old) view
        result (env.new, tables.new) × OnErr result (given ≡ []) }
{
    let mut view = view;
    scan_walk(alloc, &mut view, env, tables, scan, count, pairs)
}
