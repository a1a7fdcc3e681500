//! The loop of a compaction: the pairs of a walk go to new tables, but for those whose entries may
//! go.
// LevelDB: db/db_impl.cc, DBImpl::DoCompactionWork
ghost use Rattle.std.specs.Prelude.{◌≡◌, ◌++◌, ◌∷◌, [], Bool, IfOk, List, OnOk, ℕ};
ghost use Rattle.leveldb_base.specs.Types.{Pair};
ghost use Rattle.leveldb_store.specs.Tables.BuildTable.{choices_of};
ghost use Rattle.leveldb_store.specs.Compactions.Cutting.{CutsInto, HasCut};
ghost use Rattle.leveldb_store.specs.Compactions.Merging.{HasMerged, MergesTables, MovesLeaveFiles, TakesPair, merge_of};
ghost use Rattle.leveldb_store.specs.Openings.Opening.{GivesNumbers, TakesBackNew};
ghost use Rattle.leveldb_store.specs.Writing.Switch.{MayGiveNumber};

use crate::outputs::Outputs;
use crate::passing::{MergeLevels, Passing};
use leveldb_base::cmp::{Cmp, InternalKeyCmp, UserCmp};
use leveldb_base::error::{Result, Status, StatusCode, err};
use leveldb_base::key_types::{TAG_LEN, parse_internal_key};
use leveldb_base::types::{FileMetaData, SequenceNumber};
use leveldb_env::compressor::{CompressorList, Compressors};
use leveldb_env::env::Env;
use leveldb_env::filter::{FilterPolicy, InternalFilterPolicy};
use leveldb_env::options::Options;
use leveldb_iter::walk::Walk;
use leveldb_version_set::version_set::VersionSet;
use std::alloc::{AllocError, Global};

/// Where tables end, besides past their size.
pub trait Cuts {
    // whether it may ask for an end before a key, and what it is then
    ghost stops_before: { Self → List ℕ → Bool → Self → Type 0 };

    /// Whether the open table is to end before this internal key, or before the next one of another
    /// user key. It is asked for each key in turn.
    fn should_stop_before(&mut self, key: &[u8]) -> bool
        ensures { stops_before self.old key.now result self.new };
}

/// What pairs are merged with: the store's folder and options, what is known of user keys, and the
/// smallest held number.
#[derive(Drop)]
pub struct MergePlan<'a, C: UserCmp + Copy + Drop, FP: FilterPolicy + Copy + Drop, L: MergeLevels> {
    pub alloc: Global,
    pub store: &'a str,
    pub options: &'a Options<C, FP>,
    pub levels: &'a L,
    pub smallest: SequenceNumber,
}

// What a merge has come to: the entry just before, and the tables.
#[derive(Drop)]
struct Merging<E: Env, C: UserCmp + Copy + Drop, FP: FilterPolicy + Copy + Drop> {
    passing: Passing,
    outputs: Outputs<E, C, FP>,
}

impl<E: Env, C: UserCmp + Copy + Drop, FP: FilterPolicy + Copy + Drop> Merging<E, C, FP> {
    // Puts the next pair where it stays.
    fn take<L: MergeLevels, X: Cuts>(
        &mut self,
        env: &mut E,
        versions: &mut VersionSet<E, C>,
        plan: &MergePlan<'_, C, FP, L>,
        cut: &mut X,
        key: &[u8],
        value: &[u8],
    ) -> Result<()>
        ensures takes { let choices = choices_of C.Cmp FP.FilterPolicy
            ⟦<InternalKeyCmp<C> as Cmp>⟧ ⟦<InternalFilterPolicy<FP> as FilterPolicy>⟧
            ⟦<CompressorList as Compressors>⟧.codings plan.now.options.now in
            let merge = merge_of choices plan.now.store.now plan.now.smallest
            (L.is_base plan.now.levels.now) (L.is_among plan.now.levels.now) in
            (first : ℕ) (read : List Pair) → HasMerged merge E.Env first read
            versions.old.set.next_file env.old self.old.passing self.old.outputs
            → TakesPair merge E.Env first read (key.now, value.now) versions.old.set.next_file
            env.old result versions.new.set.next_file env.new self.new.passing self.new.outputs }
        ensures cuts { let choices = choices_of C.Cmp FP.FilterPolicy
            ⟦<InternalKeyCmp<C> as Cmp>⟧ ⟦<InternalFilterPolicy<FP> as FilterPolicy>⟧
            ⟦<CompressorList as Compressors>⟧.codings plan.now.options.now in
            let merge = merge_of choices plan.now.store.now plan.now.smallest
            (L.is_base plan.now.levels.now) (L.is_among plan.now.levels.now) in
            (start : X) (first : ℕ) (read : List Pair) → let Has = HasCut merge E.Env
            X.stops_before plan.now.options.now.max_file_size start first in
            Has read versions.old.set.next_file env.old self.old.passing self.old.outputs cut.old
            → OnOk result (Has (read ++ (key.now, value.now) ∷ []) versions.new.set.next_file
            env.new self.new.passing self.new.outputs cut.new) }
        ensures numbers { MayGiveNumber versions.old.set versions.new.set }
        ensures version { versions.new.current ≡ versions.old.current }
    {
        if key.len() < TAG_LEN {
            return err(plan.alloc, StatusCode::Corruption, "a key has no tag");
        }
        let (kind, sequence, user) = parse_internal_key(key);
        if !self.passing.follows(&plan.options.cmp, sequence, user) {
            return err(plan.alloc, StatusCode::Corruption, "keys are out of order");
        }
        if !plan.levels.is_among_inputs(user) {
            return err(
                plan.alloc,
                StatusCode::Corruption,
                "a key is in no input's range",
            );
        }
        self.outputs.end_table(cut.should_stop_before(key));
        let (levels, smallest) = (plan.levels, plan.smallest);
        if self.passing.goes(levels, smallest, kind, sequence, user) {
            return self.passing.keep(sequence, user);
        }
        self.outputs
            .put(env, versions, plan.store, plan.options, key, value)?;
        self.passing.keep(sequence, user)
    }
}

/// Merges the pairs of a walk over internal keys into new tables: each pair whose entry stays is in
/// one of them, as it was, and the tables are cut between user keys, past the options'
/// `max_file_size` or where `cut` asks for it, which it may before each pair. `Corruption` where a
/// key has no tag, isn't after the one before it, or is in no input's range, whatever the walk
/// reads. After an Err some of the tables may be there, which nothing names.
pub fn merge_tables<
    E: Env,
    T,
    W: Walk<E, T>,
    C: UserCmp + Copy + Drop,
    FP: FilterPolicy + Copy + Drop,
    L: MergeLevels,
    X: Cuts,
>(
    env: &mut E,
    tables: &mut T,
    walk: &mut W,
    versions: &mut VersionSet<E, C>,
    plan: &MergePlan<'_, C, FP, L>,
    cut: &mut X,
) -> Result<Vec<FileMetaData>>
    ensures merges { let choices = choices_of C.Cmp FP.FilterPolicy
        ⟦<InternalKeyCmp<C> as Cmp>⟧ ⟦<InternalFilterPolicy<FP> as FilterPolicy>⟧
        ⟦<CompressorList as Compressors>⟧.codings plan.now.options.now in
        let merge = merge_of choices plan.now.store.now plan.now.smallest
        (L.is_base plan.now.levels.now) (L.is_among plan.now.levels.now) in
        MovesLeaveFiles E.Env W.Walk
        → MergesTables merge E.Env versions.old.set.next_file W.Walk (λ files. files.items)
        (env.old, tables.old) walk.old result versions.new.set.next_file (env.new, tables.new) }
    ensures cuts { let choices = choices_of C.Cmp FP.FilterPolicy
        ⟦<InternalKeyCmp<C> as Cmp>⟧ ⟦<InternalFilterPolicy<FP> as FilterPolicy>⟧
        ⟦<CompressorList as Compressors>⟧.codings plan.now.options.now in
        let merge = merge_of choices plan.now.store.now plan.now.smallest
        (L.is_base plan.now.levels.now) (L.is_among plan.now.levels.now) in
        MovesLeaveFiles E.Env W.Walk
        → IfOk result (λ files. CutsInto merge E.Env X.stops_before
        plan.now.options.now.max_file_size cut.old versions.old.set.next_file W.Walk
        (env.old, tables.old) walk.old versions.new.set.next_file files.items env.new cut.new) }
    ensures numbers { GivesNumbers versions.old.set versions.new.set }
    ensures back { TakesBackNew versions.old.set versions.new.set }
    ensures version { versions.new.current ≡ versions.old.current }
{
    let mut merging = Merging {
        passing: Passing::new(plan.alloc),
        outputs: Outputs::new(plan.alloc),
    };
    walk.seek_to_first(env, tables)?;
    for _ in 0..u128::MAX {
        let Some((key, value)) = walk.current() else {
            return merging.outputs.finish(env, plan.options);
        };
        merging.take(env, versions, plan, cut, key, value)?;
        walk.advance(env, tables)?;
    }
    Err(Status::from(AllocError))
}
