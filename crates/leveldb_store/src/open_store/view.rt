//! Walks over the view of a store at a sequence number.
// LevelDB: db/db_impl.cc, DBImpl::NewInternalIterator
ghost use Rattle.std.specs.Prelude.{◌≡◌, ◌≤◌, ◌+◌, ◌++◌, ◌<◌, ◌^◌, IfErr, IfOk, List, OnOk, map, length, vec_len, vec_capacity};
ghost use Rattle.leveldb_iter.specs.Moves.{MovesAll};
ghost use Rattle.leveldb_files.specs.Stores.Format.{format_of};
ghost use Rattle.leveldb_version.specs.Tables.TableCache.{options_by, table_options};
ghost use Rattle.leveldb_version.specs.Walks.VersionIter.{reading as reading_by};
ghost use Rattle.leveldb_base.specs.Error.{IsOutOfMemory};
ghost use Rattle.leveldb_store.specs.Keeping.OpenStore.{AreInLevels, AreNumbersGiven};
ghost use Rattle.leveldb_version_set.specs.Sets.CurrentVersion.{IsCurrent};
ghost use Rattle.leveldb_store.specs.declared.store_walk.StoreWalk.TheVariants.{Tables};
ghost use Rattle.leveldb_store.specs.Reading.View.{AreChildrenOf, IsReadingOf, ReadsAlone, ViewsMerge, ViewsStore, WalksStore};

use super::OpenStore;
use crate::store_walk::StoreWalk;
use leveldb_base::cmp::{Cmp, InternalKeyCmp, UserCmp};
use leveldb_base::error::Result;
use leveldb_base::types::{LdbIterator, MAX_SEQUENCE_NUMBER, SequenceNumber};
use leveldb_env::compressor::{CompressorList, Compressors};
use leveldb_env::env::Env;
use leveldb_env::filter::FilterPolicy;
use leveldb_env::options::Options;
use leveldb_iter::db_iter::ViewWalk;
use leveldb_iter::in_memory::InMemory;
use leveldb_iter::merging_iter::MergeCore;
use leveldb_iter::moves::{Move, Step, make_moves};
use leveldb_iter::walk::Walk;
use leveldb_mem::memtable::MemtableIterator;
use leveldb_version::table_cache::{ReadTables, ReadsTables, TableCache};
use leveldb_version::version_iter::VersionIter;
use std::alloc::Global;

/// A walk over the view of a store at a sequence number. It borrows the store's memtables and its
/// version for `'s`; each move borrows the environment and the store's tables.
pub type StoreView<'s, C> = ViewWalk<
    MergeCore<InternalKeyCmp<C>, StoreWalk<'s, C, MemtableIterator<'s, C>>>,
>;

// A walk over a memtable or over tables.
type Child<'s, C> = StoreWalk<'s, C, MemtableIterator<'s, C>>;

impl<E: Env, C: UserCmp + Copy + Drop> OpenStore<E, C> {
    /// The walk over the view at a sequence number, at no position. Its moves read from the
    /// environment and from what `reading` makes of the store's open tables.
    pub fn view<'s, 'b, FP: FilterPolicy + Copy + Drop, K: ReadsTables<E, C, FP>>(
        &'s self,
        sequence: SequenceNumber,
    ) -> Result<StoreView<'s, C>>
    where
        E: 'b,
        C: 'b,
        FP: 'b,
        K: 'b,
        ensures views { let walk = ⟦<StoreView<'s, C> as Walk<E, ReadTables<'b, E, C, FP, K>>>⟧ in
            IfOk result (ViewsStore ⟦<InternalKeyCmp<C> as Cmp>⟧ E.Env C.Cmp FP.FilterPolicy
            K.codings walk self.now sequence) }
        ensures reads { ReadsAlone ⟦<InternalKeyCmp<C> as Cmp>⟧ E.Env C.Cmp FP.FilterPolicy
            K.codings ⟦<StoreView<'s, C> as Walk<E, ReadTables<'b, E, C, FP, K>>>⟧ }
        ensures memory { IfErr result IsOutOfMemory }
    {
        let children = self.children()?;
        let cmp = InternalKeyCmp(self.cmp);
        let last = sequence.min(MAX_SEQUENCE_NUMBER);
        Ok(view_over::<E, ReadTables<'b, E, C, FP, K>, _, _>(self.alloc, cmp, children, last))
    }

    /// The open tables of this store as the moves of its walks read them, with this order of users'
    /// keys, filter policy and compressors. No table is opened whose number wasn't given.
    pub fn reading<'b, FP: FilterPolicy + Copy + Drop, K: ReadsTables<E, C, FP>>(
        &self,
        cmp: C,
        policy: FP,
        compressors: &'b K,
        tables: &'b mut TableCache<E, C, FP>,
    ) -> ReadTables<'b, E, C, FP, K>
        ensures reads { IsReadingOf self.now cmp policy compressors.now tables.old result }
        ensures reference { result.cache.ghost_name ≡ tables.entry.ghost_name }
    {
        ReadTables {
            cache: tables,
            cmp,
            policy,
            compressors,
            below: self.versions.next_file_num(),
        }
    }

    /// Makes moves of a walk over the view at a sequence number, from no position on. `steps`,
    /// which has room for them, gains where each led.
    pub fn walk<FP: FilterPolicy + Copy + Drop>(
        &self,
        env: &mut E,
        options: &Options<C, FP>,
        tables: &mut TableCache<E, C, FP>,
        sequence: SequenceNumber,
        moves: &[Move],
        steps: &mut Vec<Step>,
    ) -> Result<()>
        requires order { C.cmp options.now.cmp ≡ C.cmp self.now.cmp }
        requires room { vec_len steps.old + length moves.now ≤ vec_capacity steps.old }
        ensures { let by = table_options (format_of C.Cmp FP.FilterPolicy
            ⟦<CompressorList as Compressors>⟧.codings options.now) options.now in
            (given : List Step) × (steps.new.items ≡ steps.old.items ++ given)
            × WalksStore ⟦<InternalKeyCmp<C> as Cmp>⟧ E.Env by self.now env.old tables.old sequence
            moves.now given result env.new tables.new }
    {
        let compressors = &options.compressor_list;
        let policy = options.filter_policy;
        self.walk_by(
            env,
            options.cmp,
            policy,
            compressors,
            tables,
            sequence,
            moves,
            steps,
        )
    }

    // `walk`, by these parts of the options.
    fn walk_by<FP: FilterPolicy + Copy + Drop, K: ReadsTables<E, C, FP>>(
        &self,
        env: &mut E,
        cmp: C,
        policy: FP,
        compressors: &K,
        tables: &mut TableCache<E, C, FP>,
        sequence: SequenceNumber,
        moves: &[Move],
        steps: &mut Vec<Step>,
    ) -> Result<()>
        requires order { C.cmp cmp ≡ C.cmp self.now.cmp }
        requires room { vec_len steps.old + length moves.now ≤ vec_capacity steps.old }
        ensures { let by = options_by C.Cmp FP.FilterPolicy (K.codings compressors.now) cmp policy
            in (given : List Step) × (steps.new.items ≡ steps.old.items ++ given)
            × WalksStore ⟦<InternalKeyCmp<C> as Cmp>⟧ E.Env by self.now env.old tables.old sequence
            moves.now given result env.new tables.new }
    {
        let mut reading = self.reading(cmp, policy, compressors, tables);
        let walked = self.walk_in(env, &mut reading, sequence, moves, steps);
        // This gives the open tables back.
        let _tables = reading.cache;
        walked
    }

    // `walk`, in these tables.
    fn walk_in<'b, FP: FilterPolicy + Copy + Drop, K: ReadsTables<E, C, FP>>(
        &self,
        env: &mut E,
        reading: &mut ReadTables<'b, E, C, FP, K>,
        sequence: SequenceNumber,
        moves: &[Move],
        steps: &mut Vec<Step>,
    ) -> Result<()>
        requires order { C.cmp reading.old.cmp ≡ C.cmp self.now.cmp }
        requires below { reading.old.below ≡ self.now.set.next_file }
        requires room { vec_len steps.old + length moves.now ≤ vec_capacity steps.old }
        ensures walks { let by = reading_by E.Env C.Cmp FP.FilterPolicy K.codings reading.old in
            (given : List Step) × (steps.new.items ≡ steps.old.items ++ given)
            × WalksStore ⟦<InternalKeyCmp<C> as Cmp>⟧ E.Env by self.now env.old
            reading.old.cache.now sequence moves.now given result env.new reading.new.cache.now }
        ensures reference { reading.new.cache.ghost_name ≡ reading.old.cache.ghost_name }
    {
        let view = self.view::<FP, K>(sequence)?;
        walk_through(self.alloc, view, env, reading, moves, steps);
        Ok(())
    }

    // Walks over what is in memory, and then over the tables of the version, the newer first. The
    // version has the live files, whose numbers were given, and they are in levels.
    fn children<'s>(&'s self) -> Result<Vec<Child<'s, C>>>
        ensures ok { IfOk result (λ children. AreChildrenOf
            ⟦<MemtableIterator<'s, C> as LdbIterator>⟧ (C.cmp self.now.cmp) self.now
            children.items) }
        ensures current { IsCurrent (C.cmp self.now.cmp) self.now.cmp self.now.set
            self.now.current }
        ensures given { AreNumbersGiven self.now.set self.now.set.full.added }
        ensures levels { AreInLevels E.models_disk (C.cmp self.now.cmp) self.now.set.full.added }
        ensures memory { IfErr result IsOutOfMemory }
    {
        let version = self.versions.current();
        let mut children = Vec::new(self.alloc);
        children.push(StoreWalk::Memory(InMemory(self.mem.iter())))?;
        if let Some(imm) = &self.imm {
            children.push(StoreWalk::Memory(InMemory(imm.iter())))?;
        }
        push_tables(version.new_iters(self.alloc)?, &mut children)?;
        Ok(children)
    }
}

// Appends walks over tables.
fn push_tables<'a, C: UserCmp + Copy + Drop>(
    walks: Vec<VersionIter<'a, C>>,
    children: &mut Vec<Child<'a, C>>,
) -> Result<()>
    ensures ok { OnOk result
        (children.new.items ≡ children.old.items ++ map Tables walks.entry.items) }
    ensures memory { IfErr result IsOutOfMemory }
{
    for walk in walks {
        children.push(StoreWalk::Tables(walk))?;
    }
    Ok(())
}

// The walk over the view at a sequence number of what these walks are over, at no position.
fn view_over<E, T, C: Cmp + Drop, I: Walk<E, T> + Drop>(
    alloc: Global,
    cmp: C,
    children: Vec<I>,
    sequence: SequenceNumber,
) -> ViewWalk<MergeCore<C, I>>
    requires { sequence < 2 ^ 56 }
    ensures { ViewsMerge I.Walk C.Cmp ⟦<ViewWalk<MergeCore<C, I>> as Walk<E, T>>⟧ cmp
        children.items sequence result }
{
    let merge = MergeCore::new::<E, T>(cmp, children);
    ViewWalk::new::<E, T>(alloc, merge, sequence)
}

// Makes moves of a walk over a view, from where it is on, and returns it.
fn walk_through<E, T, C: Cmp, I: Walk<E, T>>(
    alloc: Global,
    view: ViewWalk<MergeCore<C, I>>,
    env: &mut E,
    tables: &mut T,
    moves: &[Move],
    steps: &mut Vec<Step>,
) -> ViewWalk<MergeCore<C, I>>
    requires { vec_len steps.old + length moves.now ≤ vec_capacity steps.old }
    ensures { let walk = ⟦<ViewWalk<MergeCore<C, I>> as Walk<E, T>>⟧ in
        (given : List Step) × (steps.new.items ≡ steps.old.items ++ given)
        × MovesAll walk (env.old, tables.old) view moves.now given (env.new, tables.new) result }
{
    let mut view = view;
    make_moves(alloc, &mut view, env, tables, moves, steps);
    view
}
