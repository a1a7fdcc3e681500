//! The compactions for which a version set asks, and the merge of the tables that one takes.
// LevelDB: db/version_set.cc, VersionSet
ghost use Rattle.std.specs.Prelude.{◌≡◌, ◌<◌, IfErr, IfOk};
ghost use Rattle.leveldb_base.specs.Error.{IsOutOfMemory};
ghost use Rattle.leveldb_base.specs.KeyTypes.{user_part};
ghost use Rattle.leveldb_version_set.specs.Sets.CurrentVersion.{IsCurrent};
ghost use Rattle.leveldb_version_set.specs.Compactions.InputMerge.{MergesTablesOf};
ghost use Rattle.leveldb_files.specs.Levels.Overlap.{named_range};
ghost use Rattle.leveldb_version_set.specs.Compactions.Picking.{IsAskedByReads, IsAskedFor, IsOfRange, needs_compaction};

use super::live_files::LiveFiles;
use super::set::VersionSet;
use crate::compaction::{Compaction, pick};
use leveldb_base::cmp::{Cmp, InternalKeyCmp, UserCmp};
use leveldb_base::error::Result;
use leveldb_base::key_types::InternalKey;
use leveldb_env::env::Env;
use leveldb_env::filter::FilterPolicy;
use leveldb_env::options::Options;
use leveldb_iter::merging_iter::MergeCore;
use leveldb_iter::walk::Walk;
use leveldb_version::table_cache::{ReadTables, ReadsTables};
use leveldb_version::version_iter::VersionIter;
use std::alloc::Global;

/// A walk that merges the tables of files, such as those that a compaction takes. It borrows their
/// metadata for `'c`; each move borrows the environment and the store's open tables.
pub type InputWalk<'c, C> = MergeCore<InternalKeyCmp<C>, VersionIter<'c, C>>;

impl<E: Env, C: UserCmp + Copy + Drop> VersionSet<E, C> {
    /// Whether the current version asks for a compaction, by its score or by reads.
    // LevelDB: VersionSet::NeedsCompaction
    pub fn needs_compaction(&self) -> bool
        ensures { result ≡ needs_compaction self.now.current }
    {
        pick::needs_compaction(&self.current)
    }

    /// The compaction for which the current version asks: by its score, of the files after the
    /// level's compaction pointer, or else by reads. It has copies of what it needs of the set,
    /// whose files the version has.
    // LevelDB: VersionSet::PickCompaction
    pub fn pick_compaction<FP>(&self, options: &Options<C, FP>) -> Result<Option<Compaction<C>>>
        ensures ok { IfOk result (IsAskedFor (C.cmp self.now.current.cmp)
            self.now.set.full.pointers self.now.current options.now.max_file_size) }
        ensures current { IsCurrent (C.cmp self.now.current.cmp) self.now.current.cmp self.now.set
            self.now.current }
        ensures memory { IfErr result IsOutOfMemory }
    {
        let pointers = self.files.full.compaction_ptrs.as_slice();
        pick::pick_compaction(
            self.files.alloc,
            &self.current,
            pointers,
            options.max_file_size,
        )
    }

    /// The compaction for which reads ask, whatever the current version's score. It has copies of
    /// what it needs of the set.
    pub fn compaction_by_reads<FP>(&self, options: &Options<C, FP>) -> Result<Option<Compaction<C>>>
        ensures ok { IfOk result (IsAskedByReads (C.cmp self.now.current.cmp) self.now.current
            options.now.max_file_size) }
        ensures memory { IfErr result IsOutOfMemory }
    {
        pick::compaction_by_reads(self.files.alloc, &self.current, options.max_file_size)
    }

    /// The compaction of the files of a level that overlap the range between two keys, if there are
    /// some, as `compaction::pick::compact_range`: an empty user key is an open end.
    // LevelDB: VersionSet::CompactRange
    pub fn compact_range<FP>(
        &self,
        options: &Options<C, FP>,
        level: usize,
        begin: InternalKey<'_>,
        end: InternalKey<'_>,
    ) -> Result<Option<Compaction<C>>>
        requires { level < 6 }
        ensures ok { IfOk result (IsOfRange (C.cmp self.now.current.cmp) self.now.current level
            (named_range (user_part begin.now) (user_part end.now)) options.now.max_file_size) }
        ensures memory { IfErr result IsOutOfMemory }
    {
        pick::compact_range(
            self.files.alloc,
            &self.current,
            level,
            begin,
            end,
            options.max_file_size,
        )
    }

    /// The merge of the tables that a compaction takes, in the order of internal keys, at no
    /// position. This reads nothing.
    // LevelDB: VersionSet::MakeInputIterator
    pub fn make_input_iterator<'c, 'b, FP: FilterPolicy + Copy + Drop, K: ReadsTables<E, C, FP>>(
        &self,
        compaction: &'c Compaction<C>,
    ) -> Result<InputWalk<'c, C>>
    where
        E: 'b,
        C: 'b,
        FP: 'b,
        K: 'b,
        ensures merges { let walk =
            ⟦<VersionIter<'c, C> as Walk<E, ReadTables<'b, E, C, FP, K>>>⟧ in
            IfOk result (MergesTablesOf walk ⟦<InternalKeyCmp<C> as Cmp>⟧ self.now.current.cmp
            compaction.now.inputs) }
        ensures memory { IfErr result IsOutOfMemory }
    {
        let walks = compaction.input_iters(self.files.allocator())?;
        let cmp = InternalKeyCmp(*self.current.ucmp());
        Ok(MergeCore::new::<E, ReadTables<'b, E, C, FP, K>>(cmp, walks))
    }
}

impl<E: Env> LiveFiles<E> {
    // What the set takes its memory from.
    fn allocator(&self) -> Global {
        self.alloc
    }
}
