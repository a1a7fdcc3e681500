//! A walk over a table that is found in a store's folder.
ghost use Rattle.std.specs.Prelude.{◌≡◌, None, is_some};
ghost use Rattle.leveldb_base.specs.Types.{pair_of};
ghost use Rattle.leveldb_table.specs.TableReaderWalk.{inner_position};

use super::files::{ReadFiles, ReadsFound};
use super::moves::move_in;
use leveldb_base::cmp::{Cmp, InternalKeyCmp, UserCmp};
use leveldb_base::error::Result;
use leveldb_env::compressor::{CompressorList, Compressors};
use leveldb_env::env::Env;
use leveldb_env::filter::NoFilterPolicy;
use leveldb_iter::walk::Walk;
use leveldb_table::block_cache::BlockCache;
use leveldb_table::table_reader::{Table, TableCore};
use std::alloc::Global;

/// A walk over one table of internal keys, with the table's file, which is open. It has two blocks
/// of the file in memory, the index and the one where it is, and reads no filters. No key and no
/// value is copied. A block that can't be read is an error: none is passed over.
#[derive(Drop)]
pub struct FoundTable<E: Env, C: UserCmp + Copy + Drop>
where
    InternalKeyCmp<C>: Cmp,
{
    table: Table<E, InternalKeyCmp<C>, NoFilterPolicy>,
    core: TableCore<InternalKeyCmp<C>>,

    // which has room for none
    blocks: BlockCache<InternalKeyCmp<C>>,
}

/// A move of a walk over a table.
#[derive(Clone, Copy)]
pub enum FoundMove<'k> {
    /// To the next pair.
    Next,
    /// To the pair before.
    Before,
    /// To the first pair at or after a key.
    Seek(&'k [u8]),
    /// To the first pair.
    First,
    /// To the last pair.
    Last,
}

impl<E: Env, C: UserCmp + Copy + Drop> FoundTable<E, C> {
    ghost use Rattle.leveldb_repair.specs.FoundWalkTable.{MovesInFound, OpensFound, found_here};

    /// A walk over the table in a file of this size, under this order of users' keys, at no
    /// position. It reads the footer and the index. `Corruption` where the file has none; the
    /// causes of `read_table_block`.
    pub fn open(
        alloc: Global,
        env: &mut E,
        file: E::File,
        size: usize,
        cmp: C,
        compressors: &CompressorList,
    ) -> Result<FoundTable<E, C>>
        ensures { OpensFound ⟦<InternalKeyCmp<C> as Cmp>⟧ E.Env C.Cmp
            (⟦<CompressorList as Compressors>⟧.codings compressors.now) cmp file size env.old
            result env.new }
    {
        let mut blocks = BlockCache::new(alloc, 0)?;
        let order = InternalKeyCmp(cmp);
        let table = Table::open_no_filter(alloc, order, compressors, env, &mut blocks, file, size)?;
        let core = TableCore::new(alloc, &table)?.filling(false);
        Ok(FoundTable {
            table,
            core,
            blocks,
        })
    }

    /// Moves to no position.
    pub(crate) fn leave(&mut self)
        ensures { self.new ≡ record self.old { core = record self.old.core { inner = None } } }
    {
        self.core.reset();
    }

    /// The key and the value of the pair that it is at.
    pub(crate) fn pair(&self) -> Option<(&[u8], &[u8])>
        ensures { pair_of result ≡ found_here self.now }
    {
        self.core.current()
    }

    /// Whether it is at a pair.
    pub(crate) fn is_at_pair(&self) -> bool
        ensures { result ≡ is_some (inner_position self.now.core.inner) }
    {
        self.core.valid()
    }

    /// Makes a move. Returns whether it is at a pair then.
    pub(crate) fn go(
        &mut self,
        env: &mut E,
        compressors: &CompressorList,
        to: FoundMove,
    ) -> Result<bool>
        ensures { MovesInFound ⟦<InternalKeyCmp<C> as Cmp>⟧ E.Env
            (⟦<CompressorList as Compressors>⟧.codings compressors.now) to.entry env.old self.old
            result env.new self.new }
    {
        let (core, table, blocks) = (&mut self.core, &self.table, &mut self.blocks);
        move_in(core, table, env, blocks, compressors, to)
    }
}

impl<'b, E: Env, C: UserCmp + Copy + Drop, K: ReadsFound<E, C>> Walk<E, ReadFiles<'b, K>>
    for FoundTable<E, C> {
    ghost use Rattle.leveldb_repair.specs.FoundWalkLaws.{found_laws};
    ghost use Rattle.leveldb_repair.specs.FoundWalkTable.{IsFoundOver, IsFoundAt, FailsInFound, KeepsFound, found_here};

    ghost over = { IsFoundOver ⟦<InternalKeyCmp<C> as Cmp>⟧ E.Env K.codings };

    ghost is_at = { IsFoundAt ⟦<InternalKeyCmp<C> as Cmp>⟧ E.Env K.codings };

    ghost here = { found_here };

    ghost fails = { FailsInFound ⟦<InternalKeyCmp<C> as Cmp>⟧ E.Env K.codings };

    ghost keeps = { KeepsFound E.Env };

    fn advance(&mut self, env: &mut E, files: &mut ReadFiles<'b, K>) -> Result<bool> {
        files.compressors.move_in_found(env, self, FoundMove::Next)
    }

    fn prev(&mut self, env: &mut E, files: &mut ReadFiles<'b, K>) -> Result<bool> {
        files
            .compressors
            .move_in_found(env, self, FoundMove::Before)
    }

    fn seek(&mut self, env: &mut E, files: &mut ReadFiles<'b, K>, key: &[u8]) -> Result<()> {
        files
            .compressors
            .move_in_found(env, self, FoundMove::Seek(key))?;
        Ok(())
    }

    fn seek_to_first(&mut self, env: &mut E, files: &mut ReadFiles<'b, K>) -> Result<()> {
        files
            .compressors
            .move_in_found(env, self, FoundMove::First)?;
        Ok(())
    }

    fn seek_to_last(&mut self, env: &mut E, files: &mut ReadFiles<'b, K>) -> Result<()> {
        files.compressors.move_in_found(env, self, FoundMove::Last)?;
        Ok(())
    }

    fn reset(&mut self) {
        self.leave();
    }

    fn current(&self) -> Option<(&[u8], &[u8])> {
        self.pair()
    }

    fn valid(&self) -> bool {
        self.is_at_pair()
    }

    ghost laws = { found_laws };
}
