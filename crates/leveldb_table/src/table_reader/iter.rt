//! A walk over a table, beside the reader that it moves by.
// LevelDB: table/two_level_iterator.cc
ghost use Rattle.std.specs.Prelude.{◌≡◌, ℕ, List, Option, None, IfOk, IfErr, is_some};
ghost use Rattle.std.specs.declared.cmp.Ordering.{Ordering};
ghost use Rattle.leveldb_base.specs.Types.{pair_of, pair_at};
ghost use Rattle.leveldb_base.specs.Error.{IsOutOfMemory};
ghost use Rattle.leveldb_table.specs.Table.{Part};

use crate::block_cache::BlockCache;
use crate::table_reader::{Table, TableCore, TableReader};
use leveldb_base::cmp::Cmp;
use leveldb_base::error::Result;
use leveldb_env::compressor::{CompressorList, Compressors};
use leveldb_env::env::Env;
use leveldb_env::filter::FilterPolicy;
use std::alloc::Global;

/// A walk over a table's pairs. A move that fails leaves no position, and the walk goes on from
/// there.
#[derive(Drop)]
pub struct TableIterator<'a, E: Env, C: Cmp + Drop, FP: FilterPolicy> {
    pub core: TableCore<C>,
    pub reader: TableReader<'a, E, C, FP>,
}

impl<'a, E: Env, C: Cmp + Copy + Drop, FP: FilterPolicy> TableReader<'a, E, C, FP> {
    ghost use Rattle.leveldb_table.specs.TableReaderBlocks.{StartsOver};

    /// A walk over the table's pairs, at no position.
    pub fn iter(self, alloc: Global) -> Result<TableIterator<'a, E, C, FP>>
        ensures ok { IfOk result (λ it. StartsOver self.entry.table.now it.core) }
        ensures reader { IfOk result (λ it. it.reader ≡ self.entry) }
        ensures memory { IfErr result IsOutOfMemory }
    {
        Ok(TableIterator {
            core: TableCore::new(alloc, self.table)?,
            reader: self,
        })
    }
}

impl<E: Env, C: Cmp + Copy + Drop, FP: FilterPolicy> Table<E, C, FP> {
    ghost use Rattle.leveldb_table.specs.TableReaderBlocks.{IsSameBorrow, StartsOver};

    /// A walk over the table's pairs, at no position, by a reader of this table.
    pub fn iter<'a>(
        &'a self,
        alloc: Global,
        env: &'a mut E,
        cache: &'a mut BlockCache<C>,
        compressors: &'a CompressorList,
    ) -> Result<TableIterator<'a, E, C, FP>>
        ensures ok { IfOk result (λ it. StartsOver self.entry.now it.core) }
        ensures table { IfOk result (λ it. it.reader.table.now ≡ self.entry.now) }
        ensures compressors { IfOk result
            (λ it. it.reader.compressors.now ≡ compressors.entry.now) }
        ensures env { IfOk result (λ it. IsSameBorrow env.entry it.reader.env) }
        ensures cache { IfOk result (λ it. IsSameBorrow cache.entry it.reader.cache) }
        ensures memory { IfErr result IsOutOfMemory }
    {
        let reader = TableReader {
            table: self,
            env,
            cache,
            compressors,
        };
        reader.iter(alloc)
    }
}

impl<E: Env, C: Cmp + Copy + Drop, FP: FilterPolicy> TableIterator<'_, E, C, FP> {
    ghost use Rattle.leveldb_table.specs.TableReader.{pairs_in};
    ghost use Rattle.leveldb_table.specs.TableReaderWalk.{IsAtPosition, current_of, inner_position};
    ghost use Rattle.leveldb_table.specs.TableReads.{Advances, IsSameReader, SeeksFirst, SeeksKey, SeeksLast, StepsBack};

    /// Moves to the next pair, from no position to the first, and from the last to no position.
    /// Returns whether it is at a pair.
    pub fn advance(&mut self) -> Result<bool>
        ensures moves { Advances C.Cmp E.Env ⟦<CompressorList as Compressors>⟧.codings
            self.old.reader self.old.core result self.new.reader self.new.core }
        ensures same { IsSameReader self.old.reader self.new.reader }
        ensures there { IfOk result
            (λ there. there ≡ is_some (inner_position self.new.core.inner)) }
    {
        self.core.advance(&mut self.reader)
    }

    /// Moves to the pair before, and from the first or from no position to no position.
    /// Returns whether it is at a pair.
    pub fn prev(&mut self) -> Result<bool>
        ensures moves { StepsBack C.Cmp E.Env ⟦<CompressorList as Compressors>⟧.codings
            self.old.reader self.old.core result self.new.reader self.new.core }
        ensures same { IsSameReader self.old.reader self.new.reader }
        ensures there { IfOk result
            (λ there. there ≡ is_some (inner_position self.new.core.inner)) }
    {
        self.core.prev(&mut self.reader)
    }

    /// Moves to the first pair whose key is at or after `key`, or to no position where all keys
    /// are before it.
    pub fn seek(&mut self, key: &[u8]) -> Result<()>
        ensures moves { SeeksKey C.Cmp E.Env ⟦<CompressorList as Compressors>⟧.codings key.now
            self.old.reader self.old.core result self.new.reader self.new.core }
        ensures same { IsSameReader self.old.reader self.new.reader }
    {
        self.core.seek(&mut self.reader, key)
    }

    /// Moves to the first pair, or to no position in an empty table.
    pub fn seek_to_first(&mut self) -> Result<()>
        ensures moves { SeeksFirst C.Cmp E.Env ⟦<CompressorList as Compressors>⟧.codings
            self.old.reader self.old.core result self.new.reader self.new.core }
        ensures same { IsSameReader self.old.reader self.new.reader }
    {
        self.core.seek_to_first(&mut self.reader)
    }

    /// Moves to the last pair, or to no position in an empty table.
    pub fn seek_to_last(&mut self) -> Result<()>
        ensures moves { SeeksLast C.Cmp E.Env ⟦<CompressorList as Compressors>⟧.codings
            self.old.reader self.old.core result self.new.reader self.new.core }
        ensures same { IsSameReader self.old.reader self.new.reader }
    {
        self.core.seek_to_last(&mut self.reader)
    }

    /// The key and the value of the pair at which it is, borrowed until the walk moves.
    pub fn current(&self) -> Option<(&[u8], &[u8])>
        ensures pair { pair_of result ≡ current_of self.now.core }
        ensures position { (cmp : List ℕ → List ℕ → Ordering) (parts : List Part)
            (position : Option ℕ) → IsAtPosition C.Cmp cmp parts self.now.core position
            → pair_of result ≡ pair_at (pairs_in parts) position }
    {
        self.core.current()
    }

    /// Moves to no position.
    pub fn reset(&mut self)
        ensures position { self.new.core.inner ≡ None }
        ensures index { self.new.core.index ≡ self.old.core.index }
        ensures reader { self.new.reader ≡ self.old.reader }
    {
        self.core.reset();
    }

    /// Whether it is at a pair.
    pub fn valid(&self) -> bool
        ensures { result ≡ is_some (inner_position self.now.core.inner) }
    {
        self.core.valid()
    }
}
