//! A walk over a table that keeps no borrow of it.
// LevelDB: table/two_level_iterator.cc; table/table.cc, Table::InternalGet
ghost use Rattle.std.specs.Prelude.{◌≡◌, List, ℕ, None, Some, IfOk, IfErr, IfSome, IsErrAnd, Option, is_some, true};
ghost use Rattle.std.specs.declared.cmp.Ordering.{Ordering};
ghost use Rattle.leveldb_base.specs.BlockHandle.{HandleFits};
ghost use Rattle.leveldb_base.specs.Types.{next_position, previous_position, seek_position, pair_of, pair_at, last_position};
ghost use Rattle.leveldb_base.specs.Error.{IsOutOfMemory};
ghost use Rattle.leveldb_base.specs.declared.error.StatusCode.TheVariants.{Corruption};
ghost use Rattle.leveldb_table.specs.Table.{Part};
ghost use Rattle.leveldb_table.specs.BlockWalk.{pair_with, pairs_over, position_over};
ghost use Rattle.leveldb_table.specs.TableBlock.{IsNamedBy};

use crate::block::OwnedBlockIter;
use crate::block_cache::BlockCache;
use crate::damage::corruption;
use crate::table_reader::{KeyBuffers, NO_HANDLE, Table, TableReader};
use bytes::Bytes;
use leveldb_base::blockhandle::BlockHandle;
use leveldb_base::cmp::Cmp;
use leveldb_base::error::Result;
use leveldb_base::types::LdbIterator;
use leveldb_env::compressor::{CompressorList, Compressors};
use leveldb_env::env::Env;
use leveldb_env::filter::FilterPolicy;
use std::alloc::Global;
use std::marker::Model;
use std::mem;

// So many blocks a walk goes to, one after the other, before those that it reads take no other's
// place in the cache.
const SHORT_WALK: usize = 8;

/// A position in a table, or none. Each move is given a reader of the table, always the same one.
#[derive(Drop)]
pub struct TableCore<C: Cmp> {
    alloc: Global,

    // at the line of the block where it is
    index: OwnedBlockIter<C>,
    inner: Option<OwnedBlockIter<C>>,

    // the room for a key of the next block
    room: Vec<u8>,

    // whether blocks that it reads go into the cache
    fills: bool,

    // how many blocks it went to since it sought a key
    passed: usize,
}

impl<C: Cmp> Model for TableCore<C> {
    ghost use Rattle.leveldb_table.specs.TableReaderWalk.{TablePlace};

    ghost Value = { TablePlace C };

    ghost view = { λ it. record { index = it.index; inner = it.inner } };
}

/// A move that may leave the block where a walk over a table is.
#[derive(Clone, Copy)]
pub enum TableStep<'k> {
    /// To the first pair.
    First,
    /// To the last pair.
    Last,
    /// To the first pair of the next block.
    NextBlock,
    /// To the last pair of the block before.
    BlockBefore,
    /// To the first pair at or after a key.
    Seek(&'k [u8]),
}

// Leaves the block, and keeps its room for a key.
fn leave<C: Cmp + Drop>(inner: &mut Option<OwnedBlockIter<C>>, room: &mut Vec<u8>)
    ensures { inner.new ≡ None }
{
    if let Some(walk) = inner.take() {
        *room = walk.into_key();
    }
}

impl<C: Cmp + Copy + Drop> TableCore<C> {
    ghost use Rattle.leveldb_table.specs.TableReader.{pairs_in};
    ghost use Rattle.leveldb_table.specs.TableReaderBlocks.{StartsOver, line_of};
    ghost use Rattle.leveldb_table.specs.TableReaderSteps.{step_to};
    ghost use Rattle.leveldb_table.specs.TableReaderWalk.{IsAtPosition, StepsInside, inner_position, inner_pairs, current_of};
    ghost use Rattle.leveldb_table.specs.TableReads.{IsSameReader, LoadsHandle, LoadsLine, StepsOver, Advances, StepsBack, SeeksKey, SeeksFirst, SeeksLast, EntersNextBlock, EntersBlockBefore, EntersLastBlock, EntersForKey, EntersIfLet};

    /// At no position.
    pub fn new<E: Env, FP: FilterPolicy>(
        alloc: Global,
        table: &Table<E, C, FP>,
    ) -> Result<TableCore<C>>
        ensures ok { IfOk result (StartsOver table.now) }
        ensures memory { IfErr result IsOutOfMemory }
    {
        TableCore::with_key_buffers(alloc, table, &mut KeyBuffers::new(alloc))
    }

    /// At no position, with the finder's room for keys. Where it fails, the finder is as it was.
    pub(crate) fn with_key_buffers<E: Env, FP: FilterPolicy>(
        alloc: Global,
        table: &Table<E, C, FP>,
        key_buffers: &mut KeyBuffers,
    ) -> Result<TableCore<C>>
        ensures ok { IfOk result (StartsOver table.now) }
        ensures memory { IfErr result IsOutOfMemory }
    {
        let index = table.index.clone()?;
        let (line_room, room) = key_buffers.take_room(alloc);
        Ok(TableCore {
            alloc,
            index: OwnedBlockIter::with_room(index, line_room),
            inner: None,
            room,
            fills: true,
            passed: 0,
        })
    }

    /// The same walk, which puts blocks that it reads into the cache only if `fills` says so. In
    /// one over whole tables they would take the place of those that others look for.
    pub fn filling(self, fills: bool) -> TableCore<C>
        ensures { result ≡ self }
    {
        TableCore { fills, ..self }
    }

    /// Moves to the next pair, from no position to the first, and from the last to no position.
    /// Returns whether it is at a pair.
    pub fn advance<E: Env, FP: FilterPolicy>(
        &mut self,
        reader: &mut TableReader<'_, E, C, FP>,
    ) -> Result<bool>
        ensures moves { Advances C.Cmp E.Env ⟦<CompressorList as Compressors>⟧.codings reader.old
            self.old result reader.new self.new }
        ensures same { IsSameReader reader.old reader.new }
        ensures there { IfOk result (λ there. there ≡ is_some (inner_position self.new.inner)) }
    {
        if !self.valid() {
            self.index.reset();
        } else if self.step_forward()? {
            return Ok(true);
        }
        self.to_next_block(reader)
    }

    /// Moves to the pair before, and from the first or from no position to no position.
    /// Returns whether it is at a pair.
    pub fn prev<E: Env, FP: FilterPolicy>(
        &mut self,
        reader: &mut TableReader<'_, E, C, FP>,
    ) -> Result<bool>
        ensures moves { StepsBack C.Cmp E.Env ⟦<CompressorList as Compressors>⟧.codings reader.old
            self.old result reader.new self.new }
        ensures same { IsSameReader reader.old reader.new }
        ensures there { IfOk result (λ there. there ≡ is_some (inner_position self.new.inner)) }
    {
        if !self.valid() {
            return Ok(false);
        }
        if self.step_back()? {
            return Ok(true);
        }
        self.to_block_before(reader)
    }

    /// Moves to the first pair whose key is at or after `key`, or to no position where all keys
    /// are before it.
    pub fn seek<E: Env, FP: FilterPolicy>(
        &mut self,
        reader: &mut TableReader<'_, E, C, FP>,
        key: &[u8],
    ) -> Result<()>
        ensures moves { SeeksKey C.Cmp E.Env ⟦<CompressorList as Compressors>⟧.codings key.now
            reader.old self.old result reader.new self.new }
        ensures same { IsSameReader reader.old reader.new }
    {
        leave(&mut self.inner, &mut self.room);
        self.index.seek(key)?;
        let Some((_, value)) = self.index.current() else {
            return Ok(());
        };
        let handle = reader.table.line_handle(self.alloc, value)?;
        self.enter(reader, handle, key)
    }

    /// Moves to the first pair, or to no position in an empty table.
    pub fn seek_to_first<E: Env, FP: FilterPolicy>(
        &mut self,
        reader: &mut TableReader<'_, E, C, FP>,
    ) -> Result<()>
        ensures moves { SeeksFirst C.Cmp E.Env ⟦<CompressorList as Compressors>⟧.codings reader.old
            self.old result reader.new self.new }
        ensures same { IsSameReader reader.old reader.new }
    {
        self.reset();
        self.advance(reader)?;
        Ok(())
    }

    /// Moves to the last pair, or to no position in an empty table.
    pub fn seek_to_last<E: Env, FP: FilterPolicy>(
        &mut self,
        reader: &mut TableReader<'_, E, C, FP>,
    ) -> Result<()>
        ensures moves { SeeksLast C.Cmp E.Env ⟦<CompressorList as Compressors>⟧.codings reader.old
            self.old result reader.new self.new }
        ensures same { IsSameReader reader.old reader.new }
    {
        self.to_last_block(reader)?;
        Ok(())
    }

    /// The key and the value of the pair at which it is.
    pub fn current(&self) -> Option<(&[u8], &[u8])>
        ensures pair { pair_of result ≡ current_of self.now }
        ensures position { (cmp : List ℕ → List ℕ → Ordering) (parts : List Part)
            (position : Option ℕ) → IsAtPosition C.Cmp cmp parts self.now position
            → pair_of result ≡ pair_at (pairs_in parts) position }
    {
        self.inner.as_ref()?.current()
    }

    /// Moves to no position.
    pub fn reset(&mut self)
        ensures position { self.new.inner ≡ None }
        ensures index { self.new.index ≡ self.old.index }
    {
        leave(&mut self.inner, &mut self.room);
    }

    /// Whether it is at a pair.
    pub fn valid(&self) -> bool
        ensures { result ≡ is_some (inner_position self.now.inner) }
    {
        match &self.inner {
            Some(inner) => inner.valid(),
            None => false,
        }
    }

    /// Makes one of these moves, by the lines of the index. Returns whether it is at a pair then.
    pub fn step<E: Env, FP: FilterPolicy>(
        &mut self,
        reader: &mut TableReader<'_, E, C, FP>,
        to: TableStep,
    ) -> Result<bool>
        ensures steps { StepsOver C.Cmp E.Env ⟦<CompressorList as Compressors>⟧.codings
            (step_to C.Cmp to.entry) reader.old self.old result reader.new self.new }
        ensures same { IsSameReader reader.old reader.new }
    {
        match to {
            TableStep::First => {
                self.seek_to_first(reader)?;
                Ok(self.valid())
            }
            TableStep::Last => {
                self.seek_to_last(reader)?;
                Ok(self.valid())
            }
            TableStep::NextBlock => self.to_next_block(reader),
            TableStep::BlockBefore => self.to_block_before(reader),
            TableStep::Seek(key) => {
                self.seek(reader, key)?;
                Ok(self.valid())
            }
        }
    }

    /// Moves to the first pair at or after the key, but to no position where the filters rule out
    /// the key at the block that the index names for it. Returns whether it is at a pair.
    pub(crate) fn seek_filtered<E: Env, FP: FilterPolicy>(
        &mut self,
        reader: &mut TableReader<'_, E, C, FP>,
        key: &[u8],
    ) -> Result<bool>
        ensures enters { EntersIfLet C.Cmp E.Env ⟦<CompressorList as Compressors>⟧.codings
            FP.matches key.now reader.old self.old result reader.new self.new }
        ensures same { IsSameReader reader.old reader.new }
        ensures there { IfOk result (λ there. there ≡ is_some (inner_position self.new.inner)) }
    {
        leave(&mut self.inner, &mut self.room);
        self.index.seek(key)?;
        let Some((_, value)) = self.index.current() else {
            return Ok(false);
        };
        let handle = reader.table.line_handle(self.alloc, value)?;
        if !reader.table.may_contain(handle.offset(), key) {
            return Ok(false);
        }
        self.enter(reader, handle, key)?;
        Ok(self.valid())
    }

    /// The value of the pair at which it is, whose bytes are shared with the block. The finder
    /// gets the pair's key, and the room for keys.
    pub(crate) fn into_value(self, key_buffers: &mut KeyBuffers) -> Result<Option<Bytes>>
        ensures ok { IfOk result (λ value. pair_with key_buffers.new value ≡ current_of self) }
        ensures cause { IfErr result IsOutOfMemory }
    {
        let TableCore {
            alloc: _,
            index,
            inner,
            room,
            fills: _,
            passed: _,
        } = self;
        let Some(inner) = inner else {
            key_buffers.keep(index.into_key(), room);
            return Ok(None);
        };
        let value = inner.shared_value();
        key_buffers.keep(index.into_key(), inner.into_key());
        value
    }

    // Reads the block at the handle that the index's line names, and moves to its first pair at or
    // after the key, or where it has none to the first pair of the next block.
    fn enter<E: Env, FP: FilterPolicy>(
        &mut self,
        reader: &mut TableReader<'_, E, C, FP>,
        handle: BlockHandle,
        key: &[u8],
    ) -> Result<()>
        requires none { self.old.inner ≡ None }
        requires line { position_over self.old.index
            ≡ seek_position (C.cmp self.old.index.block.cmp) (pairs_over self.old.index) key.now }
        requires names { IsNamedBy (line_of self.old) handle }
        requires fits { HandleFits handle }
        ensures enters { EntersForKey C.Cmp E.Env ⟦<CompressorList as Compressors>⟧.codings key.now
            reader.old self.old result reader.new self.new }
        ensures same { IsSameReader reader.old reader.new }
    {
        self.load(reader, handle, 0)?;
        if self.seek_inside(key)? {
            return Ok(());
        }
        self.to_next_block(reader)?;
        Ok(())
    }

    // Moves to the first pair of the next block, or after the last block to no position.
    fn to_next_block<E: Env, FP: FilterPolicy>(
        &mut self,
        reader: &mut TableReader<'_, E, C, FP>,
    ) -> Result<bool>
        ensures enters { EntersNextBlock C.Cmp E.Env ⟦<CompressorList as Compressors>⟧.codings
            reader.old self.old result reader.new self.new }
        ensures same { IsSameReader reader.old reader.new }
        ensures there { IfOk result (λ there. there ≡ is_some (inner_position self.new.inner)) }
    {
        leave(&mut self.inner, &mut self.room);
        if !self.index.advance()? {
            return Ok(false);
        }
        self.load_line(reader)?;
        if !self.step_forward()? {
            return self.empty_block_error(reader.table);
        }
        Ok(true)
    }

    // Moves to the last pair of the block before, or before the first block to no position.
    fn to_block_before<E: Env, FP: FilterPolicy>(
        &mut self,
        reader: &mut TableReader<'_, E, C, FP>,
    ) -> Result<bool>
        ensures enters { EntersBlockBefore C.Cmp E.Env ⟦<CompressorList as Compressors>⟧.codings
            reader.old self.old result reader.new self.new }
        ensures same { IsSameReader reader.old reader.new }
        ensures there { IfOk result (λ there. there ≡ is_some (inner_position self.new.inner)) }
    {
        leave(&mut self.inner, &mut self.room);
        if !self.index.prev()? {
            return Ok(false);
        }
        self.load_line(reader)?;
        if !self.to_last()? {
            return self.empty_block_error(reader.table);
        }
        Ok(true)
    }

    // Moves to the last pair of the last block, or without blocks to no position.
    fn to_last_block<E: Env, FP: FilterPolicy>(
        &mut self,
        reader: &mut TableReader<'_, E, C, FP>,
    ) -> Result<bool>
        ensures enters { EntersLastBlock C.Cmp E.Env ⟦<CompressorList as Compressors>⟧.codings
            reader.old self.old result reader.new self.new }
        ensures same { IsSameReader reader.old reader.new }
    {
        leave(&mut self.inner, &mut self.room);
        self.index.seek_to_last()?;
        if !self.index.valid() {
            return Ok(false);
        }
        self.load_line(reader)?;
        if self.to_last()? {
            return Ok(true);
        }
        self.empty_block_error(reader.table)
    }

    // Reads the block that the index's line names, and is at no position of it.
    fn load_line<E: Env, FP: FilterPolicy>(
        &mut self,
        reader: &mut TableReader<'_, E, C, FP>,
    ) -> Result<()>
        requires { is_some (line_of self.old) ≡ true }
        ensures { LoadsLine C.Cmp E.Env ⟦<CompressorList as Compressors>⟧.codings reader.old
            self.old result reader.new self.new }
    {
        let Some((_, value)) = self.index.current() else {
            return Ok(());
        };
        let handle = reader.table.line_handle(self.alloc, value)?;
        let passed = self.passed.saturating_add(1);
        self.load(reader, handle, passed)
    }

    // Whether a block that it reads after so many others goes into the cache: a long walk would put
    // all its blocks in the place of those that others look for, and find none of them again.
    fn fills_after(&self, passed: usize, cache: &BlockCache<C>) -> bool {
        self.fills && (passed < SHORT_WALK || cache.count() < cache.cap())
    }

    // Reads the block at a handle, so many after the one at which it sought a key, and is at no
    // position of it.
    fn load<E: Env, FP: FilterPolicy>(
        &mut self,
        reader: &mut TableReader<'_, E, C, FP>,
        handle: BlockHandle,
        passed: usize,
    ) -> Result<()>
        ensures { LoadsHandle C.Cmp E.Env ⟦<CompressorList as Compressors>⟧.codings handle
            reader.old self.old result reader.new self.new }
    {
        let fills = self.fills_after(passed, reader.cache);
        let block = reader.read_block(self.alloc, handle, fills)?;
        self.passed = passed;
        let room = mem::replace(&mut self.room, Vec::new(self.alloc));
        self.inner = Some(OwnedBlockIter::with_room(block, room));
        Ok(())
    }

    /// Moves to the next pair of the block where it is, and after its last to no position, from
    /// where `TableStep::NextBlock` leads on. Returns whether it is at a pair.
    pub fn step_forward(&mut self) -> Result<bool>
        ensures { StepsInside (inner_position self.new.inner
            ≡ next_position (inner_pairs self.old.inner) (inner_position self.old.inner))
            self.old result self.new }
    {
        match &mut self.inner {
            Some(inner) => inner.advance(),
            None => Ok(false),
        }
    }

    /// Moves to the pair before in the block where it is, and from its first to no position, from
    /// where `TableStep::BlockBefore` leads on. Returns whether it is at a pair.
    pub fn step_back(&mut self) -> Result<bool>
        ensures { StepsInside
            (inner_position self.new.inner ≡ previous_position (inner_position self.old.inner))
            self.old result self.new }
    {
        match &mut self.inner {
            Some(inner) => inner.prev(),
            None => Ok(false),
        }
    }

    // Moves to the last pair of the block, or to no position in an empty one.
    fn to_last(&mut self) -> Result<bool>
        ensures { StepsInside
            (inner_position self.new.inner ≡ last_position (inner_pairs self.old.inner)) self.old
            result self.new }
    {
        if let Some(inner) = &mut self.inner {
            inner.seek_to_last()?;
        }
        Ok(self.valid())
    }

    // Moves to the first pair of the block at or after the key, or to no position where all keys
    // are before it.
    fn seek_inside(&mut self, key: &[u8]) -> Result<bool>
        ensures { StepsInside (IfSome self.old.inner (λ walk. inner_position self.new.inner
            ≡ seek_position (C.cmp walk.block.cmp) (pairs_over walk) key.now)) self.old result
            self.new }
    {
        if let Some(inner) = &mut self.inner {
            inner.seek(key)?;
        }
        Ok(self.valid())
    }

    // An empty data block isn't allowed.
    fn empty_block_error<E: Env, FP: FilterPolicy>(&self, table: &Table<E, C, FP>) -> Result<bool>
        ensures { IsErrAnd result (λ status. status.code ≡ Corruption) }
    {
        let handle = match self.index.current() {
            Some((_, value)) => BlockHandle::decode(value),
            None => None,
        };
        match handle {
            Some((handle, _)) => corruption(self.alloc, "block", handle.offset(), "no entries"),
            None => corruption(self.alloc, "index", table.footer.index.offset(), NO_HANDLE),
        }
    }
}
