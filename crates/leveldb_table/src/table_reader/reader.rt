//! Reads of an open table: its blocks, and look-ups of keys.
// LevelDB: table/table.cc, Table::BlockReader, Table::InternalGet
ghost use Rattle.std.specs.Prelude.{IfErr, IfOk, IfSome, ◌≡◌};
ghost use Rattle.leveldb_base.specs.Error.{IsOutOfMemory};
ghost use Rattle.leveldb_table.specs.BlockCache.{IsCachedAt, cache_key};
ghost use Rattle.leveldb_table.specs.Cache.{looked_for, leaving_room};

use super::{KeyBuffers, Table, TableCore};
use crate::block::Block;
use crate::block_cache::{BlockCache, CachedBlock, cache_key};
use crate::table_block::{read_block_into, read_table_block};
use bytes::{Bytes, BytesMut};
use leveldb_base::blockhandle::BlockHandle;
use leveldb_base::cmp::Cmp;
use leveldb_base::error::Result;
use leveldb_env::compressor::{CompressorList, Compressors};
use leveldb_env::env::Env;
use leveldb_env::filter::FilterPolicy;
use std::alloc::Global;

/// An open table, and what it is read with. Each call leaves it with the same borrows.
#[derive(Drop)]
pub struct TableReader<'a, E: Env, C: Cmp + Drop, FP: FilterPolicy> {
    /// The table.
    pub table: &'a Table<E, C, FP>,
    /// The `Env` that has its file.
    pub env: &'a mut E,
    /// The cache of blocks.
    pub cache: &'a mut BlockCache<C>,
    /// The compressors.
    pub compressors: &'a CompressorList,
}

impl<E: Env, C: Cmp + Copy + Drop, FP: FilterPolicy> TableReader<'_, E, C, FP> {
    ghost use Rattle.leveldb_table.specs.TableReads.{IsSameReader, LooksUpBy, ReadsBlock};
    ghost use Rattle.leveldb_table.specs.TableReaderMoves.{found_with};

    /// The first pair at or after the key, or none where the filters rule out the key at the block
    /// that the index names for it, or no such pair is there. The key is copied, and the value's
    /// bytes are shared with their block.
    pub fn get(&mut self, alloc: Global, key: &[u8]) -> Result<Option<(Bytes, Bytes)>>
        ensures looks_up { LooksUpBy C.Cmp E.Env ⟦<CompressorList as Compressors>⟧.codings
            FP.matches key.now self.old result self.new }
        ensures same { IsSameReader self.old self.new }
    {
        let mut key_buffers = KeyBuffers::new(alloc);
        let Some(value) = self.find(alloc, key, &mut key_buffers)? else {
            return Ok(None);
        };
        Ok(Some((Bytes::from_vec(key_buffers.into_key())?, value)))
    }

    /// `get`, but it returns the value alone, and the buffers have the pair's key. Where they have
    /// room for the keys and the cache has the block, it takes no memory. Where it finds nothing,
    /// their key is of no use; an error may leave them without room.
    pub fn find(
        &mut self,
        alloc: Global,
        key: &[u8],
        key_buffers: &mut KeyBuffers,
    ) -> Result<Option<Bytes>>
        ensures looks_up { LooksUpBy C.Cmp E.Env ⟦<CompressorList as Compressors>⟧.codings
            FP.matches key.now self.old (found_with key_buffers.new result) self.new }
        ensures same { IsSameReader self.old self.new }
    {
        let mut core = TableCore::with_key_buffers(alloc, self.table, key_buffers)?;
        core.seek_filtered(self, key)?;
        core.into_value(key_buffers)
    }

    /// The block at a handle, from the cache or from the file; that is put into the cache then, if
    /// `fills` says so. Where the cache is full, the block that was used least recently is dropped
    /// before the read, and this one is read into its buffer, if that fits. So one place is empty
    /// after an error, and where the cache had a block of another size at this offset.
    pub(crate) fn read_block(
        &mut self,
        alloc: Global,
        handle: BlockHandle,
        fills: bool,
    ) -> Result<Block<C>>
        ensures { ReadsBlock C.Cmp E.Env ⟦<CompressorList as Compressors>⟧.codings handle self.old
            result self.new }
    {
        let table = self.table;
        if let Some(found) = table.cached_block(self.cache, handle)? {
            return Ok(found);
        }
        let (cmp, file) = (table.cmp, &table.file);
        if !fills {
            return read_table_block(alloc, cmp, self.env, file, self.compressors, handle);
        }
        let buffer = buffer_for_next(alloc, self.cache);
        let block = read_block_into(alloc, cmp, self.env, file, self.compressors, handle, buffer)?;
        let copy = block.clone()?;
        self.cache.insert(
            &cache_key(table.id, handle.offset()),
            CachedBlock {
                handle,
                block: copy,
            },
        )?;
        Ok(block)
    }
}

// Makes room in the cache for a block, and returns the buffer of the one that was dropped for it,
// if nothing else shares its bytes; else one without room.
fn buffer_for_next<C: Cmp + Drop>(alloc: Global, cache: &mut BlockCache<C>) -> BytesMut
    ensures { cache.new ≡ record cache.old
        { pairs = leaving_room cache.old.capacity cache.old.pairs } }
{
    match cache.make_room() {
        Some(held) => held.block.into_buffer().unwrap_or(BytesMut::new(alloc)),
        None => BytesMut::new(alloc),
    }
}

impl<E: Env, C: Cmp + Copy + Drop, FP: FilterPolicy> Table<E, C, FP> {
    ghost use Rattle.leveldb_table.specs.TableReaderMoves.{LooksUp};

    /// The first pair at or after the key, by a reader of this table.
    pub fn get(
        &self,
        alloc: Global,
        env: &mut E,
        cache: &mut BlockCache<C>,
        compressors: &CompressorList,
        key: &[u8],
    ) -> Result<Option<(Bytes, Bytes)>>
        ensures { let codings = ⟦<CompressorList as Compressors>⟧.codings compressors.now in
            LooksUp C.Cmp E.Env codings FP.matches self.now key.now env.old cache.old result env.new
            cache.new }
    {
        let mut reader = TableReader {
            table: self,
            env: &mut *env,
            cache: &mut *cache,
            compressors,
        };
        reader.get(alloc, key)
    }

    // The block that the cache has at a handle, where it has one of the handle's size. It counts
    // as used.
    fn cached_block(
        &self,
        cache: &mut BlockCache<C>,
        handle: BlockHandle,
    ) -> Result<Option<Block<C>>>
        ensures ok { IfOk result
            (λ found. IfSome found (IsCachedAt self.now.id handle cache.old)) }
        ensures cache { cache.new ≡ record cache.old {
          pairs =
              looked_for (cache_key self.now.id handle.offset) cache.old.pairs;
        } }
        ensures memory { IfErr result IsOutOfMemory }
    {
        let Some(held) = cache.get(&cache_key(self.id, handle.offset())) else {
            return Ok(None);
        };
        if held.handle.size() != handle.size() {
            return Ok(None);
        }
        Ok(Some(held.block.clone()?))
    }
}
