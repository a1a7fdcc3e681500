//! Blocks of tables kept in memory.
// LevelDB: table/table.cc, Table::BlockReader
ghost use Rattle.std.specs.Prelude.{◌≡◌, ◌<◌};
ghost use Rattle.leveldb_table.specs.BlockCache.{cache_key};

use crate::block::Block;
use crate::cache::{Cache, CacheID, CacheKey};
use leveldb_base::blockhandle::BlockHandle;
use leveldb_base::cmp::Cmp;

/// A block, and where its file has it.
#[derive(Drop)]
pub struct CachedBlock<C: Cmp> {
    pub handle: BlockHandle,
    pub block: Block<C>,
}

/// Blocks of tables, each under its table's number and its offset.
pub type BlockCache<C> = Cache<CachedBlock<C>>;

/// The key of the block at this offset of the table of this number.
pub fn cache_key(id: CacheID, offset: usize) -> CacheKey
    ensures { result ≡ cache_key id offset }
{
    let [a, b, c, d, e, f, g, h] = id.to_le_bytes();
    let [i, j, k, l, m, n, o, p] = (offset as u64).to_le_bytes();
    [a, b, c, d, e, f, g, h, i, j, k, l, m, n, o, p]
}
