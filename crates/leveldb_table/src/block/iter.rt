//! A walk over a block, beside a borrow of it.
// LevelDB: table/block.cc, Block::Iter
ghost use Rattle.std.specs.Prelude.{◌≡◌, None};
ghost use Rattle.leveldb_base.specs.Error.{IsOutOfMemory};
ghost use Rattle.leveldb_table.specs.Block.{HasEntries};
ghost use Rattle.leveldb_table.specs.BlockWalk.{IsWithin, pairs_over, position_over};
ghost use Rattle.leveldb_table.specs.BlockLaws.{IsWithin-prop, position_within-is};

use crate::block::{Block, BlockCore};
use leveldb_base::cmp::Cmp;
use leveldb_base::error::Result;
use leveldb_base::types::LdbIterator;
use std::alloc::Global;
use std::marker::Model;

/// A walk over a block's pairs, borrowed from it.
#[derive(Drop)]
pub struct BlockIter<'a, C: Cmp> {
    block: &'a Block<C>,
    core: BlockCore,
    ghost within: { IsWithin block.now.contents block.now.entries core.key
        core.spot } by { IsWithin-prop block.now.contents block.now.entries core.key
            core.spot },
}

impl<'a, C: Cmp> Model for BlockIter<'a, C> {
    ghost use Rattle.leveldb_table.specs.BlockWalk.{BlockPosition, number_of};

    ghost Value = { BlockPosition C };

    ghost view = { λ it. record {
      block = it.block.now;
      key = it.core.key;
      at = number_of it.block.now.entries it.core.spot;
    } };
}

impl<'a, C: Cmp> BlockIter<'a, C> {
    /// A walk over the block's pairs, at no position.
    pub fn new(alloc: Global, block: &'a Block<C>) -> BlockIter<'a, C>
        ensures block { result.block ≡ block.entry.now }
        ensures position { position_over result ≡ None }
        ensures encoded { HasEntries (C.cmp result.block.cmp) result.block.contents
            result.block.entries }
    {
        // what holds of every block is known where one of its fields is used
        let _ = &block.contents;
        BlockIter {
            block,
            core: BlockCore::new(alloc),
        }
    }
}

impl<'a, C: Cmp> LdbIterator for BlockIter<'a, C> {
    ghost pairs = { pairs_over };

    ghost position = { position_over };

    ghost order = { λ it. C.cmp it.block.cmp };

    ghost fails = { λ _ _. IsOutOfMemory };

    fn advance(&mut self) -> Result<bool> {
        self.core.advance(self.block)
    }

    fn prev(&mut self) -> Result<bool> {
        self.core.prev(self.block)
    }

    fn seek(&mut self, key: &[u8]) -> Result<()> {
        self.core.seek(self.block, key)
    }

    fn seek_to_last(&mut self) -> Result<()> {
        self.core.seek_to_last(self.block)
    }

    fn current(&self) -> Option<(&[u8], &[u8])> {
        self.core.current(self.block)
    }

    fn reset(&mut self) {
        self.core.reset();
    }

    fn valid(&self) -> bool {
        self.core.valid()
    }

    ghost in_range = { λ it. position_within-is (pairs_over it) it.at };
}
