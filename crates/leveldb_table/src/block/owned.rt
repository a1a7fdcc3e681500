//! A walk over a block that it holds.
// LevelDB: table/block.cc, Block::Iter
ghost use Rattle.std.specs.Prelude.{◌≡◌, None, IfOk, IfErr, OnOk, OnErr, is_some};
ghost use Rattle.leveldb_base.specs.Types.{next_position, previous_position, seek_position, pair_at, last_position};
ghost use Rattle.leveldb_base.specs.Error.{IsOutOfMemory};
ghost use Rattle.leveldb_table.specs.BlockWalk.{IsWithin, pair_with, pairs_over, position_over};
ghost use Rattle.leveldb_table.specs.BlockLaws.{IsWithin-prop, position_within-is};

use crate::block::{Block, BlockCore};
use bytes::Bytes;
use leveldb_base::cmp::Cmp;
use leveldb_base::error::Result;
use leveldb_base::types::LdbIterator;
use std::alloc::Global;
use std::marker::Model;

/// A walk over a block's pairs that holds the block, whose bytes it may share with others.
#[derive(Drop)]
pub struct OwnedBlockIter<C: Cmp> {
    block: Block<C>,
    core: BlockCore,
    ghost within: { IsWithin block.contents block.entries core.key
        core.spot } by { IsWithin-prop block.contents block.entries core.key
            core.spot },
}

impl<C: Cmp> Model for OwnedBlockIter<C> {
    ghost use Rattle.leveldb_table.specs.BlockWalk.{BlockPosition, number_of};

    ghost Value = { BlockPosition C };

    ghost view = { λ it. record {
      block = it.block;
      key = it.core.key;
      at = number_of it.block.entries it.core.spot;
    } };
}

impl<C: Cmp> OwnedBlockIter<C> {
    /// A walk over the block's pairs, at no position.
    pub fn new(alloc: Global, block: Block<C>) -> OwnedBlockIter<C>
        ensures block { result.block ≡ block }
        ensures position { position_over result ≡ None }
    {
        OwnedBlockIter::with_room(block, Vec::new(alloc))
    }

    /// A walk over the block's pairs, at no position, with this room for a key.
    pub(crate) fn with_room(block: Block<C>, room: Vec<u8>) -> OwnedBlockIter<C>
        ensures block { result.block ≡ block }
        ensures position { position_over result ≡ None }
    {
        OwnedBlockIter {
            block,
            core: BlockCore::with_room(room),
        }
    }

    /// The value of the pair at which it is, whose bytes are shared with the block.
    pub(crate) fn shared_value(&self) -> Result<Option<Bytes>>
        ensures ok { IfOk result (λ value. pair_with self.now.key value
            ≡ pair_at (pairs_over self.now) (position_over self.now)) }
        ensures cause { IfErr result IsOutOfMemory }
    {
        self.core.shared_value(&self.block)
    }

    /// The room for a key. Where it is at a pair, that pair's key is there.
    pub(crate) fn into_key(self) -> Vec<u8>
    where
        C: Drop,
        ensures { result.items ≡ self.key }
    {
        self.core.into_key()
    }

    /// The pair at which it is: the key's bytes become the result's, and the value's are shared
    /// with the block.
    pub fn into_pair(self) -> Result<Option<(Bytes, Bytes)>>
    where
        C: Drop,
        ensures ok { IfOk result (λ pair. pair ≡ pair_at (pairs_over self) (position_over self)) }
        ensures cause { IfErr result IsOutOfMemory }
    {
        self.core.into_pair(&self.block)
    }
}

impl<C: Cmp> LdbIterator for OwnedBlockIter<C> {
    ghost pairs = { pairs_over };

    ghost position = { position_over };

    ghost order = { λ it. C.cmp it.block.cmp };

    ghost fails = { λ _ _. IsOutOfMemory };

    fn advance(&mut self) -> Result<bool>
        ensures block { self.new.block ≡ self.old.block }
        ensures ok { OnOk result (position_over self.new
            ≡ next_position (pairs_over self.old) (position_over self.old)) }
        ensures there { IfOk result (λ there. there ≡ is_some (position_over self.new)) }
        ensures err { OnErr result (position_over self.new ≡ None) }
        ensures cause { IfErr result IsOutOfMemory }
    {
        self.core.advance(&self.block)
    }

    fn prev(&mut self) -> Result<bool>
        ensures block { self.new.block ≡ self.old.block }
        ensures ok { OnOk result (position_over self.new
            ≡ previous_position (position_over self.old)) }
        ensures there { IfOk result (λ there. there ≡ is_some (position_over self.new)) }
        ensures err { OnErr result (position_over self.new ≡ None) }
        ensures cause { IfErr result IsOutOfMemory }
    {
        self.core.prev(&self.block)
    }

    fn seek(&mut self, key: &[u8]) -> Result<()>
        ensures block { self.new.block ≡ self.old.block }
        ensures ok { OnOk result (position_over self.new
            ≡ seek_position (C.cmp self.old.block.cmp) (pairs_over self.old) key.now) }
        ensures err { OnErr result (position_over self.new ≡ None) }
        ensures cause { IfErr result IsOutOfMemory }
    {
        self.core.seek(&self.block, key)
    }

    fn seek_to_last(&mut self) -> Result<()>
        ensures block { self.new.block ≡ self.old.block }
        ensures ok { OnOk result (position_over self.new
            ≡ last_position (pairs_over self.old)) }
        ensures err { OnErr result (position_over self.new ≡ None) }
        ensures cause { IfErr result IsOutOfMemory }
    {
        self.core.seek_to_last(&self.block)
    }

    fn current(&self) -> Option<(&[u8], &[u8])> {
        self.core.current(&self.block)
    }

    fn reset(&mut self)
        ensures block { self.new.block ≡ self.old.block }
        ensures no_position { position_over self.new ≡ None }
    {
        self.core.reset();
    }

    fn valid(&self) -> bool {
        self.core.valid()
    }

    ghost in_range = { λ it. position_within-is (pairs_over it) it.at };
}
