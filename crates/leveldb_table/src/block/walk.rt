//! A walk over a block, which keeps no borrow of it.
// LevelDB: table/block.cc, Block::Iter
ghost use Rattle.std.specs.Prelude.{◌≡◌, ℕ, ◌<◌, ◌≤◌, length, Some, None, MatchOption, IfOk, OnOk, OnErr, IfErr, is_some};
ghost use Rattle.leveldb_base.specs.Types.{next_position, previous_position, seek_position, position_within, pair_at, pair_of, last_position};
ghost use Rattle.leveldb_base.specs.Error.{IsOutOfMemory};
ghost use Rattle.leveldb_table.specs.Block.{pairs_of};
ghost use Rattle.leveldb_table.specs.BlockWalk.{start_of, IsRestartPoint, CanLoad, IsWithin, position_of, pair_with, IsEntryBetween, IsEntryEndingAt};

use crate::block::Block;
use crate::block::entry::take_entry;
use bytes::Bytes;
use leveldb_base::cmp::Cmp;
use leveldb_base::error::Result;
use std::alloc::Global;
use std::marker::Model;

/// Where an entry lies among a block's bytes: its first, the first of its value, and the first
/// after it.
#[derive(Clone, Copy, Debug)]
pub struct Spot {
    start: usize,
    value: usize,
    next: usize,
}

// Where the entry after the spot begins, the first entry being after none.
#[inline]
fn next_start(spot: Option<Spot>) -> usize
    ensures { MatchOption spot (result ≡ 0) (λ there. result ≡ there.next) }
{
    match spot {
        None => 0,
        Some(spot) => spot.next,
    }
}

// Where the entry at the spot begins, or 0.
#[inline]
fn here_start(spot: Option<Spot>) -> usize
    ensures { MatchOption spot (result ≡ 0) (λ there. result ≡ there.start) }
{
    match spot {
        None => 0,
        Some(spot) => spot.start,
    }
}

/// A position in a block, or none. It keeps no borrow: each call is given the block, always the
/// same one.
#[derive(Debug, Drop)]
pub struct BlockCore {
    // the key of the entry there
    key: Vec<u8>,
    spot: Option<Spot>,
}

impl Model for BlockCore {
    ghost use Rattle.leveldb_table.specs.BlockWalk.{BlockPlace};

    ghost Value = { BlockPlace };

    ghost view = { λ it. record { key = it.key.items; spot = it.spot } };
}

impl BlockCore {
    /// At no position.
    pub fn new(alloc: Global) -> BlockCore
        ensures { result.spot ≡ None }
    {
        BlockCore::with_room(Vec::new(alloc))
    }

    /// At no position, with this room for a key.
    pub(crate) fn with_room(room: Vec<u8>) -> BlockCore
        ensures { result.spot ≡ None }
    {
        BlockCore {
            key: room,
            spot: None,
        }
    }

    /// The room for a key. Where it is at a pair, that pair's key is there.
    pub(crate) fn into_key(self) -> Vec<u8>
        ensures { result.items ≡ self.key }
    {
        self.key
    }

    // Moves to the entry that begins at `start`, and returns where it ends.
    #[inline(always)]
    fn load<C: Cmp>(&mut self, block: &Block<C>, start: usize) -> Result<usize>
        requires { CanLoad block.now.entries self.old.key start }
        ensures ok { IfOk result (λ next. IsEntryBetween block.now.contents block.now.entries
            self.new.key self.new.spot start next) }
        ensures err { OnErr result (self.new.spot ≡ None) }
        ensures cause { IfErr result IsOutOfMemory }
    {
        let (entry, left) = take_entry(&block.contents.as_slice()[start..block.limit]).unwrap();
        self.spot = None;
        self.key.truncate(entry.shared);
        self.key.extend_from_slice(entry.rest)?;
        let next = block.limit - left.len();
        self.spot = Some(Spot {
            start,
            value: next - entry.value.len(),
            next,
        });
        Ok(next)
    }

    // Goes from the entry at a restart point to the one that ends at `stop`.
    fn walk<C: Cmp>(&mut self, block: &Block<C>, point: usize, stop: usize) -> Result<()>
        requires point { IsRestartPoint block.now.entries point }
        requires before { point < stop }
        requires stop { (i : ℕ) × (i ≤ length block.now.entries)
            × (stop ≡ start_of block.now.entries i) }
        ensures ok { OnOk result (IsEntryEndingAt block.now.contents block.now.entries
            self.new.key self.new.spot stop) }
        ensures err { OnErr result (self.new.spot ≡ None) }
        ensures cause { IfErr result IsOutOfMemory }
    {
        // what holds of every block is known where one of its fields is used
        let _ = &block.limit;
        let mut next = self.load(block, point)?;
        while next < stop {
            next = self.load(block, next)?;
        }
        Ok(())
    }

    /// Moves to the next pair, from no position to the first, and from the last to no position.
    /// Returns whether it is at a pair.
    pub fn advance<C: Cmp>(&mut self, block: &Block<C>) -> Result<bool>
        requires { IsWithin block.now.contents block.now.entries self.old.key
            self.old.spot }
        ensures within { IsWithin block.now.contents block.now.entries self.new.key
            self.new.spot }
        ensures ok { OnOk result (position_of block.now.entries self.new.spot
            ≡ next_position (pairs_of None block.now.entries)
            (position_of block.now.entries self.old.spot)) }
        ensures there { IfOk result
            (λ there. there ≡ is_some (position_of block.now.entries self.new.spot)) }
        ensures err { OnErr result (position_of block.now.entries self.new.spot ≡ None) }
        ensures cause { IfErr result IsOutOfMemory }
    {
        let next = next_start(self.spot);
        if next == block.limit {
            self.spot = None;
            return Ok(false);
        }
        self.load(block, next)?;
        Ok(true)
    }

    /// Moves to the pair before, and from the first or from no position to no position.
    /// Returns whether it is at a pair.
    pub fn prev<C: Cmp>(&mut self, block: &Block<C>) -> Result<bool>
        requires { IsWithin block.now.contents block.now.entries self.old.key
            self.old.spot }
        ensures within { IsWithin block.now.contents block.now.entries self.new.key
            self.new.spot }
        ensures ok { OnOk result (position_of block.now.entries self.new.spot
            ≡ previous_position (position_of block.now.entries self.old.spot)) }
        ensures there { IfOk result
            (λ there. there ≡ is_some (position_of block.now.entries self.new.spot)) }
        ensures err { OnErr result (position_of block.now.entries self.new.spot ≡ None) }
        ensures cause { IfErr result IsOutOfMemory }
    {
        // what holds of every block is known where one of its fields is used
        let _ = &block.limit;
        let start = here_start(self.spot);
        if start == 0 {
            self.spot = None;
            return Ok(false);
        }
        self.walk(block, block.point_before(start), start)?;
        Ok(true)
    }

    /// Moves to the first pair whose key is at or after `key`, or to no position where all keys
    /// are before it.
    pub fn seek<C: Cmp>(&mut self, block: &Block<C>, key: &[u8]) -> Result<()>
        requires { IsWithin block.now.contents block.now.entries self.old.key
            self.old.spot }
        ensures within { IsWithin block.now.contents block.now.entries self.new.key
            self.new.spot }
        ensures ok { OnOk result (position_of block.now.entries self.new.spot
            ≡ seek_position (C.cmp block.now.cmp) (pairs_of None block.now.entries) key.now) }
        ensures err { OnErr result (position_of block.now.entries self.new.spot ≡ None) }
        ensures cause { IfErr result IsOutOfMemory }
    {
        let mut next = block.point_before_key(key);
        while next < block.limit {
            next = self.load(block, next)?;
            if !block.cmp.cmp(self.key.as_slice(), key).is_lt() {
                return Ok(());
            }
        }
        self.spot = None;
        Ok(())
    }

    /// Moves to the last pair, or to no position in an empty block.
    pub fn seek_to_last<C: Cmp>(&mut self, block: &Block<C>) -> Result<()>
        requires { IsWithin block.now.contents block.now.entries self.old.key
            self.old.spot }
        ensures within { IsWithin block.now.contents block.now.entries self.new.key
            self.new.spot }
        ensures ok { OnOk result (position_of block.now.entries self.new.spot
            ≡ last_position (pairs_of None block.now.entries)) }
        ensures err { OnErr result (position_of block.now.entries self.new.spot ≡ None) }
        ensures cause { IfErr result IsOutOfMemory }
    {
        if block.limit == 0 {
            self.spot = None;
            return Ok(());
        }
        self.walk(block, block.last_point(), block.limit)
    }

    /// Moves to no position.
    pub fn reset(&mut self)
        ensures { self.new.spot ≡ None }
    {
        self.spot = None;
    }

    /// Whether it is at a pair.
    pub fn valid(&self) -> bool
        ensures { result ≡ is_some self.now.spot }
    {
        self.spot.is_some()
    }

    /// The key and the value of the pair at which it is.
    pub fn current<'a, C: Cmp>(&'a self, block: &'a Block<C>) -> Option<(&'a [u8], &'a [u8])>
        requires { IsWithin block.now.contents block.now.entries self.now.key
            self.now.spot }
        ensures { pair_of result ≡ pair_at (pairs_of None block.entry.now.entries)
            (position_of block.entry.now.entries self.entry.now.spot) }
    {
        let spot = self.spot?;
        Some((
            self.key.as_slice(),
            &block.contents.as_slice()[spot.value..spot.next],
        ))
    }

    /// The value of the pair at which it is, whose bytes are shared with the block.
    pub(crate) fn shared_value<C: Cmp>(&self, block: &Block<C>) -> Result<Option<Bytes>>
        requires { IsWithin block.now.contents block.now.entries self.now.key
            self.now.spot }
        ensures ok { IfOk result (λ value. pair_with self.now.key value
            ≡ pair_at (pairs_of None block.now.entries)
            (position_of block.now.entries self.now.spot)) }
        ensures cause { IfErr result IsOutOfMemory }
    {
        let Some(spot) = self.spot else {
            return Ok(None);
        };
        Ok(Some(block.contents.slice(spot.value..spot.next)?))
    }

    /// The pair at which it is: the key's bytes become the result's, and the value's are shared
    /// with the block.
    pub fn into_pair<C: Cmp>(self, block: &Block<C>) -> Result<Option<(Bytes, Bytes)>>
        requires { IsWithin block.now.contents block.now.entries self.key self.spot }
        ensures ok { IfOk result (λ pair. pair ≡ pair_at (pairs_of None block.now.entries)
            (position_of block.now.entries self.spot)) }
        ensures cause { IfErr result IsOutOfMemory }
    {
        let Some(value) = self.shared_value(block)? else {
            return Ok(None);
        };
        Ok(Some((Bytes::from_vec(self.key)?, value)))
    }
}
