//! Block builders: pairs in order, put into the bytes of a block.
// LevelDB: table/block_builder.cc
ghost use Rattle.std.specs.Prelude.{◌≡◌, ◌↔◌, ◌⊎◌, ℕ, ◌+◌, ◌*◌, ◌^◌, ◌<◌, ◌≤◌, Bool, true, false, List, [], ◌∷◌, ◌++◌, length, take, drop, flat_map, max, None, vec_len, vec_capacity, IfOk, IfErr, OnOk, OnErr, IsErrAnd, IsTrue};
ghost use Rattle.leveldb_base.specs.Error.{IsOutOfMemory};
ghost use Rattle.leveldb_base.specs.Varint.{little, varint};
ghost use Rattle.leveldb_base.specs.declared.error.StatusCode.TheVariants.{NotSupported};
ghost use Rattle.leveldb_table.specs.Block.{IsBlock, HasEntries, KeysRise, pairs_of, parts_bytes};
ghost use Rattle.leveldb_table.specs.BlockBuilder.{AddsEntry, AreSpaced, last_added, shared_len, block_made, IsMade, IsEntryTooLarge, HasEntriesBuilt, estimate, points_more};
ghost use Rattle.leveldb_table.specs.BlockBuilderLaws.{HasEntriesBuilt-prop};

use crate::block::BlockContents;
use byteorder::{ByteOrder, LittleEndian};
use bytes::Bytes;
use leveldb_base::cmp::Cmp;
use leveldb_base::error::{Result, StatusCode, err};
use leveldb_base::varint::encode_varint64;
use leveldb_env::options::Options;
use std::alloc::Global;
use std::marker::Model;

/// Pairs in strictly rising order, put into the bytes of a block.
#[derive(Drop)]
pub struct BlockBuilder<C: Cmp> {
    cmp: C,
    interval: usize,
    buffer: Vec<u8>,

    // the restart points after the first
    points: Vec<u32>,
    last_key: Vec<u8>,
    count: usize,

    // whether the first restart point is set
    begun: bool,
    ghost built: { HasEntriesBuilt (C.cmp cmp) interval buffer.items points.items
        last_key.items count begun } by { HasEntriesBuilt-prop
            (C.cmp cmp) interval buffer.items points.items last_key.items count begun },
}

impl<C: Cmp> Model for BlockBuilder<C> {
    ghost use Rattle.std.specs.Prelude.{vec_capacity};
    ghost use Rattle.leveldb_table.specs.BlockBuilder.{BlockBuilt};

    ghost Value = { BlockBuilt C };

    ghost view = { λ it. record {
      cmp = it.cmp;
      interval = it.interval;
      entries = it.built.0;
      begun = it.begun;
      room = vec_capacity it.buffer;
    } };
}

impl<C: Cmp> BlockBuilder<C> {
    /// A builder under the options' comparator and restart interval, with the first restart point
    /// set. An interval of 0 counts as 1.
    pub fn new<FP>(alloc: Global, options: &Options<C, FP>) -> BlockBuilder<C>
    where
        C: Copy,
        ensures none { result.entries ≡ [] }
        ensures begun { result.begun ≡ true }
        ensures order { result.cmp ≡ options.now.cmp }
        ensures interval { result.interval ≡ max 1 options.now.block_restart_interval }
    {
        BlockBuilder::spaced(alloc, options.cmp, options.block_restart_interval.max(1))
    }

    // A builder under this order, with a restart point every `interval` entries.
    pub(crate) fn spaced(alloc: Global, cmp: C, interval: usize) -> BlockBuilder<C>
        requires { 1 ≤ interval }
        ensures none { result.entries ≡ [] }
        ensures begun { result.begun ≡ true }
        ensures order { result.cmp ≡ cmp }
        ensures interval { result.interval ≡ interval }
    {
        BlockBuilder {
            cmp,
            interval,
            buffer: Vec::new(alloc),
            points: Vec::new(alloc),
            last_key: Vec::new(alloc),
            count: 0,
            begun: true,
        }
    }

    // A builder of the same kind, with no pairs, and with room for `room` bytes of entries.
    pub(crate) fn fresh(&self, room: usize) -> Result<BlockBuilder<C>>
    where
        C: Copy,
        ensures none { IfOk result (λ builder. builder.entries ≡ []) }
        ensures begun { IfOk result (λ builder. builder.begun ≡ true) }
        ensures order { IfOk result (λ builder. builder.cmp ≡ self.now.cmp) }
        ensures interval { IfOk result (λ builder. builder.interval ≡ self.now.interval) }
        ensures room { IfOk result (λ builder. room ≤ builder.room) }
        ensures memory { IfErr result IsOutOfMemory }
    {
        let alloc = *self.buffer.allocator();
        Ok(BlockBuilder {
            cmp: self.cmp,
            interval: self.interval,
            buffer: Vec::with_capacity(alloc, room)?,
            points: Vec::new(alloc),
            last_key: Vec::new(alloc),
            count: 0,
            begun: true,
        })
    }

    // The order of the keys.
    pub(crate) fn order(&self) -> &C
        ensures { result.now ≡ self.now.cmp }
    {
        &self.cmp
    }

    // How many entries lie between the starts of two restart points.
    pub(crate) fn interval(&self) -> usize
        ensures same { result ≡ self.now.interval }
        ensures some { 1 ≤ result }
    {
        self.interval
    }

    /// How many pairs were added.
    pub fn entries(&self) -> usize
        ensures { result ≡ length self.now.entries }
    {
        self.count
    }

    /// The key that was added last, empty where there is none. The keys rise up to it.
    pub fn last_key(&self) -> &[u8]
        ensures last { result.now ≡ last_added (pairs_of None self.now.entries) }
        ensures rising { KeysRise (C.cmp self.now.cmp) (pairs_of None self.now.entries) }
    {
        self.last_key.as_slice()
    }

    /// How many bytes the block would have: those of the entries, four for each restart point that
    /// is set, and four.
    pub fn size_estimate(&self) -> usize
        ensures { result ≡ estimate self.now.entries self.now.begun }
    {
        let points = if self.begun { self.points.len() + 1 } else { 0 };
        self.buffer.len() + 4 * points + 4
    }

    /// Takes all pairs out, and the first restart point too, which the next `add` or `finish` sets
    /// again.
    pub fn reset(&mut self)
        ensures none { self.new.entries ≡ [] }
        ensures begun { self.new.begun ≡ false }
        ensures order { self.new.cmp ≡ self.old.cmp }
        ensures interval { self.new.interval ≡ self.old.interval }
    {
        self.buffer.clear();
        self.points.clear();
        self.last_key.clear();
        self.count = 0;
        self.begun = false;
    }

    /// Adds a pair whose key is after all others. `NotSupported` where the entry would begin at an
    /// offset, or have a length, of more than 32 bits.
    pub fn add(&mut self, key: &[u8], value: &[u8]) -> Result<()>
        requires { KeysRise (C.cmp self.old.cmp)
            (pairs_of None self.old.entries ++ (key.now, value.now) ∷ []) }
        ensures ok { OnOk result (AddsEntry self.old.interval self.old.entries self.new.entries
            key.now value.now × (self.new.begun ≡ true)) }
        ensures err { OnErr result ((self.new.entries ≡ self.old.entries)
            × (self.new.begun ≡ self.old.begun)) }
        ensures order { self.new.cmp ≡ self.old.cmp }
        ensures interval { self.new.interval ≡ self.old.interval }
        ensures too_large { IsErrAnd result (λ status. status.code ≡ NotSupported)
            ↔ IsEntryTooLarge self.old.entries key.now value.now }
        ensures cause { IfErr result
            (λ status. (status.code ≡ NotSupported) ⊎ IsOutOfMemory status) }
    {
        if !fits(self.buffer.len(), key, value) {
            let alloc = *self.buffer.allocator();
            return err(
                alloc,
                StatusCode::NotSupported,
                "a block has offsets of 32 bits",
            );
        }
        let restart = self.count % self.interval == 0;
        let shared = shared_with(self.last_key.as_slice(), key, restart);
        self.buffer.reserve(15 + key.len() + value.len())?;
        self.last_key
            .reserve(key.len().saturating_sub(self.last_key.len()))?;
        self.points.reserve(1)?;
        put_point(&mut self.points, restart, self.count, self.buffer.len());
        put_entry(&mut self.buffer, shared, &key[shared..], value);
        self.last_key.clear();
        self.last_key.extend_from_slice(key).unwrap();
        self.count += 1;
        self.begun = true;
        Ok(())
    }

    /// The block of the pairs that were added.
    pub fn finish(self) -> Result<BlockContents>
    where
        C: Drop,
        ensures ok { IfOk result
            (λ contents. IsBlock (C.cmp self.cmp) contents (pairs_of None self.entries)) }
        ensures encoded { IfOk result
            (λ contents. HasEntries (C.cmp self.cmp) contents self.entries) }
        ensures exact { IfOk result
            (λ contents. contents ≡ block_made self.interval (pairs_of None self.entries)) }
        ensures size { IfOk result (λ contents. length contents ≡ estimate self.entries true) }
        ensures spaced { AreSpaced self.interval 0 self.entries }
        ensures memory { IfErr result IsOutOfMemory }
    {
        Ok(Bytes::from_vec(self.into_bytes()?)?)
    }

    // The block of the pairs that were added, in a vector.
    pub(crate) fn into_bytes(self) -> Result<Vec<u8>>
    where
        C: Drop,
        ensures ok { IfOk result (λ block. IsMade (C.cmp self.cmp) self.interval
            (pairs_of None self.entries) block.items) }
        ensures encoded { IfOk result
            (λ block. HasEntries (C.cmp self.cmp) block.items self.entries) }
        ensures size { IfOk result (λ block. length block.items ≡ estimate self.entries true) }
        ensures memory { IfErr result IsOutOfMemory }
    {
        let mut buffer = self.buffer;
        put_points(&mut buffer, &self.points)?;
        Ok(buffer)
    }
}

// Whether offset and lengths have 32 bits.
#[inline]
fn fits(offset: usize, key: &[u8], value: &[u8]) -> bool
    ensures { IsTrue result
        ↔ ((offset < 2 ^ 32) × (length key.now < 2 ^ 32) × (length value.now < 2 ^ 32)) }
{
    let limit = 1 << 32;
    offset < limit && key.len() < limit && value.len() < limit
}

// How many bytes at the front of both keys are the same, or 0 at a restart point.
fn shared_with(last: &[u8], key: &[u8], restart: bool) -> usize
    ensures within_last { result ≤ length last.now }
    ensures within_key { result ≤ length key.now }
    ensures same { take result last.now ≡ take result key.now }
    ensures none { restart ≡ true → result ≡ 0 }
    ensures longest { restart ≡ false → result ≡ shared_len last.now key.now }
{
    if restart {
        return 0;
    }
    let longest = last.len().min(key.len());
    for i in 0..longest {
        if last[i] != key[i] {
            return i;
        }
    }
    longest
}

// Puts a restart point after the others, where the entry at the offset has one and isn't the
// first.
fn put_point(points: &mut Vec<u32>, restart: bool, count: usize, offset: usize)
    requires fits { offset < 2 ^ 32 }
    requires room { vec_len points.old + 1 ≤ vec_capacity points.old }
    ensures first { count ≡ 0 → points.new.items ≡ points.old.items }
    ensures others { 0 < count
        → points.new.items ≡ points.old.items ++ points_more restart offset }
{
    if restart && count > 0 {
        points.push(offset as u32).unwrap();
    }
}

// Writes an entry's three lengths at the front, and returns how many bytes that took.
#[inline]
#[tactic(auto, using(leveldb_base::proofs::VarintLemmas::varint_lengths))]
fn encode_lengths(dst: &mut [u8], shared: usize, rest: usize, value: usize) -> usize
    requires { 30 ≤ length dst.old }
    ensures used { result ≡ length (varint shared ++ (varint rest ++ varint value)) }
    ensures short { result ≤ 30 }
    ensures written { dst.new
        ≡ (varint shared ++ (varint rest ++ varint value)) ++ drop result dst.old }
{
    let first = encode_varint64(dst, shared as u64);
    let second = first + encode_varint64(&mut dst[first..], rest as u64);
    second + encode_varint64(&mut dst[second..], value as u64)
}

// Puts an entry.
fn put_entry(buffer: &mut Vec<u8>, shared: usize, rest: &[u8], value: &[u8])
    requires { vec_len buffer.old + length (parts_bytes shared rest.now value.now)
        ≤ vec_capacity buffer.old }
    ensures { buffer.new.items ≡ buffer.old.items ++ parts_bytes shared rest.now value.now }
{
    let mut head = [0; 30];
    let used = encode_lengths(&mut head, shared, rest.len(), value.len());
    buffer.extend_from_slice(&head[..used]).unwrap();
    buffer.extend_from_slice(rest).unwrap();
    buffer.extend_from_slice(value).unwrap();
}

// Puts a number of four bytes.
#[inline]
fn put_number(buffer: &mut Vec<u8>, n: u32) -> Result<()>
    ensures ok { OnOk result (buffer.new.items ≡ buffer.old.items ++ little 4 n) }
    ensures memory { IfErr result IsOutOfMemory }
{
    let mut bytes = [0; 4];
    LittleEndian::write_u32(&mut bytes, n);
    buffer.extend_from_slice(&bytes)?;
    Ok(())
}

// Puts the restart points, the first before the others, and how many there are.
fn put_points(buffer: &mut Vec<u8>, points: &Vec<u32>) -> Result<()>
    requires { length points.now.items + 1 < 2 ^ 32 }
    ensures ok { OnOk result (buffer.new.items ≡ buffer.old.items
        ++
        (flat_map (little 4) (0 ∷ points.now.items) ++ little 4 (length points.now.items + 1))) }
    ensures memory { IfErr result IsOutOfMemory }
{
    buffer.reserve(4 * points.len() + 8)?;
    put_number(buffer, 0)?;
    for point in points {
        put_number(buffer, *point)?;
    }
    put_number(buffer, points.len() as u32 + 1)
}
