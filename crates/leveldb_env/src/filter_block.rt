//! Filter blocks: the filters of a table, one for each 2048 bytes of it.
//!
//! A filter is made of the keys of the blocks that begin in its 2048 bytes, so the block at an
//! offset has the filter at `offset / 2048`. The filters are stored one after another; then come
//! their offsets and the offset of these, four bytes each, and the byte 11.
// LevelDB: table/filter_block.cc
ghost use Rattle.std.specs.Prelude.{◌≡◌, ◌↔◌, ◌⊎◌, ◌+◌, ◌-◌, ◌*◌, ◌/◌, ◌^◌, ◌<◌, ◌≤◌, [], ◌∷◌, ◌++◌, length, flat_map, get_or, replicate, All, IfOk, IfErr, OnOk, OnErr, IsErrAnd, IsTrue, IsOk};
ghost use Rattle.std.specs.List.{concat};
ghost use Rattle.leveldb_base.specs.Error.{IsOutOfMemory};
ghost use Rattle.leveldb_base.specs.Varint.{little};
ghost use Rattle.leveldb_base.specs.declared.error.StatusCode.TheVariants.{Corruption, NotSupported};
ghost use Rattle.leveldb_env.specs.FilterBlock.{IsFilterBlock, IsNoFilterBlock, passes, filter_of, with_key, started, finished, KeepsPolicy, IsFilterTooLarge, IsFilterNotMade, places_from, BeginsAt, RiseFrom, HasFiltersEndingAt, FindsFiltersEnd, numbers_in};
ghost use Rattle.leveldb_env.specs.FilterBlockLaws.{HasFiltersEndingAt-prop};

use crate::filter::FilterPolicy;
use byteorder::{ByteOrder, LittleEndian};
use bytes::Bytes;
use leveldb_base::error::{Result, StatusCode, err};
use std::alloc::Global;
use std::marker::Model;
use texts::Texts;

mod texts;

// A filter is for 2^11 bytes of a table.
const FILTER_BASE_LOG2: u8 = 11;

const FILTER_BASE: usize = 1 << 11;

// Filters have fewer bytes together.
const FILTERS_LIMIT: usize = 1 << 32;

/// Filters in order, and the keys of the one that is still open.
#[derive(Drop)]
pub struct FilterBlockBuilder<FP: FilterPolicy> {
    policy: FP,
    // the filters that are made
    filters: Texts,
    // the keys of the next one
    keys: Texts,
}

impl<FP: FilterPolicy> Model for FilterBlockBuilder<FP> {
    ghost use Rattle.leveldb_env.specs.FilterBlock.{FiltersBuilt, filters_built_code};

    ghost Value = { FiltersBuilt FP };

    ghost coded = { filters_built_code FP.code };

    ghost use Rattle.std.specs.Prelude.{◌^◌, ◌<◌, length};
    ghost use Rattle.std.specs.List.{concat};

    ghost view = { λ it. record { policy = it.policy; filters = it.filters; keys = it.keys } };

    ghost invariant = { λ it. (length (concat it.filters) < 2 ^ 32)
        × (length it.filters < 2 ^ 53) };
}

impl<FP: FilterPolicy> FilterBlockBuilder<FP> {
    /// A builder without filters and keys.
    pub fn new(alloc: Global, policy: FP) -> FilterBlockBuilder<FP>
        ensures policy { result.policy ≡ policy }
        ensures filters { result.filters ≡ [] }
        ensures keys { result.keys ≡ [] }
    {
        FilterBlockBuilder {
            policy,
            filters: Texts::new(alloc),
            keys: Texts::new(alloc),
        }
    }

    /// How many bytes the block would have without a filter of the open keys: those of the filters,
    /// four for each offset, and five.
    pub fn size_estimate(&self) -> usize
        ensures { result ≡ length (concat self.now.filters) + 4 * length self.now.filters + 5 }
    {
        self.filters.bytes().len() + 4 * self.filters.len() + 5
    }

    /// The policy's name, under which a table keeps its filters.
    pub fn filter_name(&self) -> &'static str
        ensures { result.now ≡ FP.name self.now.policy }
    {
        self.policy.name()
    }

    /// Adds a key for the open filter.
    pub fn add_key(&mut self, key: &[u8]) -> Result<()>
        ensures ok { OnOk result (self.new ≡ with_key key.now self.old) }
        ensures err { OnErr result (self.new ≡ self.old) }
        ensures memory { IfErr result IsOutOfMemory }
    {
        self.keys.push(key, 1)
    }

    /// Begins a block at `offset`: makes the filters that are missing before its own, the first of
    /// them of the keys that were added, the others empty. `NotSupported` where the policy finds
    /// the keys' filter too large, or the filters would have 2^32 bytes or more.
    pub fn start_block(&mut self, offset: usize) -> Result<()>
        requires { 2048 * length self.old.filters ≤ offset }
        ensures ok { OnOk result
            (self.new ≡ started (FP.filter_for self.old.policy) offset self.old) }
        ensures open { OnOk result (length self.new.filters ≡ offset / 2048) }
        ensures none { offset / 2048 ≡ length self.old.filters → IsOk result }
        ensures not_too_large { OnOk result (length self.old.filters < offset / 2048
            → IsFilterTooLarge (FP.too_large self.old.policy)
            (FP.filter_for self.old.policy) self.old.filters self.old.keys → ⊥) }
        ensures stays { KeepsPolicy self.old result self.new }
        ensures cause { IfErr result
            (IsFilterNotMade (FP.too_large self.old.policy)
            (FP.filter_for self.old.policy) self.old.filters self.old.keys) }
    {
        let missing = offset / FILTER_BASE - self.filters.len();
        if missing == 0 {
            return Ok(());
        }
        make_filters(&self.policy, &self.keys, &mut self.filters, missing)?;
        self.keys.clear();
        Ok(())
    }

    /// The block of the filters; keys that are left make one more. `NotSupported` where the policy
    /// finds their filter too large, or the filters would have 2^32 bytes or more.
    pub fn finish(mut self) -> Result<Vec<u8>>
    where
        FP: Drop,
        ensures ok { IfOk result
            (λ block. IsFilterBlock block.items
            (finished (FP.filter_for self.policy) self.filters self.keys)) }
        ensures not_too_large { OnOk result
            (IsFilterTooLarge (FP.too_large self.policy)
            (FP.filter_for self.policy) self.filters self.keys → ⊥) }
        ensures cause { IfErr result
            (IsFilterNotMade (FP.too_large self.policy)
            (FP.filter_for self.policy) self.filters self.keys) }
    {
        if self.keys.len() > 0 {
            make_filters(&self.policy, &self.keys, &mut self.filters, 1)?;
        }
        write_block(self.filters)
    }
}

// Appends `count` filters: one of the keys, and then empty ones.
fn make_filters<FP: FilterPolicy>(
    policy: &FP,
    keys: &Texts,
    filters: &mut Texts,
    count: usize,
) -> Result<()>
    requires some { 1 ≤ count }
    requires fits { length (concat filters.old) < 2 ^ 32 }
    ensures ok { OnOk result
        (filters.new ≡ filters.old ++ filter_of (FP.filter_for policy.now) keys.now ∷ replicate
        (count - 1) []) }
    ensures not_too_large { OnOk result
        (IsFilterTooLarge (FP.too_large policy.now) (FP.filter_for policy.now) filters.old keys.now
        → ⊥) }
    ensures fits { length (concat filters.new) < 2 ^ 32 }
    ensures err { OnErr result (filters.new ≡ filters.old) }
    ensures cause { IfErr result
        (IsFilterNotMade (FP.too_large policy.now)
        (FP.filter_for policy.now) filters.old keys.now) }
{
    if keys.len() == 0 {
        return filters.push(&[], count);
    }
    let alloc = keys.allocator();
    let filter = policy.create_filter(alloc, keys.bytes(), keys.offsets())?;
    if filters.bytes().len() + filter.len() >= FILTERS_LIMIT {
        return err(
            alloc,
            StatusCode::NotSupported,
            "a filter block has offsets of 32 bits",
        );
    }
    filters.push(&filter, count)
}

// The block of these filters.
fn write_block(filters: Texts) -> Result<Vec<u8>>
    requires fits { length (concat filters) < 2 ^ 32 }
    requires few { length filters < 2 ^ 61 }
    ensures ok { IfOk result (λ block. IsFilterBlock block.items filters) }
    ensures cause { IfErr result IsOutOfMemory }
{
    let (mut block, offsets) = filters.into_parts();
    let end = block.len() as u32;
    block.reserve(4 * offsets.len() + 5)?;
    put_offsets(&mut block, &offsets)?;
    put_number(&mut block, end)?;
    block.push(FILTER_BASE_LOG2)?;
    Ok(block)
}

// Puts offsets of four bytes each.
fn put_offsets(block: &mut Vec<u8>, offsets: &[usize]) -> Result<()>
    requires { All (λ offset. offset < 2 ^ 32) offsets.now }
    ensures ok { OnOk result
        (block.new.items ≡ block.old.items ++ flat_map (little 4) offsets.now) }
    ensures cause { IfErr result IsOutOfMemory }
{
    for offset in offsets {
        put_number(block, *offset as u32)?;
    }
    Ok(())
}

// Puts a number of four bytes.
#[inline]
fn put_number(block: &mut Vec<u8>, n: u32) -> Result<()>
    ensures ok { OnOk result (block.new.items ≡ block.old.items ++ little 4 n) }
    ensures cause { IfErr result IsOutOfMemory }
{
    let mut bytes = [0; 4];
    LittleEndian::write_u32(&mut bytes, n);
    block.extend_from_slice(&bytes)?;
    Ok(())
}

/// The filters of a block, held as its bytes, and the policy that they are put to.
#[derive(Drop)]
pub struct FilterBlockReader<FP: FilterPolicy> {
    policy: FP,
    // the bytes of the block
    contents: Bytes,

    // where the filters end and their offsets begin
    limit: usize,
    ghost held: { HasFiltersEndingAt contents limit } by { HasFiltersEndingAt-prop contents limit },
}

impl<FP: FilterPolicy> Model for FilterBlockReader<FP> {
    ghost use Rattle.leveldb_env.specs.FilterBlock.{FiltersRead, filters_read_code};

    ghost Value = { FiltersRead FP };

    ghost coded = { filters_read_code FP.code };

    ghost view = { λ it. record { policy = it.policy; filters = it.held.0 } };
}

impl<FP: FilterPolicy + Drop> FilterBlockReader<FP> {
    /// The filter block that these bytes are.
    /// `Corruption` where they are none.
    pub fn new(alloc: Global, policy: FP, contents: Bytes) -> Result<FilterBlockReader<FP>>
        ensures ok { IfOk result (λ reader. IsFilterBlock contents reader.filters) }
        ensures policy { IfOk result (λ reader. reader.policy ≡ policy) }
        ensures damage { IsErrAnd result (λ status. status.code ≡ Corruption)
            → IsNoFilterBlock contents }
        ensures cause { IfErr result (λ status. (status.code ≡ Corruption) ⊎ IsOutOfMemory status) }
    {
        match filters_end(contents.as_slice()) {
            Some(limit) => Ok(FilterBlockReader {
                policy,
                contents,
                limit,
            }),
            None => err(alloc, StatusCode::Corruption, "not a filter block"),
        }
    }

    /// The filter block that these bytes are.
    /// `Corruption` where they are none.
    pub fn new_owned(alloc: Global, policy: FP, bytes: Vec<u8>) -> Result<FilterBlockReader<FP>>
        ensures ok { IfOk result (λ reader. IsFilterBlock bytes.items reader.filters) }
        ensures policy { IfOk result (λ reader. reader.policy ≡ policy) }
        ensures damage { IsErrAnd result (λ status. status.code ≡ Corruption)
            → IsNoFilterBlock bytes.items }
        ensures cause { IfErr result (λ status. (status.code ≡ Corruption) ⊎ IsOutOfMemory status) }
    {
        FilterBlockReader::new(alloc, policy, Bytes::from_vec(bytes)?)
    }
}

impl<FP: FilterPolicy> FilterBlockReader<FP> {
    /// How many filters there are.
    pub fn num(&self) -> usize
        ensures { result ≡ length self.now.filters }
    {
        (self.contents.len() - self.limit - 5) / 4
    }

    /// Whether the key may be in the block at this offset of the table. True where there is no
    /// filter for the block. It takes no memory.
    pub fn key_may_match(&self, block_offset: usize, key: &[u8]) -> bool
        ensures { result ≡ passes
            (FP.matches self.now.policy) self.now.filters block_offset key.now }
    {
        let index = block_offset / FILTER_BASE;
        if index >= self.num() {
            return true;
        }
        let begin = self.place(index);
        let end = self.place(index + 1);
        self.policy
            .key_may_match(key, &self.contents.as_slice()[begin..end])
    }

    // Where a filter begins, or after the last one where that ends.
    fn place(&self, index: usize) -> usize
        requires { index ≤ length self.now.filters }
        ensures { result ≡ get_or (places_from 0 self.now.filters) index 0 }
    {
        LittleEndian::read_u32(&self.contents.as_slice()[self.limit + 4 * index..]) as usize
    }
}

// Where the filters of a block end and their offsets begin; `None` where the bytes are no filter
// block.
fn filters_end(bytes: &[u8]) -> Option<usize>
    ensures { FindsFiltersEnd bytes.now result }
{
    let tail = bytes.len().checked_sub(5)?;
    let limit = LittleEndian::read_u32(&bytes[tail..]) as usize;
    if bytes[tail + 4] != FILTER_BASE_LOG2 {
        return None;
    }
    if limit > tail || (tail - limit) % 4 != 0 {
        return None;
    }
    if !rise_from_zero(&bytes[limit..tail + 4]) {
        return None;
    }
    Some(limit)
}

// Whether numbers of four bytes each begin with 0, and none is below the one before it.
fn rise_from_zero(bytes: &[u8]) -> bool
    requires { 4 ≤ length bytes.now }
    ensures { IsTrue result
        ↔ (BeginsAt 0 (numbers_in bytes.now) × RiseFrom 0 (numbers_in bytes.now)) }
{
    if LittleEndian::read_u32(bytes) != 0 {
        return false;
    }
    let mut last = 0;
    let mut left = bytes;
    while left.len() >= 4 {
        let place = LittleEndian::read_u32(left);
        if place < last {
            return false;
        }
        last = place;
        left = &left[4..];
    }
    true
}
