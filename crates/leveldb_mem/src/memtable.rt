//! The newest entries of a store, in memory.
// LevelDB: db/memtable.cc
ghost use Rattle.std.specs.Prelude.{◌≡◌, ◌+◌, ◌<◌, ◌≤◌, ◌^◌, ℕ, List, [], ◌∷◌, ◌++◌, length, map};
ghost use Rattle.std.specs.Prelude.{IsTrue, ◌↔◌, Some, None, slice_get, option_copied};
ghost use Rattle.std.specs.Option.{ForSome};
ghost use Rattle.leveldb_base.specs.History.{placed, greatest, AreRising, AreUpTo};
ghost use Rattle.leveldb_base.specs.Varint.{varint, sized};
ghost use Rattle.leveldb_base.specs.KeyTypes.{front_key, greatest_sequence, internal_cmp, user_part};
ghost use Rattle.leveldb_base.specs.KeyTypes.{sequence_part};
ghost use Rattle.leveldb_base.specs.Types.{position_within, previous_position, last_position};
ghost use Rattle.leveldb_base.specs.Types.{seek_position};
ghost use Rattle.leveldb_base.specs.Entries.{FindsNewest, type_of, bytes_of_value, lookup_copied, lookup_of, value_of};
ghost use Rattle.leveldb_base.specs.Entries.{internal_pair};
ghost use Rattle.leveldb_mem.specs.WriteBatch.{item_of};
ghost use Rattle.leveldb_mem.specs.Placed.{rank};
ghost use Rattle.leveldb_mem.specs.SkipMap.{HasNode, position_of_node};
ghost use Rattle.leveldb_mem.specs.MemTable.{IsNewTo, AreNewTo, HasRoom, KeepsRoom, AddsEntry};
ghost use Rattle.leveldb_mem.specs.MemTable.{AddsAll, entry_of, value_length, entry_key};
ghost use Rattle.leveldb_mem.specs.MemTable.{entry_from, inner_value, memory_of_entries, Grows};
ghost use Rattle.leveldb_mem.specs.MemTable.{IsFoundAt, PrepareResult, ReserveResult};
ghost use Rattle.leveldb_mem.specs.MemTable.{AddResult, PutResult};

use crate::memtable::as_of::AsOf;
use crate::memtable::iterator::AtInternalKey;
use crate::skipmap::SkipMap;
use crate::write_batch::WriteBatch;
use leveldb_base::cmp::{Cmp, MemtableKeyCmp, UserCmp};
use leveldb_base::error::{Result, StatusCode, err};
use leveldb_base::key_types::{
    LookupKey, TAG_LEN, UserKey, ValueType, parse_internal_key, split_sequence, tag_bytes,
};
use leveldb_base::types::{LdbIterator, Lookup, SequenceNumber};
use leveldb_base::varint::{encode_varint64, get_length_prefixed_slice};
use std::alloc::Global;
use std::marker::Model;

pub(crate) mod as_of;
mod iterator;

pub use iterator::MemtableIterator;

// The most bytes that a memtable key has beside key and value: two lengths of 10 and a tag of 8.
const MOST_BESIDE: usize = 28;

/// Entries, each with a key and a sequence number that no other has, and room for those of a batch.
#[derive(Drop)]
pub struct MemTable<C: Cmp> {
    // the memtable key of each entry, with no value
    map: SkipMap<MemtableKeyCmp<C>>,
}

impl<C: Cmp> Model for MemTable<C> {
    ghost use Rattle.leveldb_mem.specs.MemTable.{MemTableState, memtable_code};

    ghost Value = { MemTableState C };

    ghost coded = { memtable_code C.code };

    ghost use Rattle.std.specs.Prelude.{◌-◌, ◌*◌, ◌≤◌, All};
    ghost use Rattle.leveldb_mem.specs.MemTable.{entries_of_keys, IsEntryPair, most_beside};

    ghost view = { λ it. record {
      cmp = it.map.cmp.0;
      kept = record {
        entries = entries_of_keys it.map.pairs;
        places = it.map.places;
        bytes = it.map.bytes - most_beside * it.map.places;
      };
      nodes = it.map.nodes;
    } };

    ghost invariant = { λ it. All IsEntryPair it.map.pairs
        × (most_beside * it.map.places ≤ it.map.bytes) };
}

impl<C: UserCmp> MemTable<C> {
    /// A memtable without entries, whose keys are in the order of `cmp`.
    pub fn new(alloc: Global, cmp: C) -> MemTable<C>
        ensures cmp { result.cmp ≡ cmp }
        ensures entries { result.kept.entries ≡ [] }
        ensures places { result.kept.places ≡ 0 }
    {
        MemTable {
            map: SkipMap::new_memtable_map(alloc, cmp),
        }
    }

    /// Returns the number of entries.
    pub fn len(&self) -> usize
        ensures { result ≡ length self.now.kept.entries }
    {
        self.map.len()
    }

    /// Returns what counts as its memory: 128, and for each entry 64 and the length of its memtable
    /// key.
    pub fn approx_mem_usage(&self) -> usize
        ensures { result ≡ memory_of_entries self.now.kept.entries }
    {
        self.map.approx_memory()
    }

    /// Takes all memory that the changes of a batch need. Returns `NotSupported` if the entries
    /// would be too many for the table.
    pub fn prepare(&mut self, batch: &WriteBatch) -> Result<()>
        ensures cmp { self.new.cmp ≡ self.old.cmp }
        ensures kept { PrepareResult self.old.kept batch.now.items result self.new.kept }
    {
        self.reserve(batch.count(), batch.contents().len())
    }

    /// Inserts an entry for which there is room: a value for the key, or none, which deletes it.
    pub fn add_prepared(&mut self, sequence: SequenceNumber, key: UserKey<'_>, value: Option<&[u8]>)
        requires numbered { sequence < 2 ^ 56 }
        requires room { HasRoom self.old.kept (item_of key.now (option_copied value) ∷ []) }
        requires new { IsNewTo self.old.kept.entries sequence key.now }
        ensures cmp { self.new.cmp ≡ self.old.cmp }
        ensures adds { AddsEntry self.old.kept
            (entry_of sequence key.now (option_copied value.entry)) self.new.kept }
        ensures grows { Grows self.old.kept.entries
            (entry_of sequence key.now (option_copied value.entry)) self.new.kept.entries }
    {
        self.put(sequence, key, value);
    }

    /// Inserts the changes of a batch for which there is room, the first of them with this number.
    pub fn insert_prepared(&mut self, first: SequenceNumber, batch: &WriteBatch)
        requires numbered { greatest (placed first batch.now.items) < 2 ^ 56 }
        requires room { HasRoom self.old.kept batch.now.items }
        requires new { AreNewTo self.old.kept.entries (placed first batch.now.items) }
        ensures cmp { self.new.cmp ≡ self.old.cmp }
        ensures adds { AddsAll self.old.kept (placed first batch.now.items) self.new.kept }
    {
        let mut sequence = first;
        for (key, value) in batch.iter() {
            self.add_prepared(sequence, key, value);
            sequence += 1;
        }
    }

    /// Inserts an entry, and takes the memory for it. A deletion has no value, whatever `value` is.
    /// Returns `AlreadyExists` if the key has an entry at this sequence, and `NotSupported` if the
    /// entries would be too many for the table.
    pub fn add(
        &mut self,
        sequence: SequenceNumber,
        kind: ValueType,
        key: UserKey<'_>,
        value: &[u8],
    ) -> Result<()>
        requires numbered { sequence < 2 ^ 56 }
        ensures cmp { self.new.cmp ≡ self.old.cmp }
        ensures kept { AddResult self.old.kept
            (entry_of sequence key.now (value_of kind value.now)) result self.new.kept }
    {
        let value = given(kind, value);
        self.prepare_entry(key, value)?;
        if self.put(sequence, key, value) {
            return Ok(());
        }
        let alloc = self.map.allocator();
        err(
            alloc,
            StatusCode::AlreadyExists,
            "the key has an entry with this number",
        )
    }

    /// Returns what the newest entry of the key at or below the sequence of the look-up key says of
    /// it.
    pub fn get(&self, key: &LookupKey) -> Lookup<&[u8]>
        ensures { FindsNewest self.now.kept.entries (sequence_part key.now) (user_part key.now)
            (lookup_copied result) }
    {
        let (user, sequence) = split_sequence(key.internal_key());
        self.newest(user, sequence)
    }

    /// Returns what the newest entry of the key at or below the sequence says of it, as `get`,
    /// without a look-up key.
    pub fn newest(&self, key: UserKey<'_>, sequence: SequenceNumber) -> Lookup<&[u8]>
        requires { sequence < 2 ^ 56 }
        ensures { FindsNewest self.now.kept.entries sequence key.now (lookup_copied result) }
    {
        let cmp = self.map.comparator();
        let probe = AsOf {
            cmp: &cmp.0,
            key,
            sequence,
        };
        match self.map.first_by(&probe) {
            None => Lookup::Absent,
            Some(node) => self.given_at(node, key),
        }
    }

    /// A walk over the internal keys of the entries with their values, which has no position yet.
    pub fn iter<'a>(&'a self) -> MemtableIterator<'a, C>
        ensures pairs { ⟦<MemtableIterator<'a, C> as LdbIterator>⟧.pairs result
            ≡ map internal_pair self.now.kept.entries }
        ensures position { ⟦<MemtableIterator<'a, C> as LdbIterator>⟧.position result ≡ None }
        ensures order { ⟦<MemtableIterator<'a, C> as LdbIterator>⟧.order result
            ≡ internal_cmp (C.cmp self.now.cmp) }
        ensures sorted { AreRising (internal_cmp (C.cmp self.now.cmp))
            (map internal_pair self.now.kept.entries) }
        ensures numbered { AreUpTo greatest_sequence self.now.kept.entries }
    {
        // This opens the value's invariant for the clauses `sorted` and `numbered`.
        let _ = self.map.iter();
        MemtableIterator {
            table: self,
            node: None,
        }
    }

    // What the entry of a node says of the key: nothing where it is another key's.
    #[inline]
    fn given_at(&self, node: usize, key: &[u8]) -> Lookup<&[u8]>
        requires { HasNode self.now.nodes (map internal_pair self.now.kept.entries) node }
        ensures { IsFoundAt self.now.kept.entries (rank self.now.nodes node) key.now
            (lookup_copied result) }
    {
        let parts = split_entry(self.map.key(node));
        let parsed = parse_internal_key(parts.0);
        if is_same(parsed.2, key) {
            return said(parsed.0, parts.1);
        }
        Lookup::Absent
    }

    // The node of the first entry.
    fn first(&self) -> Option<usize>
        ensures position { position_of_node self.now.nodes result
            ≡ position_within (map internal_pair self.now.kept.entries) 0 }
        ensures within { ForSome result
            (HasNode self.now.nodes (map internal_pair self.now.kept.entries)) }
    {
        self.map.first()
    }

    // The node after another.
    fn after(&self, node: usize) -> Option<usize>
        requires { HasNode self.now.nodes (map internal_pair self.now.kept.entries) node }
        ensures position { position_of_node self.now.nodes result
            ≡ position_within (map internal_pair self.now.kept.entries)
            (rank self.now.nodes node + 1) }
        ensures within { ForSome result
            (HasNode self.now.nodes (map internal_pair self.now.kept.entries)) }
    {
        self.map.after(node)
    }

    // The node before another.
    fn previous(&self, node: usize) -> Option<usize>
        requires { HasNode self.now.nodes (map internal_pair self.now.kept.entries) node }
        ensures position { position_of_node self.now.nodes result
            ≡ previous_position (Some (rank self.now.nodes node)) }
        ensures within { ForSome result
            (HasNode self.now.nodes (map internal_pair self.now.kept.entries)) }
    {
        self.map.previous(node)
    }

    // The node of the last entry.
    fn last(&self) -> Option<usize>
        ensures position { position_of_node self.now.nodes result
            ≡ last_position (map internal_pair self.now.kept.entries) }
        ensures within { ForSome result
            (HasNode self.now.nodes (map internal_pair self.now.kept.entries)) }
    {
        self.map.last()
    }

    // The node of the first internal key at or after this one.
    fn first_at(&self, key: &[u8]) -> Option<usize>
        ensures position { position_of_node self.now.nodes result
            ≡ seek_position (internal_cmp (C.cmp self.now.cmp))
            (map internal_pair self.now.kept.entries) key.now }
        ensures within { ForSome result
            (HasNode self.now.nodes (map internal_pair self.now.kept.entries)) }
    {
        let cmp = self.map.comparator();
        let probe = AtInternalKey { cmp: &cmp.0, key };
        self.map.first_by(&probe)
    }

    // The internal key and the value of a node.
    fn pair(&self, node: usize) -> (&[u8], &[u8])
        requires { HasNode self.now.nodes (map internal_pair self.now.kept.entries) node }
        ensures { slice_get (map internal_pair self.now.kept.entries) (rank self.now.nodes node)
            ≡ Some (result.0.now, result.1.now) }
    {
        split_entry(self.map.key(node))
    }

    // Takes memory for one entry.
    fn prepare_entry(&mut self, key: &[u8], value: Option<&[u8]>) -> Result<()>
        ensures cmp { self.new.cmp ≡ self.old.cmp }
        ensures kept { PrepareResult self.old.kept
            (item_of key.now (option_copied value.entry) ∷ []) result self.new.kept }
        ensures room { KeepsRoom self.old.kept self.new.kept }
    {
        self.reserve(1, byte_count(key, value))
    }

    // Makes room for `count` entries, whose keys and values have `bytes` bytes.
    fn reserve(&mut self, count: u32, bytes: usize) -> Result<()>
        ensures cmp { self.new.cmp ≡ self.old.cmp }
        ensures kept { ReserveResult self.old.kept count bytes result self.new.kept }
    {
        let places = self.map.places().max(count as usize);
        // A sum past 64 bits is past the map's limit, too.
        self.map
            .reserve(places, bytes.saturating_add(MOST_BESIDE * places))
    }

    // Inserts an entry for which there is room. Returns whether it did: an entry of this key and
    // number is left.
    fn put(&mut self, sequence: SequenceNumber, key: &[u8], value: Option<&[u8]>) -> bool
        requires numbered { sequence < 2 ^ 56 }
        requires room { HasRoom self.old.kept (item_of key.now (option_copied value) ∷ []) }
        ensures cmp { self.new.cmp ≡ self.old.cmp }
        ensures kept { PutResult self.old.kept
            (entry_of sequence key.now (option_copied value.entry)) result self.new.kept }
    {
        let parts = type_and_bytes(value);
        let tag = tag_bytes(sequence, parts.0);
        let mut first = [0; 10];
        let head = encode_length(&mut first, key.len() + TAG_LEN);
        let mut second = [0; 10];
        let size = encode_length(&mut second, parts.1.len());
        self.map.put_parts(sequence, head, key, &tag, size, parts.1)
    }
}

// The encoding of a length, written into these bytes.
#[inline]
#[tactic(auto, using(leveldb_base::proofs::VarintLemmas::varint_lengths))]
fn encode_length(bytes: &mut [u8], number: usize) -> &[u8]
    requires { 10 ≤ length bytes.old }
    ensures { result.now ≡ varint number }
{
    let used = encode_varint64(bytes, number as u64);
    &bytes[..used]
}

// The number of bytes of key and value.
fn byte_count(key: &[u8], value: Option<&[u8]>) -> usize
    ensures { result ≡ length key.now + value_length (option_copied value.entry) }
{
    match value {
        None => key.len(),
        Some(value) => key.len() + value.len(),
    }
}

// The type of what an entry gives its key, and the bytes of its value; a deletion has none.
fn type_and_bytes(value: Option<&[u8]>) -> (ValueType, &[u8])
    ensures kind { result.0 ≡ type_of (option_copied value.entry) }
    ensures bytes { result.1.now ≡ bytes_of_value (option_copied value.entry) }
{
    match value {
        None => (ValueType::TypeDeletion, &[]),
        Some(bytes) => (ValueType::TypeValue, bytes),
    }
}

// The internal key and the value that a memtable key is made of.
#[inline]
fn split_entry(key: &[u8]) -> (&[u8], &[u8])
    requires { key.now ≡ entry_key (entry_from key.now) }
    ensures internal { result.0.now ≡ front_key key.now }
    ensures long { 8 ≤ length result.0.now }
    ensures value { result.1.now ≡ inner_value key.now }
{
    let first = front_text(key);
    let second = front_text(first.1);
    (first.0, second.0)
}

// The text after its length at the front, and what follows it.
#[inline]
fn front_text(bytes: &[u8]) -> (&[u8], &[u8])
    requires { (text : List ℕ) × (rest : List ℕ) × (bytes.now ≡ sized text ++ rest) }
    ensures { bytes.now ≡ sized result.0.now ++ result.1.now }
{
    match get_length_prefixed_slice(bytes) {
        Some(texts) => texts,
        None => unreachable!(),
    }
}

fn is_same(a: &[u8], b: &[u8]) -> bool
    ensures { IsTrue result ↔ (a.now ≡ b.now) }
{
    a == b
}

// What a type and bytes give a key.
fn given(kind: ValueType, bytes: &[u8]) -> Option<&[u8]>
    ensures { option_copied result ≡ value_of kind bytes.now }
{
    match kind {
        ValueType::TypeDeletion => None,
        ValueType::TypeValue => Some(bytes),
    }
}

// What an entry of this type, with these bytes as its value, says of its key.
fn said(kind: ValueType, bytes: &[u8]) -> Lookup<&[u8]>
    ensures { lookup_copied result ≡ lookup_of (value_of kind bytes.now) }
{
    match kind {
        ValueType::TypeDeletion => Lookup::Deleted,
        ValueType::TypeValue => Lookup::Value(bytes),
    }
}
