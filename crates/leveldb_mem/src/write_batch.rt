//! Write batches: changes of keys that are made together. A batch is held as the bytes that encode
//! it in the log: the number of the first change (8 bytes), the number of changes (4), and the
//! changes in order. A change is its kind (1 byte) and its key after its length; a put has its
//! value after its length, too.
// LevelDB: db/write_batch.cc
ghost use Rattle.std.specs.Prelude.{◌≡◌, ◌↔◌, ◌⊎◌, ◌+◌, ◌^◌, ◌<◌, ◌≤◌, [], ◌∷◌, ◌++◌, length, take};
ghost use Rattle.std.specs.Prelude.{drop};
ghost use Rattle.std.specs.Prelude.{Some, None, IfOk, OnOk, OnErr, IfErr, IfSome, IsErrAnd, IsTrue};
ghost use Rattle.std.specs.Prelude.{vec_len, vec_capacity, option_copied};
ghost use Rattle.std.specs.Iterator.{YieldsFirstBy, item_count};
ghost use Rattle.std.specs.Option.{SomeIff};
ghost use Rattle.leveldb_base.specs.Error.{IsOutOfMemory};
ghost use Rattle.leveldb_base.specs.declared.error.StatusCode.TheVariants.{InvalidArgument};
ghost use Rattle.leveldb_base.specs.declared.error.StatusCode.TheVariants.{NotSupported};
ghost use Rattle.leveldb_base.specs.History.{placed, greatest};
ghost use Rattle.leveldb_base.specs.Varint.{little, sized};
ghost use Rattle.leveldb_mem.specs.WriteBatch.{item_of, batch_of, with_item, AddChangeResult};
ghost use Rattle.leveldb_mem.specs.WriteBatch.{BatchOf};
ghost use Rattle.leveldb_mem.specs.WriteBatch.{IsBatch, IsTooLong, AreChanges, CountsChanges};
ghost use Rattle.leveldb_mem.specs.WriteBatch.{change_encoding, ReadsChange, borrowed_item};
ghost use Rattle.leveldb_mem.specs.WriteBatch.{borrowed_entry};
ghost use Rattle.leveldb_mem.specs.WriteBatchLaws.{IsBatch-prop, AreChanges-prop};
ghost use Rattle.leveldb_mem.specs.MemTable.{IsUnion, AreNewTo, GrowsByAll, FailsToPrepare};
ghost use Rattle.leveldb_mem.specs.MemTable.{bytes_in};

use crate::memtable::MemTable;
use byteorder::{ByteOrder, LittleEndian};
use leveldb_base::cmp::UserCmp;
use leveldb_base::error::{Result, StatusCode, err};
use leveldb_base::key_types::ValueType;
use leveldb_base::types::{MAX_SEQUENCE_NUMBER, SequenceNumber};
use leveldb_base::varint::{encode_varint64, get_length_prefixed_slice, varint_length};
use std::alloc::Global;
use std::marker::Model;

const COUNT_OFFSET: usize = 8;

const HEADER_SIZE: usize = 12;

// The room of a new batch: a put of a key of 16 and a value of 100 makes a batch of 131 bytes.
const FIRST_CAPACITY: usize = 256;

const MAX_SIZE: usize = 1 << 30;

const DELETION: u8 = ValueType::TypeDeletion as u8;

const VALUE: u8 = ValueType::TypeValue as u8;

/// Changes in order, and the number of the first of them; each has the number after that of the one
/// before.
/// A batch has at most 2^30 bytes.
#[derive(Debug, Drop)]
pub struct WriteBatch {
    // all its bytes, the number and the count at the front too
    entries: Vec<u8>,
    ghost is_batch: { IsBatch entries.items } by { IsBatch-prop entries.items },
}

impl Model for WriteBatch {
    ghost use Rattle.leveldb_mem.specs.WriteBatch.{Batch};

    ghost Value = { Batch };

    ghost view = { λ batch. batch.is_batch.0 };
}

impl WriteBatch {
    /// A batch without changes, at number 0.
    pub fn new(alloc: Global) -> Result<WriteBatch>
        ensures ok { IfOk result (λ batch. batch ≡ batch_of 0 []) }
        ensures memory { IfErr result IsOutOfMemory }
    {
        let mut entries = Vec::with_capacity(alloc, FIRST_CAPACITY)?;
        entries.extend_from_slice(&[0; HEADER_SIZE])?;
        Ok(WriteBatch { entries })
    }

    /// Makes it the batch that these bytes encode. Returns `InvalidArgument` if they encode none.
    pub fn set_contents(&mut self, from: &[u8]) -> Result<()>
        ensures ok { OnOk result (BatchOf from.now self.new.first self.new.items) }
        ensures err { OnErr result (self.new ≡ self.old) }
        ensures malformed { IsErrAnd result (λ status. status.code ≡ InvalidArgument)
            ↔ (¬ IsBatch from.now) }
        ensures cause { IfErr result (λ status.
            (status.code ≡ InvalidArgument) ⊎ IsOutOfMemory status) }
    {
        if !is_batch(from) {
            let alloc = *self.entries.allocator();
            return err(alloc, StatusCode::InvalidArgument, "not a write batch");
        }
        replace(&mut self.entries, from)
    }

    /// Adds the change that gives `key` this value. Returns `InvalidArgument` if the batch would be
    /// past its limit.
    pub fn put(&mut self, key: &[u8], value: &[u8]) -> Result<()>
        ensures { AddChangeResult self.old (item_of key.now (Some value.now)) result self.new }
    {
        self.add(key, Some(value))
    }

    /// Adds the change that deletes `key`. Returns `InvalidArgument` if the batch would be past its
    /// limit.
    pub fn delete(&mut self, key: &[u8]) -> Result<()>
        ensures { AddChangeResult self.old (item_of key.now None) result self.new }
    {
        self.add(key, None)
    }

    #[inline]
    fn add(&mut self, key: &[u8], value: Option<&[u8]>) -> Result<()>
        ensures ok { OnOk result
            (self.new ≡ with_item self.old (item_of key.now (option_copied value.entry))) }
        ensures err { OnErr result (self.new ≡ self.old) }
        ensures too_long { IsErrAnd result (λ status. status.code ≡ InvalidArgument)
            ↔ IsTooLong (with_item self.old (item_of key.now (option_copied value.entry))) }
        ensures cause { IfErr result (λ status.
            (status.code ≡ InvalidArgument) ⊎ IsOutOfMemory status) }
    {
        let Some(length) = entry_length(key, value, MAX_SIZE - self.entries.len()) else {
            let alloc = *self.entries.allocator();
            return err(
                alloc,
                StatusCode::InvalidArgument,
                "a write batch has at most 2^30 bytes",
            );
        };
        let count = self.count();
        self.entries.reserve(length)?;
        put_entry(&mut self.entries, key, value);
        write_count(&mut self.entries, count + 1);
        Ok(())
    }

    /// Takes all changes out and sets the number to 0. The memory is kept.
    pub fn clear(&mut self)
        ensures { self.new ≡ batch_of 0 [] }
    {
        self.entries.truncate(HEADER_SIZE);
        self.entries.copy_from_slice(&[0; HEADER_SIZE]);
    }

    /// Returns the number of changes.
    #[inline]
    pub fn count(&self) -> u32
        ensures { result ≡ length self.now.items }
    {
        LittleEndian::read_u32(&self.entries[COUNT_OFFSET..])
    }

    /// Sets the number of the first change.
    pub fn set_sequence(&mut self, sequence: SequenceNumber)
        ensures { self.new ≡ batch_of sequence self.old.items }
    {
        LittleEndian::write_u64(&mut self.entries, sequence);
    }

    /// The number of the first change.
    pub fn sequence(&self) -> SequenceNumber
        ensures { result ≡ self.now.first }
    {
        LittleEndian::read_u64(&self.entries)
    }

    /// The changes in order: each key with its value, or with none if it is deleted.
    pub fn iter(&self) -> WriteBatchIter<'_>
        ensures items { result ≡ self.now.items }
        ensures bound { length result < 2 ^ 32 }
    {
        WriteBatchIter {
            entries: &self.entries[HEADER_SIZE..],
        }
    }

    /// The batch as bytes.
    pub fn contents(&self) -> &[u8]
        ensures { BatchOf result.now self.now.first self.now.items }
    {
        self.entries.as_slice()
    }

    /// Inserts all changes into the memtable, the first of them with this number; after an error,
    /// none.
    /// Returns `NotSupported` if a number is too great, or the entries would be too many for the
    /// table.
    pub fn insert_into_memtable<C: UserCmp>(
        &self,
        seq: SequenceNumber,
        memtable: &mut MemTable<C>,
    ) -> Result<()>
        requires { AreNewTo memtable.old.kept.entries (placed seq self.now.items) }
        ensures cmp { memtable.new.cmp ≡ memtable.old.cmp }
        ensures ok { OnOk result (IsUnion memtable.old.kept.entries (placed seq self.now.items)
            memtable.new.kept.entries) }
        ensures grows { OnOk result (GrowsByAll memtable.old.kept.entries
            (placed seq self.now.items) memtable.new.kept.entries) }
        ensures err { OnErr result (memtable.new.kept.entries ≡ memtable.old.kept.entries) }
        ensures too_great { 2 ^ 56 ≤ greatest (placed seq self.now.items)
            → IsErrAnd result (λ status. status.code ≡ NotSupported) }
        ensures cause { IfErr result (λ status.
            ((status.code ≡ NotSupported) × (2 ^ 56 ≤ greatest (placed seq self.now.items)))
            ⊎ FailsToPrepare memtable.old.kept (length self.now.items)
            (bytes_in self.now.items) status) }
    {
        if u64::from(self.count()) > (MAX_SEQUENCE_NUMBER + 1).saturating_sub(seq) {
            let alloc = *self.entries.allocator();
            return err(
                alloc,
                StatusCode::NotSupported,
                "the sequence numbers are used up",
            );
        }
        memtable.prepare(self)?;
        memtable.insert_prepared(seq, self);
        Ok(())
    }

    /// The batch as bytes, with its first change at `sequence`.
    pub fn encode(mut self, sequence: SequenceNumber) -> Vec<u8>
        ensures { BatchOf result.items sequence self.items }
    {
        self.set_sequence(sequence);
        self.entries
    }
}

/// The changes of a batch that are left to walk over, borrowed from it.
#[derive(Debug, Drop)]
pub struct WriteBatchIter<'a> {
    // the bytes of these changes
    entries: &'a [u8],
    ghost are_entries: { AreChanges entries.now } by { AreChanges-prop entries.now },
}

impl<'a> Model for WriteBatchIter<'a> {
    ghost use Rattle.std.specs.Prelude.{List};
    ghost use Rattle.leveldb_base.specs.History.{Item};

    ghost Value = { List Item };

    ghost view = { λ left. left.are_entries.0 };
}

impl<'a> Iterator for WriteBatchIter<'a> {
    type Item = (&'a [u8], Option<&'a [u8]>);

    ghost next_gives = { YieldsFirstBy borrowed_item (λ left. left) };

    ghost remaining = { item_count (λ left. left) };

    #[inline]
    fn next(&mut self) -> Option<(&'a [u8], Option<&'a [u8]>)> {
        let (item, others) = take_entry(self.entries)?;
        self.entries = others;
        Some(item)
    }
}

// Replaces the bytes by these.
fn replace(entries: &mut Vec<u8>, bytes: &[u8]) -> Result<()>
    ensures ok { OnOk result (entries.new.items ≡ bytes.now) }
    ensures err { OnErr result (entries.new.items ≡ entries.old.items) }
    ensures cause { IfErr result IsOutOfMemory }
{
    entries.reserve(bytes.len().saturating_sub(entries.len()))?;
    entries.clear();
    entries.extend_from_slice(bytes).unwrap();
    Ok(())
}

// Changes the count in the header.
fn write_count(bytes: &mut [u8], count: u32)
    requires { 12 ≤ length bytes.old }
    ensures { bytes.new ≡ take 8 bytes.old ++ (little 4 count ++ drop 12 bytes.old) }
{
    LittleEndian::write_u32(&mut bytes[COUNT_OFFSET..], count);
}

// The number of bytes of the text and its length, if it is within the limit.
#[inline]
#[tactic(auto, using(leveldb_base::proofs::VarintLemmas::varint_lengths))]
fn sized_length(text: &[u8]) -> Option<usize>
    ensures length { SomeIff result (length text.now ≤ 2 ^ 30) (length (sized text.now)) }
    ensures bound { IfSome result (λ length. length ≤ 2 ^ 30 + 5) }
{
    if text.len() > MAX_SIZE {
        return None;
    }
    Some(varint_length(text.len() as u64) + text.len())
}

// The number of bytes of the entry, if there is room for it.
#[inline]
#[tactic(auto, using(leveldb_base::proofs::VarintLemmas::varint_lengths))]
fn entry_length(key: &[u8], value: Option<&[u8]>, room: usize) -> Option<usize>
    requires { room ≤ 2 ^ 30 }
    ensures { let size = length (change_encoding key.now (option_copied value.entry)) in
        SomeIff result (size ≤ room) size }
{
    let key_length = sized_length(key)?;
    let length = match value {
        None => 1 + key_length,
        Some(value) => 1 + key_length + sized_length(value)?,
    };
    if length > room {
        return None;
    }
    Some(length)
}

// Appends the kind of an entry, and its key after its length.
#[inline]
#[tactic(auto, using(leveldb_base::proofs::VarintLemmas::varint_lengths))]
fn put_key(entries: &mut Vec<u8>, kind: u8, key: &[u8])
    requires { vec_len entries.old + 1 + length (sized key.now) ≤ vec_capacity entries.old }
    ensures items { entries.new.items ≡ entries.old.items ++ kind ∷ sized key.now }
    ensures capacity { vec_capacity entries.old ≤ vec_capacity entries.new }
{
    let mut head = [kind; 11];
    let used = encode_varint64(&mut head[1..], key.len() as u64);
    entries.extend_from_slice(&head[..=used]).unwrap();
    entries.extend_from_slice(key).unwrap();
}

// Appends a value after its length.
#[inline]
#[tactic(auto, using(leveldb_base::proofs::VarintLemmas::varint_lengths))]
fn put_value(entries: &mut Vec<u8>, value: &[u8])
    requires { vec_len entries.old + length (sized value.now) ≤ vec_capacity entries.old }
    ensures { entries.new.items ≡ entries.old.items ++ sized value.now }
{
    let mut head = [0; 10];
    let used = encode_varint64(&mut head, value.len() as u64);
    entries.extend_from_slice(&head[..used]).unwrap();
    entries.extend_from_slice(value).unwrap();
}

// Appends an entry.
#[inline]
fn put_entry(entries: &mut Vec<u8>, key: &[u8], value: Option<&[u8]>)
    requires { vec_len entries.old + length (change_encoding key.now (option_copied value))
        ≤ vec_capacity entries.old }
    ensures { entries.new.items
        ≡ entries.old.items ++ change_encoding key.now (option_copied value.entry) }
{
    match value {
        None => put_key(entries, DELETION, key),
        Some(value) => {
            put_key(entries, VALUE, key);
            put_value(entries, value);
        }
    }
}

// The entry at the front, and what follows it.
fn take_entry(bytes: &[u8]) -> Option<((&[u8], Option<&[u8]>), &[u8])>
    ensures { ReadsChange bytes.now (borrowed_entry result) }
{
    let (kind, rest) = bytes.split_first()?;
    let (key, rest) = get_length_prefixed_slice(rest)?;
    match *kind {
        DELETION => Some(((key, None), rest)),
        VALUE => {
            let (value, rest) = get_length_prefixed_slice(rest)?;
            Some(((key, Some(value)), rest))
        }
        _ => None,
    }
}

// The number of entries that the bytes encode, if they encode entries.
fn count_entries(bytes: &[u8]) -> Option<usize>
    ensures { CountsChanges bytes.now result }
{
    let mut rest = bytes;
    let mut count = 0;
    while !rest.is_empty() {
        let (_, others) = take_entry(rest)?;
        rest = others;
        count += 1;
    }
    Some(count)
}

fn is_batch(bytes: &[u8]) -> bool
    ensures { IsTrue result ↔ IsBatch bytes.now }
{
    if bytes.len() < HEADER_SIZE || bytes.len() > MAX_SIZE {
        return false;
    }
    let count = LittleEndian::read_u32(&bytes[COUNT_OFFSET..]);
    count_entries(&bytes[HEADER_SIZE..]) == Some(count as usize)
}
