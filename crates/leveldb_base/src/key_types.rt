//! The keys of entries: internal keys, which tables hold, and memtable keys, which the memtable
//! holds.
//!
//! An internal key is the user's key and eight bytes of `sequence << 8 | type`, the lowest first. A
//! look-up key is an internal key after its length, and a memtable key is that and the value after
//! its length.
// LevelDB: db/dbformat.cc
ghost use Rattle.std.specs.Prelude.{◌≡◌, ◌+◌, ◌/◌, ◌%◌, ◌^◌, ◌<◌, ◌≤◌, ◌⊎◌, ℕ, List, [], ◌++◌, Option, Some, IfOk, IfErr, OnOk, length, drop, vec_len};
ghost use Rattle.leveldb_base.specs.Error.{IsOutOfMemory};
ghost use Rattle.leveldb_base.specs.Varint.{little, varint, sized};
ghost use Rattle.leveldb_base.specs.KeyTypes.{type_from, tag, internal_key, user_part, tag_part, sequence_part, type_part, memtable_key, internal_cmp, memtable_cmp, front_key, after_user_key, SplitsInto, IsMemtableKey, IsLongKey, offsets_of};

use crate::cmp::Cmp;
use crate::error::{Result, Status, StatusCode, err};
use crate::types::SequenceNumber;
use crate::varint::{encode_varint64, get_length_prefixed_slice, get_varint64};
use byteorder::{ByteOrder, LittleEndian};
use std::alloc::{AllocError, Global};
use std::cmp::Ordering;
use std::marker::Model;

/// Whether an entry deletes its key or gives it a value.
#[derive(Clone, Copy, Debug, PartialEq, PartialOrd)]
pub enum ValueType {
    /// The key has no value from this entry on.
    TypeDeletion = 0,
    /// The entry has a value.
    TypeValue = 1,
}

/// A key as the user gives it.
pub type UserKey<'a> = &'a [u8];

/// A user's key with a sequence number and a type after it.
pub type InternalKey<'a> = &'a [u8];

/// An internal key after its length, and a value after its length where it is an entry's.
pub type MemtableKey<'a> = &'a [u8];

/// The greatest length of a user's key, in bytes.
pub const MAX_KEY_SIZE: usize = 1 << 30;

/// Checks the length of a user's key: one of more than `MAX_KEY_SIZE` bytes is `InvalidArgument`.
pub fn check_key_size(alloc: Global, key: UserKey<'_>) -> Result<()>
    ensures ok { OnOk result (IsLongKey key.now → ⊥) }
    ensures long { IfErr result
        (λ status. (status.code ≡ StatusCode.InvalidArgument) × IsLongKey key.now) }
{
    if key.len() > MAX_KEY_SIZE {
        return err(
            alloc,
            StatusCode::InvalidArgument,
            "a key has at most 2^30 bytes",
        );
    }
    Ok(())
}

/// A key to look up as of a sequence number. Clauses see it as its internal key.
#[derive(Clone, Debug, Drop)]
pub struct LookupKey {
    // the internal key after its length
    key: Vec<u8>,
    // how many bytes the length has
    key_offset: usize,
}

impl Model for LookupKey {
    ghost Value = { List ℕ };

    ghost view = { λ it. drop it.key_offset it.key.items };

    ghost invariant = { λ it. (it.key.items ≡ sized (drop it.key_offset it.key.items))
        × (it.key_offset + 8 ≤ length it.key.items) };
}

impl LookupKey {
    /// The key to look up `key` as of `sequence`.
    pub fn new(alloc: Global, key: UserKey<'_>, sequence: SequenceNumber) -> Result<LookupKey>
        requires { sequence < 2 ^ 56 }
        ensures ok { IfOk result (λ made.
            made ≡ internal_key key.now sequence ValueType.TypeValue) }
        ensures cause { IfErr result IsOutOfMemory }
    {
        LookupKey::new_full(alloc, key, sequence, ValueType::TypeValue)
    }

    /// The same with a type of the caller's choice.
    pub fn new_full(
        alloc: Global,
        key: UserKey<'_>,
        sequence: SequenceNumber,
        kind: ValueType,
    ) -> Result<LookupKey>
        requires { sequence < 2 ^ 56 }
        ensures ok { IfOk result (λ made. made ≡ internal_key key.now sequence kind) }
        ensures cause { IfErr result IsOutOfMemory }
    {
        let (key, key_offset) = sized_internal_key(alloc, key, sequence, kind, 0)?;
        Ok(LookupKey { key, key_offset })
    }

    /// The internal key after its length, by which a memtable is searched.
    pub fn memtable_key(&self) -> MemtableKey<'_>
        ensures { result.now ≡ sized self.now }
    {
        self.key.as_slice()
    }

    /// The user's key alone.
    pub fn user_key(&self) -> UserKey<'_>
        ensures { result.now ≡ user_part self.now }
    {
        &self.key[self.key_offset..self.key.len() - TAG_LEN]
    }

    /// The internal key, by which tables are searched.
    pub fn internal_key(&self) -> InternalKey<'_>
        ensures { result.now ≡ self.now }
    {
        &self.key[self.key_offset..]
    }
}

/// The type and the sequence number in a tag. Any type but 0 counts as a value.
#[inline]
pub fn parse_tag(tag: u64) -> (ValueType, SequenceNumber)
    ensures kind { result.0 ≡ type_from (tag % 256) }
    ensures sequence { result.1 ≡ tag / 256 }
{
    let kind = match tag & 0xff {
        0 => ValueType::TypeDeletion,
        _ => ValueType::TypeValue,
    };
    (kind, tag >> 8)
}

/// The bytes of an entry in memory.
#[tactic(auto, using(crate::proofs::VarintLemmas::varint_lengths))]
pub fn build_memtable_key(
    alloc: Global,
    key: &[u8],
    value: &[u8],
    kind: ValueType,
    sequence: SequenceNumber,
) -> Result<Vec<u8>>
    requires sequence { sequence < 2 ^ 56 }
    ensures ok { IfOk result (λ entry. entry.items ≡ memtable_key key.now sequence kind value.now) }
    ensures cause { IfErr result IsOutOfMemory }
{
    let mut head = [0; MAX_VARINT_LEN];
    let used = encode_varint64(&mut head, value.len() as u64);
    let (mut entry, _) = sized_internal_key(alloc, key, sequence, kind, used + value.len())?;
    entry.extend_from_slice(&head[..used])?;
    entry.extend_from_slice(value)?;
    Ok(entry)
}

// The most bytes that a varint has.
const MAX_VARINT_LEN: usize = 10;

/// The number of bytes of a tag, which is the last part of an internal key.
pub const TAG_LEN: usize = 8;

// An internal key after its length, in a vector with room for more, and the number of bytes of the
// length.
#[tactic(auto, using(crate::proofs::VarintLemmas::varint_lengths))]
fn sized_internal_key(
    alloc: Global,
    key: &[u8],
    sequence: SequenceNumber,
    kind: ValueType,
    room: usize,
) -> Result<(Vec<u8>, usize)>
    requires sequence { sequence < 2 ^ 56 }
    ensures ok { IfOk result (λ made. made.0.items ≡ sized (internal_key key.now sequence kind)) }
    ensures used { IfOk result (λ made. made.1 ≡ length (varint (length key.now + 8))) }
    ensures cause { IfErr result IsOutOfMemory }
{
    let mut head = [0; MAX_VARINT_LEN];
    let used = encode_varint64(&mut head, (key.len() + TAG_LEN) as u64);
    let Some(size) = room.checked_add(used + key.len() + TAG_LEN) else {
        return Err(Status::from(AllocError));
    };
    let mut bytes = Vec::with_capacity(alloc, size)?;
    bytes.extend_from_slice(&head[..used])?;
    bytes.extend_from_slice(key)?;
    bytes.extend_from_slice(&tag_bytes(sequence, kind))?;
    Ok((bytes, used))
}

/// The bytes of a tag.
pub fn tag_bytes(sequence: SequenceNumber, kind: ValueType) -> [u8; TAG_LEN]
    requires { sequence < 2 ^ 56 }
    ensures { result ≡ little 8 (tag sequence kind) }
{
    let mut bytes = [0; TAG_LEN];
    LittleEndian::write_u64(&mut bytes, (sequence << 8) | kind as u64);
    bytes
}

/// The length and the offset of the user's key of an entry in memory, its tag, and the length and
/// the offset of its value. The last three are 0 for a key that ends before its tag.
pub fn parse_memtable_key(mkey: MemtableKey<'_>) -> (usize, usize, u64, usize, usize)
    requires { IsMemtableKey mkey.now }
    ensures { (user : List ℕ) (parts : Option (ℕ × List ℕ)) → SplitsInto mkey.now user parts
        → result ≡ offsets_of user parts }
{
    let (len, offset, tail) = split_user_key(mkey);
    if tail.is_empty() {
        return (len, offset, 0, 0, 0);
    }
    let (tag, value_len, used) = split_tail(tail);
    (len, offset, tag, value_len, offset + len + used)
}

// The length and the offset of the user's key, and the bytes after it.
fn split_user_key(mkey: &[u8]) -> (usize, usize, &[u8])
    requires { IsMemtableKey mkey.now }
    ensures parts { (user : List ℕ) (parts : Option (ℕ × List ℕ)) → SplitsInto mkey.now user parts
        → (result.0 ≡ length user) × (result.1 ≡ length (varint (length user + 8)))
        × (result.2.now ≡ after_user_key parts) }
    ensures whole { result.1 + result.0 + length result.2.now ≡ length mkey.now }
{
    let (len, offset) = front_len(mkey);
    let len = len - TAG_LEN;
    (len, offset, &mkey[offset + len..])
}

// The tag, and the length and the offset of the value, in the bytes after a user's key.
fn split_tail(tail: &[u8]) -> (u64, usize, usize)
    requires { (number : ℕ) × (value : List ℕ) × (number < 2 ^ 64)
        × (tail.now ≡ little 8 number ++ sized value) }
    ensures parts { (number : ℕ) (value : List ℕ) → number < 2 ^ 64
        → tail.now ≡ little 8 number ++ sized value
        → result ≡ (number, length value, 8 + length (varint (length value))) }
    ensures whole { result.2 + result.1 ≡ length tail.now }
{
    let tag = LittleEndian::read_u64(tail);
    let (value_len, used) = front_len(&tail[TAG_LEN..]);
    (tag, value_len, TAG_LEN + used)
}

// The length at the front, and the number of its bytes.
fn front_len(bytes: &[u8]) -> (usize, usize)
    requires { (n : ℕ) × (rest : List ℕ) × (n < 2 ^ 64) × (bytes.now ≡ varint n ++ rest) }
    ensures { (n : ℕ) (rest : List ℕ) → bytes.now ≡ varint n ++ rest
        → result ≡ (n, length (varint n)) }
{
    match get_varint64(bytes) {
        Some((n, used)) => (n as usize, used),
        None => unreachable!(),
    }
}

/// The order of memtable keys and look-up keys: that of their internal keys.
#[inline]
pub fn cmp_memtable_key<C: Cmp>(ucmp: &C, a: MemtableKey<'_>, b: MemtableKey<'_>) -> Ordering
    ensures { result ≡ memtable_cmp (C.cmp ucmp.now) a.now b.now }
{
    cmp_internal_key(ucmp, front_key(a), front_key(b))
}

/// The internal key after its length at the front, or the empty text where there is none.
#[inline]
pub fn front_key(key: MemtableKey<'_>) -> InternalKey<'_>
    ensures { result.now ≡ front_key key.now }
{
    match get_length_prefixed_slice(key) {
        Some((key, _)) => key,
        None => &key[..0],
    }
}

/// The type, the sequence number and the user's key of an internal key. The empty key is read as
/// the deletion of the empty key with number 0.
pub fn parse_internal_key(ikey: InternalKey<'_>) -> (ValueType, SequenceNumber, UserKey<'_>)
    requires { (ikey.now ≡ []) ⊎ (8 ≤ length ikey.now) }
    ensures kind { result.0 ≡ type_part ikey.now }
    ensures sequence { result.1 ≡ sequence_part ikey.now }
    ensures user { result.2.now ≡ user_part ikey.now }
{
    let (user, tag) = split_tag(ikey);
    let (kind, sequence) = parse_tag(tag);
    (kind, sequence, user)
}

// The user's key and the tag. Fewer than eight bytes are an empty user's key with the tag 0.
#[inline]
fn split_tag(ikey: &[u8]) -> (&[u8], u64)
    ensures user { result.0.now ≡ user_part ikey.now }
    ensures tag { result.1 ≡ tag_part ikey.now }
{
    if ikey.len() < TAG_LEN {
        return (&ikey[..0], 0);
    }
    let (user, tag) = ikey.split_at(ikey.len() - TAG_LEN);
    (user, LittleEndian::read_u64(tag))
}

/// The user's key and the sequence number of an internal key. Fewer than eight bytes are an empty
/// user's key with number 0.
#[inline]
pub fn split_sequence(ikey: &[u8]) -> (&[u8], SequenceNumber)
    ensures user { result.0.now ≡ user_part ikey.now }
    ensures sequence { result.1 ≡ sequence_part ikey.now }
{
    let (user, tag) = split_tag(ikey);
    (user, tag >> 8)
}

/// The order of internal keys: by the user's key rising, then by the sequence number falling; the
/// type is ignored. Fewer than eight bytes are taken as an empty user's key with number 0.
#[inline]
pub fn cmp_internal_key<C: Cmp>(ucmp: &C, a: InternalKey<'_>, b: InternalKey<'_>) -> Ordering
    ensures { result ≡ internal_cmp (C.cmp ucmp.now) a.now b.now }
{
    let (user_a, sequence_a) = split_sequence(a);
    let (user_b, sequence_b) = split_sequence(b);
    ucmp.cmp(user_a, user_b).then(sequence_b.cmp(&sequence_a))
}

/// Takes the tag off an internal key.
pub fn truncate_to_userkey(ikey: &mut Vec<u8>)
    requires { 8 ≤ vec_len ikey.old }
    ensures { ikey.new.items ≡ user_part ikey.old.items }
{
    ikey.truncate(ikey.len() - TAG_LEN);
}
