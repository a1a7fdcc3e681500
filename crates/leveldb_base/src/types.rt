//! Words of every layer: numbers of files and entries, ranges, file types, and the meaning of an
//! iterator.
// LevelDB: db/dbformat.h, SequenceNumber; db/version_edit.h, FileMetaData
ghost use Rattle.std.specs.Prelude.{◌≡◌, ◌⊎◌, List, ℕ, Option, None, IfOk, IfErr, OnOk, OnErr, is_some};
ghost use Rattle.std.specs.declared.cmp.Ordering.{Ordering};
ghost use Rattle.leveldb_base.specs.declared.error.Status.{Status};
ghost use Rattle.leveldb_base.specs.Types.{Pair, IsPosition, SameWalk, position_within, next_position, previous_position, last_position, seek_position, pair_at, pair_of, copied_pair};
ghost use Rattle.leveldb_base.specs.Entries.{is_absent, value_found};
ghost use Rattle.leveldb_base.specs.Error.{IsOutOfMemory};

use crate::error::Result;
pub use crate::names::parse_file_name;
use bytes::Bytes;
use std::alloc::Global;

/// The number that a file of a store has in its name.
pub type FileNum = u64;

/// The number of an entry in the history of a store; the first is 1.
pub type SequenceNumber = u64;

/// The number of levels of tables.
pub const NUM_LEVELS: usize = 7;

/// The greatest sequence number: a key keeps it in 56 bits, beside 8 for its type.
pub const MAX_SEQUENCE_NUMBER: SequenceNumber = (1 << 56) - 1;

/// The way in which an iterator last moved.
#[derive(Clone, Copy, Debug, PartialEq, Eq)]
pub enum Direction {
    /// To a later pair.
    Forward,
    /// To an earlier one.
    Reverse,
}

/// The keys from `start` on and before `limit`.
#[derive(Clone, Copy, Debug)]
pub struct Range<'a> {
    /// The first key.
    pub start: &'a [u8],
    /// The key after the last.
    pub limit: &'a [u8],
}

/// The type of a store's file, which its name gives.
#[derive(Clone, Copy, Debug, PartialEq)]
pub enum FileType {
    /// A log of write batches, such as `000003.log`.
    Log,
    /// `LOCK`, which is locked while the store is open.
    DBLock,
    /// A table, such as `000005.ldb`.
    Table,
    /// A manifest, such as `MANIFEST-000002`.
    Descriptor,
    /// `CURRENT`, which names the manifest.
    Current,
    /// A file that is written before it gets its name, such as `000007.dbtmp`.
    Temp,
    /// `LOG` or `LOG.old`, lines for the reader.
    InfoLog,
}

/// A table's file.
#[derive(Clone, Debug, Drop, PartialEq)]
pub struct FileMetaData {
    /// How many fruitless seeks it may take before it is compacted.
    pub allowed_seeks: usize,
    /// The number in its name.
    pub num: FileNum,
    /// Its length in bytes.
    pub size: usize,
    /// Its first internal key.
    pub smallest: Bytes,
    /// Its last internal key.
    pub largest: Bytes,
}

/// The number 0, no bytes and empty keys.
impl Default for FileMetaData {
    ghost use Rattle.std.specs.Prelude.{[]};

    ghost is_default = { λ file. (file.allowed_seeks ≡ 0) × (file.num ≡ 0) × (file.size ≡ 0)
        × (file.smallest ≡ []) × (file.largest ≡ []) };

    fn default() -> FileMetaData {
        FileMetaData {
            allowed_seeks: 0,
            num: 0,
            size: 0,
            smallest: Bytes::new(),
            largest: Bytes::new(),
        }
    }
}

/// What a look-up finds of a key.
#[derive(Clone, Copy, Debug, Drop, PartialEq)]
pub enum Lookup<V> {
    /// The key has this value.
    Value(V),
    /// The key was deleted.
    Deleted,
    /// There is no entry of the key.
    Absent,
}

impl<V> Lookup<V> {
    /// Whether there is no entry of the key.
    pub fn is_absent(&self) -> bool
        ensures { result ≡ is_absent self.now }
    {
        match self {
            Lookup::Absent => true,
            _ => false,
        }
    }

    /// The value, or none if the key was deleted or has no entry.
    pub fn into_value(self) -> Option<V>
    where
        V: Drop,
        ensures { result ≡ value_found self }
    {
        match self {
            Lookup::Value(value) => Some(value),
            _ => None,
        }
    }
}

/// A walk over a list of pairs of a key and a value, which no call changes. An iterator is at one
/// of the pairs or at no position, as a new one is. `advance`, `prev`, the three seeks and `next`
/// move it. A move that fails leaves no position, and the walk can go on from there.
pub trait LdbIterator {
    // the list
    ghost pairs: { Self → List Pair };

    // the index of the current pair in the list
    ghost position: { Self → Option ℕ };

    // the order of keys in which it seeks
    ghost order: { Self → List ℕ → List ℕ → Ordering };

    // the errors of a move that began and ended so
    ghost fails: { Self → Self → Status → Type 0 };

    /// Moves to the next pair, from no position to the first, and from the last to no position.
    /// Returns whether it is at a pair.
    fn advance(&mut self) -> Result<bool>
        ensures keeps { SameWalk pairs order fails self.old self.new }
        ensures ok { OnOk result (position self.new
            ≡ next_position (pairs self.old) (position self.old)) }
        ensures valid { IfOk result (λ is_valid. is_valid ≡ is_some (position self.new)) }
        ensures err { OnErr result (position self.new ≡ None) }
        ensures cause { IfErr result (fails self.old self.new) };

    /// Moves to the pair before, and from the first or from no position to no position.
    /// Returns whether it is at a pair.
    fn prev(&mut self) -> Result<bool>
        ensures keeps { SameWalk pairs order fails self.old self.new }
        ensures ok { OnOk result (position self.new ≡ previous_position (position self.old)) }
        ensures valid { IfOk result (λ is_valid. is_valid ≡ is_some (position self.new)) }
        ensures err { OnErr result (position self.new ≡ None) }
        ensures cause { IfErr result (fails self.old self.new) };

    /// Moves to the first pair whose key is at or after `key`, or to no position where all are
    /// before it.
    fn seek(&mut self, key: &[u8]) -> Result<()>
        ensures keeps { SameWalk pairs order fails self.old self.new }
        ensures ok { OnOk result (position self.new
            ≡ seek_position (order self.old) (pairs self.old) key.now) }
        ensures err { OnErr result (position self.new ≡ None) }
        ensures cause { IfErr result (fails self.old self.new) };

    /// Moves to the last pair, or to no position in an empty list.
    fn seek_to_last(&mut self) -> Result<()>
        ensures keeps { SameWalk pairs order fails self.old self.new }
        ensures ok { OnOk result (position self.new ≡ last_position (pairs self.old)) }
        ensures err { OnErr result (position self.new ≡ None) }
        ensures cause { IfErr result (fails self.old self.new) };

    /// Moves to the first pair, or to no position in an empty list.
    fn seek_to_first(&mut self) -> Result<()>
        ensures keeps { SameWalk pairs order fails self.old self.new }
        ensures ok { OnOk result (position self.new ≡ position_within (pairs self.old) 0) }
        ensures err { OnErr result (position self.new ≡ None) }
        ensures cause { IfErr result (fails self.old self.new) }
    {
        self.reset();
        self.advance()?;
        Ok(())
    }

    /// Moves as `advance` does, and returns a copy of the pair that it is then at.
    fn next(&mut self, alloc: Global) -> Result<Option<(Vec<u8>, Vec<u8>)>>
        ensures keeps { SameWalk pairs order fails self.old self.new }
        ensures ok { OnOk result (position self.new
            ≡ next_position (pairs self.old) (position self.old)) }
        ensures pair { IfOk result (λ copied. copied_pair copied
            ≡ pair_at (pairs self.new) (position self.new)) }
        ensures err { OnErr result (position self.new ≡ None) }
        ensures cause { IfErr result (λ status.
            fails self.old self.new status ⊎ IsOutOfMemory status) }
    {
        if !self.advance()? {
            return Ok(None);
        }
        let pair = copy_pair(alloc, self.current());
        if pair.is_err() {
            self.reset();
        }
        pair
    }

    /// The key and the value of the current pair, borrowed until the iterator moves or ends.
    fn current(&self) -> Option<(&[u8], &[u8])>
        ensures { pair_of result ≡ pair_at (pairs self.now) (position self.now) };

    /// Moves to no position.
    fn reset(&mut self)
        ensures keeps { SameWalk pairs order fails self.old self.new }
        ensures reset { position self.new ≡ None };

    /// Whether it is at a pair.
    fn valid(&self) -> bool
        ensures { result ≡ is_some (position self.now) };

    // the list has its position, so a valid iterator has a current pair
    ghost in_range: { (it : Self) → IsPosition (pairs it) (position it) };
}

/// A copy of the pair that an iterator is at.
pub fn current_key_val<I: LdbIterator>(alloc: Global, it: &I) -> Result<Option<(Vec<u8>, Vec<u8>)>>
    ensures pair { IfOk result (λ copied. copied_pair copied
        ≡ pair_at (I.pairs it.now) (I.position it.now)) }
    ensures cause { IfErr result IsOutOfMemory }
{
    copy_pair(alloc, it.current())
}

/// A copy of a pair, if there is one.
pub fn copy_pair(alloc: Global, pair: Option<(&[u8], &[u8])>) -> Result<Option<(Vec<u8>, Vec<u8>)>>
    ensures ok { IfOk result (λ copied. copied_pair copied ≡ pair_of pair.entry) }
    ensures cause { IfErr result IsOutOfMemory }
{
    match pair {
        None => Ok(None),
        Some((key, value)) => Ok(Some((key.to_vec(alloc)?, value.to_vec(alloc)?))),
    }
}
