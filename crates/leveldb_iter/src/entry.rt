//! The entry that a walk over internal keys is at.
// LevelDB: db/db_iter.cc, DBIter::ParseKey
ghost use Rattle.std.specs.Prelude.{◌≡◌, ◌+◌, ◌-◌, ◌^◌, IfOk, IfErr, length, min};
ghost use Rattle.leveldb_base.specs.Error.{IsOutOfMemory};
ghost use Rattle.leveldb_iter.specs.DbIterSteps.{IsEntryRead, IsUntagged};

use crate::walk::Walk;
use leveldb_base::error::{Result, StatusCode, err};
use leveldb_base::key_types::{TAG_LEN, UserKey, ValueType, parse_internal_key};
use leveldb_base::types::SequenceNumber;
use std::alloc::Global;

// What a scan forward sees of the entry that it is at.
#[derive(Clone, Copy)]
pub(crate) enum Seen {
    // No entry.
    End,
    // The newest of its key, with a value.
    Shown,
    // Another, and whether there is a key to skip after it.
    Passed(bool),
}

// The type, the number, the user's key and the value of an entry.
type EntryRead<'a> = (ValueType, SequenceNumber, UserKey<'a>, &'a [u8]);

// The entry that the walk is at, if it is at a pair, whose key is then to have a tag.
#[inline(always)]
pub(crate) fn entry_at<E, T, M: Walk<E, T>>(
    alloc: Global,
    walk: &M,
) -> Result<Option<EntryRead<'_>>>
    ensures ok { IfOk result (IsEntryRead (M.here walk.now)) }
    ensures cause { IfErr result (IsUntagged (M.here walk.now)) }
{
    let Some((key, value)) = walk.current() else {
        return Ok(None);
    };
    if key.len() < TAG_LEN {
        return err(alloc, StatusCode::Corruption, "a key has no tag");
    }
    let (kind, sequence, user) = parse_internal_key(key);
    Ok(Some((kind, sequence, user, value)))
}

// A count of bytes once those of an entry are counted too: its key, with the tag, and its value. At
// its greatest it stays.
#[inline]
pub(crate) fn with_entry(count: u64, user: UserKey<'_>, value: &[u8]) -> u64
    ensures { result ≡ min (count + length user.now + 8 + length value.now) (2 ^ 64 - 1) }
{
    count
        .saturating_add(user.len() as u64)
        .saturating_add(TAG_LEN as u64)
        .saturating_add(value.len() as u64)
}

// Replaces the bytes.
#[inline(always)]
pub(crate) fn keep(target: &mut Vec<u8>, bytes: &[u8]) -> Result<()>
    ensures ok { IfOk result (λ _. target.new.items ≡ bytes.now) }
    ensures cause { IfErr result IsOutOfMemory }
{
    target.clear();
    target.extend_from_slice(bytes)?;
    Ok(())
}
