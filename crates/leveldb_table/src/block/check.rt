//! The check of a block's bytes, in one pass.
ghost use Rattle.std.specs.Prelude.{◌≡◌, ◌↔◌, All, ◌+◌, ◌*◌, ◌<◌, ◌≤◌, true, length, MatchOption, IsSome, List, [], ◌∷◌, ◌++◌, take, IfOk, OnOk, IfErr, IsTrue};
ghost use Rattle.leveldb_base.specs.Error.{IsOutOfMemory};
ghost use Rattle.leveldb_env.specs.FilterBlock.{numbers_in};
ghost use Rattle.leveldb_table.specs.Block.{key_of, SharesFrom, RiseAfter};
ghost use Rattle.leveldb_table.specs.BlockCheck.{begins, points_after, entry_in, key_before, CanFollow, count_at_end, FindsEntries};

use crate::block::entry::{EntryParts, begins_at, take_entry};
use byteorder::{ByteOrder, LittleEndian};
use leveldb_base::cmp::Cmp;
use leveldb_base::error::Result;
use std::alloc::Global;
use std::mem;

// The room that a key's buffer begins with: most keys fit.
const KEY_ROOM: usize = 64;

// Whether the entry shares no more than it may with the key before it.
#[inline]
fn shares_within(first: bool, restart: bool, key: &[u8], entry: &EntryParts<'_>) -> bool
    ensures { IsTrue result ↔ SharesFrom (key_before first key.now) (entry_in restart entry.now) }
{
    if first || restart {
        restart && entry.shared == 0
    } else {
        entry.shared <= key.len()
    }
}

// Whether the next key is after the one before it.
#[inline]
fn rises<C: Cmp>(cmp: &C, first: bool, key: &[u8], next: &[u8]) -> bool
    ensures { IsTrue result
        ↔ RiseAfter (C.cmp cmp.now) (key_before first key.now) ((next.now, []) ∷ []) }
{
    first || cmp.cmp(key, next).is_lt()
}

// Whether it accepts this key too.
#[inline]
fn accepts_too<C: Cmp>(cmp: &C, accepted: bool, key: &[u8]) -> bool
    ensures { result ≡ true → (accepted ≡ true) × (C.accepts cmp.now key.now ≡ true) }
{
    accepted && cmp.accepts(key)
}

// The restart points that are left after an entry, which begins at the first of them or not.
#[inline]
fn skip_point(points: &[u8], restart: bool) -> &[u8]
    requires { restart ≡ true → 4 ≤ length points.now }
    ensures { numbers_in result.now ≡ points_after restart (numbers_in points.now) }
{
    if restart { &points[4..] } else { points }
}

// What the restart points tell of a block without entries.
fn check_empty(points: &[u8]) -> Option<bool>
    ensures some { IsSome result
        → (begins 0 (numbers_in points.now) ≡ true) × (length points.now < 8) }
    ensures none { begins 0 (numbers_in points.now) ≡ true → length points.now < 8
        → IsSome result }
{
    if begins_at(points, 0) && points.len() < 8 {
        Some(true)
    } else {
        None
    }
}

// Makes it the entry's key.
#[inline(always)]
fn put_key(next: &mut Vec<u8>, key: &[u8], entry: &EntryParts<'_>) -> Result<()>
    ensures ok { OnOk result
        (next.new.items ≡ take entry.now.shared key.now ++ entry.now.rest.now) }
    ensures memory { IfErr result IsOutOfMemory }
{
    let shared = entry.shared.min(key.len());
    next.clear();
    next.extend_from_slice(&key[..shared])?;
    next.extend_from_slice(entry.rest)?;
    Ok(())
}

// Makes the entry's key the last one, and returns whether the entry may be after the key before
// it. A key that shares nothing is compared where it is in the block; any other is put together in
// `spare`, which then changes places with `key`.
#[inline(always)]
fn take_key<C: Cmp>(
    cmp: &C,
    first: bool,
    restart: bool,
    entry: &EntryParts<'_>,
    key: &mut Vec<u8>,
    spare: &mut Vec<u8>,
) -> Result<bool>
    ensures follows { IfOk result (λ follows. IsTrue follows ↔ CanFollow (C.cmp cmp.now)
        (key_before first key.old.items) (entry_in restart entry.now)) }
    ensures key { IfOk result (λ follows. follows ≡ true → key.new.items
        ≡ key_of (key_before first key.old.items) (entry_in restart entry.now)) }
    ensures memory { IfErr result IsOutOfMemory }
{
    if !shares_within(first, restart, key.as_slice(), entry) {
        return Ok(false);
    }
    if entry.shared == 0 {
        let follows = rises(cmp, first, key.as_slice(), entry.rest);
        key.clear();
        key.extend_from_slice(entry.rest)?;
        return Ok(follows);
    }
    put_key(spare, key.as_slice(), entry)?;
    mem::swap(key, spare);
    Ok(rises(cmp, first, spare.as_slice(), key.as_slice()))
}

/// Where the entries of a block end and its restart points begin; `None` where it is too short for
/// those that it counts.
pub(crate) fn entries_end(bytes: &[u8]) -> Option<usize>
    ensures bytes { All (λ byte. byte < 256) bytes.now }
    ensures limit { MatchOption result (length bytes.now < 4 * count_at_end bytes.now + 4)
        (λ limit. limit + (4 * count_at_end bytes.now + 4) ≡ length bytes.now) }
{
    let points_end = bytes.len().checked_sub(4)?;
    let count = LittleEndian::read_u32(&bytes[points_end..]);
    points_end.checked_sub(4 * count as usize)
}

/// Looks at the entries and the restart points of a block. `None` where they are none; else
/// whether `cmp` accepts all their keys.
pub(crate) fn check_parts<C: Cmp>(
    alloc: Global,
    cmp: &C,
    entries: &[u8],
    points: &[u8],
) -> Result<Option<bool>>
    ensures found { IfOk result
        (FindsEntries (C.accepts cmp.now) (C.cmp cmp.now) entries.now (numbers_in points.now)) }
    ensures memory { IfErr result IsOutOfMemory }
{
    if entries.is_empty() {
        return Ok(check_empty(points));
    }
    let mut key = Vec::with_capacity(alloc, KEY_ROOM)?;
    let mut spare = Vec::with_capacity(alloc, KEY_ROOM)?;
    let mut left = entries;
    let mut points_left = points;
    let mut first = true;
    let mut accepted = true;
    while !left.is_empty() {
        let Some((entry, after)) = take_entry(left) else {
            return Ok(None);
        };
        let restart = begins_at(points_left, entries.len() - left.len());
        if !take_key(cmp, first, restart, &entry, &mut key, &mut spare)? {
            return Ok(None);
        }
        accepted = accepts_too(cmp, accepted, key.as_slice());
        first = false;
        left = after;
        points_left = skip_point(points_left, restart);
    }
    if points_left.len() >= 4 {
        return Ok(None);
    }
    Ok(Some(accepted))
}
