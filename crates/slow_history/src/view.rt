//! The view of entries at a sequence, and the value of a key there, by slow functions.
ghost use Rattle.std.specs.Prelude.{◌≡◌, ℕ, List, Option, IfOk, IfErr, map};
ghost use Rattle.std.specs.Option.{option_map};
ghost use Rattle.leveldb_base.specs.Error.{IsOutOfMemory};
ghost use Rattle.leveldb_base.specs.History.{IsView, IsValueAt, RiseAbove};
ghost use Rattle.leveldb_base.proofs.HistoryLemmas.{with_value};
ghost use Rattle.slow_history.specs.View.{borrowed_pairs, borrowed_entries, entry_of};

use leveldb_base::cmp::{Cmp, UserCmp};
use leveldb_base::error::Result;
use leveldb_base::types::SequenceNumber;
use std::alloc::Global;
use std::cmp::Ordering;

/// An entry of a history: a key given a value, or none, which deletes it.
#[derive(Debug, Drop)]
pub struct Entry {
    pub sequence: SequenceNumber,
    pub key: Vec<u8>,
    pub value: Option<Vec<u8>>,
}

/// A key with its value, borrowed.
pub type BorrowedPair<'a> = (&'a [u8], &'a [u8]);

/// The pairs with this value for the key, or with none.
fn put_value<'a, C: Cmp>(
    alloc: Global,
    cmp: &C,
    pairs: &[BorrowedPair<'a>],
    key: &'a [u8],
    value: Option<&'a [u8]>,
) -> Result<Vec<BorrowedPair<'a>>>
    ensures pairs { IfOk result (λ put. borrowed_pairs put.items ≡ with_value (C.cmp cmp.now)
        key.now (option_map (λ bytes. bytes.now) value.entry) (borrowed_pairs pairs.now)) }
    ensures cause { IfErr result IsOutOfMemory }
{
    let mut put = Vec::new(alloc);
    let mut waiting = value;
    for pair in pairs {
        match cmp.cmp(pair.0, key) {
            Ordering::Less => put.push(*pair)?,
            Ordering::Equal => {}
            Ordering::Greater => {
                if let Some(value) = waiting {
                    put.push((key, value))?;
                }
                waiting = None;
                put.push(*pair)?;
            }
        }
    }
    if let Some(value) = waiting {
        put.push((key, value))?;
    }
    Ok(put)
}

/// The value of a key at a sequence, by the entries in their order: that of its newest entry up to
/// there, if it has one.
pub fn look_up<'a>(entries: &[&'a Entry], sequence: SequenceNumber, key: &[u8]) -> Option<&'a [u8]>
    ensures { RiseAbove 0 (borrowed_entries entries.now)
        → IsValueAt (borrowed_entries entries.now) sequence key.now
        (option_map (λ bytes. bytes.now) result) }
{
    let mut found = None;
    for entry in entries {
        if entry.sequence <= sequence && entry.key.as_slice() == key {
            found = lent_value(entry);
        }
    }
    found
}

/// What the entry gives its key.
fn lent_value(entry: &Entry) -> Option<&[u8]>
    ensures { option_map (λ bytes. bytes.now) result ≡ (entry_of entry.now).value }
{
    match &entry.value {
        Some(value) => Some(value.as_slice()),
        None => None,
    }
}

/// The view of entries in their order, at a sequence: for each key its newest value up to there,
/// sorted by key. It takes time that grows with the square of the entries: a yardstick for tests,
/// and no part of a store.
pub fn view_of<'a, C: UserCmp>(
    alloc: Global,
    cmp: &C,
    entries: &[&'a Entry],
    sequence: SequenceNumber,
) -> Result<Vec<BorrowedPair<'a>>>
    ensures view { IfOk result (λ pairs. RiseAbove 0 (borrowed_entries entries.now)
        → IsView (C.cmp cmp.now) (borrowed_entries entries.now) sequence
        (borrowed_pairs pairs.items)) }
    ensures cause { IfErr result IsOutOfMemory }
{
    let mut pairs = Vec::new(alloc);
    for entry in entries {
        if entry.sequence <= sequence {
            pairs = put_value(
                alloc,
                cmp,
                pairs.as_slice(),
                entry.key.as_slice(),
                lent_value(entry),
            )?;
        }
    }
    Ok(pairs)
}
