//! Moves of an iterator over a view, and where they lead, by slow functions.
ghost use Rattle.std.specs.Prelude.{◌≡◌, ◌↔◌, ℕ, None, IsTrue};
ghost use Rattle.leveldb_base.specs.Types.{count_before, position_within, pair_at, pair_of};
ghost use Rattle.slow_history.specs.View.{borrowed_pairs};
ghost use Rattle.slow_history.specs.Walk.{position_after, IsLanding, LeadTo};

use crate::view::BorrowedPair;
use leveldb_base::cmp::Cmp;
use std::cmp::Ordering;

/// A move of an iterator.
#[derive(Clone, Copy, Debug)]
pub enum Move<'a> {
    First,
    Next,
    Prev,
    /// To the first key that is this one or comes after it.
    Seek(&'a [u8]),
}

/// Where a move led.
#[derive(Clone, Copy, Debug)]
pub enum Landing<'a> {
    /// To this key, with its value.
    At(&'a [u8], &'a [u8]),
    /// To no position.
    Nowhere,
    /// It failed, and left no position.
    Refused,
}

/// The position, if the pairs have it.
fn within(pairs: &[BorrowedPair<'_>], position: usize) -> Option<usize>
    ensures { result ≡ position_within (borrowed_pairs pairs.now) position }
{
    if position < pairs.len() {
        Some(position)
    } else {
        None
    }
}

/// How many keys at the front come before this one.
fn count_of_lower<C: Cmp>(cmp: &C, pairs: &[BorrowedPair<'_>], key: &[u8]) -> usize
    ensures { result ≡ count_before (C.cmp cmp.now) key.now (borrowed_pairs pairs.now) }
{
    let mut count = 0;
    for pair in pairs {
        if cmp.cmp(pair.0, key) != Ordering::Less {
            return count;
        }
        count += 1;
    }
    count
}

/// The position to which a move leads.
fn moved<C: Cmp>(
    cmp: &C,
    pairs: &[BorrowedPair<'_>],
    position: Option<usize>,
    one: &Move<'_>,
) -> Option<usize>
    ensures { result ≡ position_after (C.cmp cmp.now) (borrowed_pairs pairs.now) position one.now }
{
    match one {
        Move::First => within(pairs, 0),
        Move::Next => match position {
            None => within(pairs, 0),
            Some(at) if at < pairs.len() => within(pairs, at + 1),
            Some(_) => None,
        },
        Move::Prev => match position {
            Some(at) if at > 0 => Some(at - 1),
            _ => None,
        },
        Move::Seek(key) => within(pairs, count_of_lower(cmp, pairs, key)),
    }
}

/// The pair at a position.
fn pair_there<'a>(pairs: &[BorrowedPair<'a>], position: Option<usize>) -> Option<BorrowedPair<'a>>
    ensures { pair_of result ≡ pair_at (borrowed_pairs pairs.now) position }
{
    match position {
        Some(at) if at < pairs.len() => Some(pairs[at]),
        _ => None,
    }
}

/// Whether a move that leads to this position may have led there.
fn is_landing(pairs: &[BorrowedPair<'_>], position: Option<usize>, landing: &Landing<'_>) -> bool
    ensures { IsTrue result ↔ IsLanding (borrowed_pairs pairs.now) position landing.now }
{
    match landing {
        Landing::At(key, value) => match pair_there(pairs, position) {
            Some(pair) => pair.0 == *key && pair.1 == *value,
            None => false,
        },
        Landing::Nowhere => position.is_none(),
        Landing::Refused => true,
    }
}

/// Whether these moves over the pairs, from no position on, may have led there.
pub fn is_walk<C: Cmp>(
    cmp: &C,
    pairs: &[BorrowedPair<'_>],
    moves: &[Move<'_>],
    landings: &[Landing<'_>],
) -> bool
    ensures { IsTrue result
        ↔ LeadTo (C.cmp cmp.now) (borrowed_pairs pairs.now) None moves.now landings.now }
{
    if moves.len() != landings.len() {
        return false;
    }
    let mut position = None;
    for (at, one) in moves.iter().enumerate() {
        let next = moved(cmp, pairs, position, one);
        if !is_landing(pairs, next, &landings[at]) {
            return false;
        }
        position = match landings[at] {
            Landing::Refused => None,
            _ => next,
        };
    }
    true
}
