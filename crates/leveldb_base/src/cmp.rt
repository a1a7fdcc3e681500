//! Comparators: the order of keys, and short keys between two of them.
// LevelDB: util/comparator.cc
ghost use Rattle.std.specs.Prelude.{◌≡◌, ◌≢◌, ◌+◌, ◌<◌, ℕ, Bool, true, List, IfOk, IfErr, IfSome, length, slice_index, slice_set};
ghost use Rattle.std.specs.Option.{option_map};
ghost use Rattle.std.specs.declared.cmp.Ordering.{Ordering};
ghost use Rattle.std.specs.declared.cmp.Ordering.TheVariants.{Equal, Greater};
ghost use Rattle.leveldb_base.specs.Error.{IsOutOfMemory};
ghost use Rattle.leveldb_base.specs.Cmp.{IsPreorderOn, IsSeparator, IsSuccessor, bytewise, bytewise_separator, bytewise_successor, raised_between, raised_last, raised_first, raised_at, lengthened, raised_or_lengthened};
ghost use Rattle.leveldb_base.specs.CmpLaws.{bytewise_preorder, bytewise_exact, bytewise_separates, bytewise_succeeds};

use crate::cmp::words::cmp_by_words;
use crate::error::Result;
use std::alloc::Global;
use std::cmp::Ordering;

mod internal;
mod words;

pub use internal::{InternalKeyCmp, MemtableKeyCmp};

/// An order on the keys that it accepts, a total preorder there, by which a store sorts its
/// entries. Every method takes any bytes; the laws are about accepted keys.
pub trait Cmp {
    // whether it accepts a key
    ghost accepts: { Self → List ℕ → Bool };

    // how one key is to another
    ghost cmp: { Self → List ℕ → List ℕ → Ordering };

    // the key that separates two
    ghost shortest_sep: { Self → List ℕ → List ℕ → List ℕ };

    // the key that follows one
    ghost short_succ: { Self → List ℕ → List ℕ };

    // its name
    ghost name: { Self → List ℕ };

    /// Whether the key is one that the order is meant for.
    fn accepts(&self, key: &[u8]) -> bool
        ensures { result ≡ accepts self.now key.now };

    /// How `a` is to `b`: before it, equal to it or after it.
    fn cmp(&self, a: &[u8], b: &[u8]) -> Ordering
        ensures { result ≡ cmp self.now a.now b.now };

    /// A key at or after `from`, before `to` where `from` is, and `from` itself where both are the
    /// same bytes, for accepted keys with `from` at or before `to`. It is meant to be short.
    fn find_shortest_sep(&self, alloc: Global, from: &[u8], to: &[u8]) -> Result<Vec<u8>>
        ensures ok { IfOk result (λ sep. sep.items ≡ shortest_sep self.now from.now to.now) }
        ensures cause { IfErr result IsOutOfMemory };

    /// A key at or after an accepted key. It is meant to be short.
    fn find_short_succ(&self, alloc: Global, key: &[u8]) -> Result<Vec<u8>>
        ensures ok { IfOk result (λ succ. succ.items ≡ short_succ self.now key.now) }
        ensures cause { IfErr result IsOutOfMemory };

    /// The order's name, by which a store knows that it is opened with the order that it was made
    /// with.
    fn id(&self) -> &'static str
        ensures { result.now ≡ name self.now };

    // the order is a total preorder on accepted keys
    ghost preorder: { (c : Self) → IsPreorderOn (accepts c) (cmp c) };

    // its separator of accepted keys is between them
    ghost separates: { (c : Self) (a b : List ℕ) → accepts c a ≡ true → accepts c b ≡ true
        → cmp c a b ≢ Greater → IsSeparator (accepts c) (cmp c) a b (shortest_sep c a b) };

    // its successor of an accepted key is at or after it
    ghost succeeds: { (c : Self) (a : List ℕ) → accepts c a ≡ true
        → IsSuccessor (accepts c) (cmp c) a (short_succ c a) };
}

/// A comparator that accepts all bytes, and by which different keys are never equal.
pub trait UserCmp: Cmp {
    // every key is accepted
    ghost accepts_all: { (c : Self) (key : List ℕ) → Self.accepts c key ≡ true };

    // equal keys are the same bytes
    ghost exact: { (c : Self) (a b : List ℕ) → Self.cmp c a b ≡ Equal → a ≡ b };
}

/// A reference to a comparator is one too.
impl<C: Cmp> Cmp for &C {
    ghost accepts = { λ c. C.accepts c.now };

    ghost cmp = { λ c. C.cmp c.now };

    ghost shortest_sep = { λ c. C.shortest_sep c.now };

    ghost short_succ = { λ c. C.short_succ c.now };

    ghost name = { λ c. C.name c.now };

    fn accepts(&self, key: &[u8]) -> bool {
        (**self).accepts(key)
    }

    fn cmp(&self, a: &[u8], b: &[u8]) -> Ordering {
        (**self).cmp(a, b)
    }

    fn find_shortest_sep(&self, alloc: Global, from: &[u8], to: &[u8]) -> Result<Vec<u8>> {
        (**self).find_shortest_sep(alloc, from, to)
    }

    fn find_short_succ(&self, alloc: Global, key: &[u8]) -> Result<Vec<u8>> {
        (**self).find_short_succ(alloc, key)
    }

    fn id(&self) -> &'static str {
        (**self).id()
    }

    ghost preorder = { λ c. C.preorder c.now };

    ghost separates = { λ c. C.separates c.now };

    ghost succeeds = { λ c. C.succeeds c.now };
}

impl<C: UserCmp> UserCmp for &C {
    ghost accepts_all = { λ c. C.accepts_all c.now };

    ghost exact = { λ c. C.exact c.now };
}

/// LevelDB's order: by bytes, and a prefix before what it is a prefix of.
#[derive(Clone, Copy, Debug)]
pub struct DefaultCmp;

impl Cmp for DefaultCmp {
    ghost use Rattle.std.specs.Prelude.{codes};

    ghost accepts = { λ _ _. true };

    ghost cmp = { λ _. bytewise };

    ghost shortest_sep = { λ _. bytewise_separator };

    ghost short_succ = { λ _. bytewise_successor };

    ghost name = { λ _. codes "leveldb.BytewiseComparator" };

    fn accepts(&self, _key: &[u8]) -> bool {
        true
    }

    #[inline]
    fn cmp(&self, a: &[u8], b: &[u8]) -> Ordering {
        cmp_by_words(a, b)
    }

    fn find_shortest_sep(&self, alloc: Global, from: &[u8], to: &[u8]) -> Result<Vec<u8>> {
        if from == to {
            return Ok(Vec::from_slice(alloc, from)?);
        }
        match index_between(from, to) {
            Some(i) => raised_and_cut(alloc, from, i),
            None => raised_or_lengthened(alloc, from, to),
        }
    }

    fn find_short_succ(&self, alloc: Global, key: &[u8]) -> Result<Vec<u8>> {
        match first_index(key) {
            Some(i) => raised_and_cut(alloc, key, i),
            None => {
                let mut succ = Vec::with_capacity(alloc, key.len() + 1)?;
                succ.extend_from_slice(key)?;
                succ.push(0xff)?;
                Ok(succ)
            }
        }
    }

    fn id(&self) -> &'static str {
        "leveldb.BytewiseComparator"
    }

    ghost preorder = { λ _. bytewise_preorder };

    ghost separates = { λ _ a b _ _ h. bytewise_separates a b h };

    ghost succeeds = { λ _ a _. bytewise_succeeds a };
}

impl UserCmp for DefaultCmp {
    ghost use Rattle.std.specs.Prelude.{refl};

    ghost accepts_all = { λ _ _. refl };

    ghost exact = { λ _. bytewise_exact };
}

// The first index whose byte can be raised and stay below the other key's.
fn index_between(from: &[u8], to: &[u8]) -> Option<usize>
    ensures index { IfSome result (λ i. (i < length from.now) × (slice_index from.now i < 0xff)) }
    ensures raised { raised_between from.now to.now ≡ option_map (raised_at from.now) result }
{
    from.iter()
        .zip(to)
        .position(|(a, b)| u16::from(*a) + 1 < u16::from(*b))
}

// The first index whose byte isn't 0xff.
fn first_index(key: &[u8]) -> Option<usize>
    ensures index { IfSome result (λ i. (i < length key.now) × (slice_index key.now i < 0xff)) }
    ensures raised { raised_first key.now ≡ option_map (raised_at key.now) result }
{
    key.iter().position(|b| *b != 0xff)
}

// The last index whose byte isn't 0xff.
fn last_index(key: &[u8]) -> Option<usize>
    ensures index { IfSome result (λ i. (i < length key.now) × (slice_index key.now i < 0xff)) }
    ensures raised { raised_last key.now
        ≡ option_map (λ i. slice_set key.now i (slice_index key.now i + 1)) result }
{
    key.iter().rposition(|b| *b != 0xff)
}

// The key up to an index, with the byte there raised.
fn raised_and_cut(alloc: Global, key: &[u8], i: usize) -> Result<Vec<u8>>
    requires index { i < length key.now }
    requires low { slice_index key.now i < 0xff }
    ensures ok { IfOk result (λ cut. cut.items ≡ raised_at key.now i) }
    ensures cause { IfErr result IsOutOfMemory }
{
    let mut cut = Vec::from_slice(alloc, &key[..=i])?;
    cut[i] += 1;
    Ok(cut)
}

// The key with its last byte that isn't 0xff raised where that is before the other key, else
// lengthened.
fn raised_or_lengthened(alloc: Global, from: &[u8], to: &[u8]) -> Result<Vec<u8>>
    ensures ok { IfOk result (λ sep. sep.items ≡ raised_or_lengthened from.now to.now) }
    ensures cause { IfErr result IsOutOfMemory }
{
    let mut sep = Vec::with_capacity(alloc, from.len() + 1)?;
    sep.extend_from_slice(from)?;
    let Some(i) = last_index(from) else {
        return lengthened(sep, to);
    };
    sep[i] += 1;
    if sep.as_slice().cmp(to).is_lt() {
        return Ok(sep);
    }
    sep[i] = from[i];
    lengthened(sep, to)
}

// The key with a zero byte after it where that is before the other key, else the key.
fn lengthened(key: Vec<u8>, to: &[u8]) -> Result<Vec<u8>>
    ensures ok { IfOk result (λ sep. sep.items ≡ lengthened key.items to.now) }
    ensures cause { IfErr result IsOutOfMemory }
{
    let mut sep = key;
    sep.push(0)?;
    if sep.as_slice().cmp(to).is_ge() {
        sep.pop();
    }
    Ok(sep)
}
