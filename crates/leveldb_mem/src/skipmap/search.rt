//! Paths to positions among a map's keys.
// LevelDB: db/skiplist.h, SkipList::FindGreaterOrEqual
ghost use Rattle.std.specs.Prelude.{◌≡◌, ◌+◌, ◌-◌, ◌⊎◌, ◌↔◌, ◌<◌, ◌≤◌, IsTrue, ℕ, Bool, true, List};
ghost use Rattle.std.specs.Prelude.{[]};
ghost use Rattle.std.specs.Prelude.{◌∷◌, length, take};
ghost use Rattle.std.specs.Bool.{OnTrue, OnFalse};
ghost use Rattle.std.specs.Ordering.{is_lt};
ghost use Rattle.std.specs.declared.cmp.Ordering.TheVariants.{Less, Equal};
ghost use Rattle.leveldb_base.specs.Types.{count_before};
ghost use Rattle.leveldb_mem.specs.Placed.{rank, place_of, IsPathTo};
ghost use Rattle.leveldb_mem.specs.Searching.{key_at, count_while, IsParted};
ghost use Rattle.leveldb_mem.specs.SkipMap.{IsSorted, HasKey, IsGap};

use crate::skipmap::placed::{Path, PlacedPairs};
use crate::skipmap::towers::MAX_HEIGHT;
use leveldb_base::cmp::Cmp;

/// Something that keys come before or don't.
pub(crate) trait Probe {
    // whether a key comes before it
    ghost passes: { Self → List ℕ → Bool };

    fn is_after(&self, key: &[u8]) -> bool
        ensures { result ≡ passes self.now key.now };
}

/// A key in the order of a comparator.
#[derive(Drop)]
pub(crate) struct AtKey<'a, C> {
    pub(crate) cmp: &'a C,
    pub(crate) key: &'a [u8],
}

impl<'a, C: Cmp> Probe for AtKey<'a, C> {
    ghost passes = { λ it key. is_lt (C.cmp it.cmp.now key it.key.now) };

    #[inline]
    fn is_after(&self, key: &[u8]) -> bool {
        self.cmp.cmp(key, self.key).is_lt()
    }
}

/// The path to the position after the keys before this one. A key that isn't accepted may have no
/// one position in the order, so it is looked for from the front on.
#[inline]
pub(crate) fn path_before<C: Cmp>(cmp: &C, pairs: &PlacedPairs, key: &[u8]) -> Path
    requires some { 0 < length pairs.now.order }
    requires sorted { IsSorted (C.accepts cmp.now) (C.cmp cmp.now) pairs.now.pairs }
    ensures place { place_of pairs.now.order result
        ≡ count_before (C.cmp cmp.now) key.now pairs.now.pairs }
    ensures nodes { length pairs.now.order ≡ length pairs.now.pairs }
{
    let probe = AtKey { cmp, key };
    if cmp.accepts(key) {
        pairs.path_to(&probe, MAX_HEIGHT)
    } else {
        pairs.path_to(&probe, 1)
    }
}

// Whether all keys are before something.
#[inline]
fn is_last_before<P: Probe>(pairs: &PlacedPairs, path: &Path, probe: &P) -> bool
    requires last { place_of pairs.now.order path.now ≡ length pairs.now.pairs }
    ensures { IsTrue result ↔ ((length pairs.now.pairs ≡ 0)
        ⊎ (P.passes probe.now (key_at pairs.now.pairs (length pairs.now.pairs - 1)) ≡ true)) }
{
    pairs.len() == 0 || probe.is_after(pairs.key(path[0] as usize))
}

/// The path to the position after the keys that come before something, where all that do are at
/// the front. A position after all keys, as each is where they come in order, costs one comparison.
#[inline]
pub(crate) fn path_for<P: Probe>(pairs: &PlacedPairs, probe: &P) -> Path
    requires { IsParted (P.passes probe.now) pairs.now.pairs }
    ensures place { place_of pairs.now.order result
        ≡ count_while (P.passes probe.now) pairs.now.pairs }
    ensures path { IsPathTo pairs.now.words result 12
        (take (place_of pairs.now.order result) pairs.now.order) }
{
    let end = pairs.path_to_end();
    if is_last_before(pairs, &end, probe) {
        return end;
    }
    pairs.path_to(probe, MAX_HEIGHT)
}

/// Whether a key is Equal to this one, where the path is to the position after those before it.
/// If none is, the key comes between the others there.
#[inline]
pub(crate) fn is_taken<C: Cmp>(cmp: &C, pairs: &PlacedPairs, path: &Path, key: &[u8]) -> bool
    requires sorted { IsSorted (C.accepts cmp.now) (C.cmp cmp.now) pairs.now.pairs }
    requires accepted { C.accepts cmp.now key.now ≡ true }
    requires place { place_of pairs.now.order path.now
        ≡ count_before (C.cmp cmp.now) key.now pairs.now.pairs }
    ensures taken { OnTrue result (HasKey (C.cmp cmp.now) pairs.now.pairs key.now) }
    ensures gap { OnFalse result (IsGap (C.accepts cmp.now) (C.cmp cmp.now) pairs.now.pairs key.now
        (place_of pairs.now.order path.now)) }
{
    pairs.len() > 0 && is_equal_after(cmp, pairs, path, key)
}

// Whether the key after a path is Equal to this one.
#[inline]
fn is_equal_after<C: Cmp>(cmp: &C, pairs: &PlacedPairs, path: &Path, key: &[u8]) -> bool
    requires some { 0 < length pairs.now.order }
    requires within { place_of pairs.now.order path.now ≤ length pairs.now.order }
    ensures { IsTrue result ↔ ((place_of pairs.now.order path.now < length pairs.now.pairs)
        × (C.cmp cmp.now (key_at pairs.now.pairs (place_of pairs.now.order path.now)) key.now
        ≡ Equal)) }
{
    let next = pairs.after(path[0] as usize);
    next != 0 && cmp.cmp(pairs.key(next), key).is_eq()
}
