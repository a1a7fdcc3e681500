//! A map from keys to values in the order of a comparator.
// LevelDB: db/skiplist.h
ghost use Rattle.std.specs.Prelude.{◌≡◌, ◌⊎◌, ◌+◌, ◌^◌, ◌<◌, ◌≤◌, ◌==◌, true, [], ◌++◌, length};
ghost use Rattle.std.specs.Prelude.{OnOk, OnErr, IfErr, Some, None, slice_get};
ghost use Rattle.std.specs.Option.{ForSome};
ghost use Rattle.leveldb_base.specs.Cmp.{memtable_accepts};
ghost use Rattle.leveldb_base.specs.KeyTypes.{front_key, user_part, sequence_part, memtable_cmp};
ghost use Rattle.leveldb_base.specs.Types.{seek_position, position_within, previous_position};
ghost use Rattle.leveldb_base.specs.Types.{last_position, pair_at};
ghost use Rattle.leveldb_mem.specs.Placed.{rank, map_memory, FailsToReserve};
ghost use Rattle.leveldb_mem.specs.Searching.{key_at, count_while, IsParted};
ghost use Rattle.leveldb_mem.specs.SkipMap.{IsSorted, HasNode, position_of_node, key_begins};
ghost use Rattle.leveldb_mem.specs.SkipMap.{InsertResult, PutKeyResult};

use crate::memtable::as_of::AsOf;
use crate::skipmap::placed::{HEAD, PlacedPairs};
use crate::skipmap::search::{AtKey, Probe, is_taken, path_before, path_for};
use crate::skipmap::towers::MAX_HEIGHT;
pub use crate::skipmap::towers::tower_height;
use leveldb_base::cmp::{Cmp, MemtableKeyCmp};
use leveldb_base::error::{Result, StatusCode, err};
use leveldb_base::types::{LdbIterator, SequenceNumber};
use rand_core::SeedableRng;
use rand_xoshiro::Xoshiro256PlusPlus;
use std::alloc::Global;
use std::marker::Model;

pub(crate) mod placed;
pub(crate) mod search;
pub(crate) mod towers;

// What the heights of towers are drawn from, so that they are the same in each run.
const SEED: u64 = 0xdeadbeef;

/// Pairs whose keys rise strictly. Each of them is accepted by the comparator, and none is empty.
/// It is a skip list, so a search, an insertion and a step back take a number of comparisons that
/// grows with the logarithm of the number of pairs.
pub struct SkipMap<C: Cmp> {
    cmp: C,
    pairs: PlacedPairs,
    // what the heights of towers are drawn from
    rng: Xoshiro256PlusPlus,
}

impl<C: Cmp + Drop> Drop for SkipMap<C> {
    // One call for whoever drops one, in place of one for each part of it.
    fn drop(self) {
        let SkipMap { cmp, pairs, rng: _ } = self;
        drop(cmp);
        drop(pairs);
    }
}

impl<C: Cmp> Model for SkipMap<C> {
    ghost use Rattle.leveldb_mem.specs.SkipMap.{Held, held_code};

    ghost Value = { Held C };

    ghost coded = { held_code C.code };

    ghost use Rattle.std.specs.Prelude.{◌≡◌, [], length};
    ghost use Rattle.leveldb_mem.specs.SkipMap.{IsSorted};

    ghost view = { λ it. record {
      cmp = it.cmp;
      pairs = it.pairs.pairs;
      nodes = it.pairs.order;
      places = it.pairs.places;
      bytes = it.pairs.bytes;
    } };

    ghost invariant = { λ it. IsSorted (C.accepts it.cmp) (C.cmp it.cmp) it.pairs.pairs
        × (it.pairs.tail ≡ [])
        × (length it.pairs.order ≡ length it.pairs.pairs) };
}

impl<C: Cmp> SkipMap<C> {
    /// An empty map in the order of `cmp`.
    pub fn new(alloc: Global, cmp: C) -> SkipMap<C>
        ensures cmp { result.cmp ≡ cmp }
        ensures pairs { result.pairs ≡ [] }
        ensures places { result.places ≡ 0 }
    {
        SkipMap {
            cmp,
            pairs: PlacedPairs::new(alloc),
            rng: Xoshiro256PlusPlus::seed_from_u64(SEED),
        }
    }

    /// Returns the number of pairs.
    pub fn len(&self) -> usize
        ensures { result ≡ length self.now.pairs }
    {
        self.pairs.len()
    }

    /// Returns whether there are no pairs.
    pub fn is_empty(&self) -> bool
        ensures { result ≡ (length self.now.pairs == 0) }
    {
        self.pairs.len() == 0
    }

    /// Returns whether the first key at or after `key` begins with it.
    pub fn contains(&self, key: &[u8]) -> bool
        ensures { result ≡ key_begins (pair_at self.now.pairs
            (seek_position (C.cmp self.now.cmp) self.now.pairs key.now)) key.now }
    {
        match self.first_at(key) {
            None => false,
            Some(node) => self.pairs.key(node).starts_with(key),
        }
    }

    /// Returns what counts as the map's memory: 128, and for each pair 64 and the lengths of key
    /// and value.
    pub fn approx_memory(&self) -> usize
        ensures { result ≡ map_memory self.now.pairs }
    {
        128 + self.pairs.memory()
    }

    /// Inserts a copy of the pair. Returns `InvalidArgument` if the key is empty, `AlreadyExists`
    /// if it is Equal to a key that is there, and `NotSupported` if the map would grow past its
    /// limit.
    pub fn insert(&mut self, key: &[u8], value: &[u8]) -> Result<()>
        requires { (key.now ≡ []) ⊎ (C.accepts self.old.cmp key.now ≡ true) }
        ensures { InsertResult (C.accepts self.old.cmp) (C.cmp self.old.cmp) self.old
            (key.now, value.now) result self.new }
    {
        let alloc = self.pairs.allocator();
        if key.is_empty() {
            return err(alloc, StatusCode::InvalidArgument, "an empty key");
        }
        let probe = AtKey {
            cmp: &self.cmp,
            key,
        };
        let path = path_for(&self.pairs, &probe);
        if is_taken(&self.cmp, &self.pairs, &path, key) {
            return err(alloc, StatusCode::AlreadyExists, "the key is there");
        }
        self.pairs.reserve(1, key.len() + value.len())?;
        self.pairs.append(key);
        self.pairs.append(value);
        let height = tower_height(&mut self.rng);
        self.pairs.place(&path, key.len(), height);
        Ok(())
    }

    /// A walk over the pairs, which has no position yet.
    pub fn iter<'a>(&'a self) -> SkipMapIter<'a, C>
        ensures pairs { ⟦<SkipMapIter<'a, C> as LdbIterator>⟧.pairs result ≡ self.now.pairs }
        ensures position { ⟦<SkipMapIter<'a, C> as LdbIterator>⟧.position result ≡ None }
        ensures order { ⟦<SkipMapIter<'a, C> as LdbIterator>⟧.order result ≡ C.cmp self.now.cmp }
        ensures sorted { IsSorted (C.accepts self.now.cmp) (C.cmp self.now.cmp) self.now.pairs }
    {
        // This opens the value's invariant for the clause `sorted`.
        let _ = &self.pairs;
        SkipMapIter {
            map: self,
            node: None,
        }
    }

    /// The node of the first key at or after this one.
    #[inline]
    pub(crate) fn first_at(&self, key: &[u8]) -> Option<usize>
        ensures position { position_of_node self.now.nodes result
            ≡ seek_position (C.cmp self.now.cmp) self.now.pairs key.now }
        ensures within { ForSome result (HasNode self.now.nodes self.now.pairs) }
    {
        if self.pairs.len() == 0 {
            return None;
        }
        let path = path_before(&self.cmp, &self.pairs, key);
        as_node(self.pairs.after(path[0] as usize))
    }

    /// The first node.
    #[inline]
    pub(crate) fn first(&self) -> Option<usize>
        ensures position { position_of_node self.now.nodes result
            ≡ position_within self.now.pairs 0 }
        ensures within { ForSome result (HasNode self.now.nodes self.now.pairs) }
    {
        if self.pairs.len() == 0 {
            return None;
        }
        as_node(self.pairs.after(HEAD))
    }

    /// The node after another.
    #[inline]
    pub(crate) fn after(&self, node: usize) -> Option<usize>
        requires { HasNode self.now.nodes self.now.pairs node }
        ensures position { position_of_node self.now.nodes result
            ≡ position_within self.now.pairs (rank self.now.nodes node + 1) }
        ensures within { ForSome result (HasNode self.now.nodes self.now.pairs) }
    {
        as_node(self.pairs.after(node))
    }

    /// The node before another.
    #[inline]
    pub(crate) fn previous(&self, node: usize) -> Option<usize>
        requires { HasNode self.now.nodes self.now.pairs node }
        ensures position { position_of_node self.now.nodes result
            ≡ previous_position (Some (rank self.now.nodes node)) }
        ensures within { ForSome result (HasNode self.now.nodes self.now.pairs) }
    {
        let probe = AtKey {
            cmp: &self.cmp,
            key: self.pairs.key(node),
        };
        let before = self.pairs.path_to(&probe, MAX_HEIGHT)[0] as usize;
        if before == HEAD { None } else { Some(before) }
    }

    /// The last node.
    #[inline]
    pub(crate) fn last(&self) -> Option<usize>
        ensures position { position_of_node self.now.nodes result ≡ last_position self.now.pairs }
        ensures within { ForSome result (HasNode self.now.nodes self.now.pairs) }
    {
        let last = self.pairs.path_to_end()[0] as usize;
        if last == HEAD { None } else { Some(last) }
    }

    /// The comparator.
    #[inline]
    pub(crate) fn comparator(&self) -> &C
        ensures value { result.now ≡ self.now.cmp }
        ensures sorted { IsSorted (C.accepts self.now.cmp) (C.cmp self.now.cmp) self.now.pairs }
    {
        &self.cmp
    }

    /// The node of the first key that doesn't come before something, where all that do are at the
    /// front.
    #[inline]
    pub(crate) fn first_by<P: Probe>(&self, probe: &P) -> Option<usize>
        requires { IsParted (P.passes probe.now) self.now.pairs }
        ensures position { position_of_node self.now.nodes result
            ≡ position_within self.now.pairs (count_while (P.passes probe.now) self.now.pairs) }
        ensures within { ForSome result (HasNode self.now.nodes self.now.pairs) }
    {
        if self.pairs.len() == 0 {
            return None;
        }
        let path = self.pairs.path_to(probe, MAX_HEIGHT);
        as_node(self.pairs.after(path[0] as usize))
    }

    /// The key of a node.
    #[inline]
    pub(crate) fn key(&self, node: usize) -> &[u8]
        requires { HasNode self.now.nodes self.now.pairs node }
        ensures { result.now ≡ key_at self.now.pairs (rank self.now.nodes node) }
    {
        self.pairs.key(node)
    }

    // The pair of a node.
    #[inline]
    #[tactic(auto, using(std::proofs::lemmas::Option::gets))]
    fn pair(&self, node: usize) -> (&[u8], &[u8])
        requires { HasNode self.now.nodes self.now.pairs node }
        ensures { slice_get self.now.pairs (rank self.now.nodes node)
            ≡ Some (result.0.now, result.1.now) }
    {
        self.pairs.pair(node)
    }

    pub(crate) fn allocator(&self) -> Global {
        self.pairs.allocator()
    }

    /// For how many pairs there is room.
    pub(crate) fn places(&self) -> usize
        ensures value { result ≡ self.now.places }
        ensures bound { result ≤ 2 ^ 32 }
    {
        self.pairs.places()
    }

    /// Makes room for `places` pairs with `bytes` bytes.
    pub(crate) fn reserve(&mut self, places: usize, bytes: usize) -> Result<()>
        ensures cmp { self.new.cmp ≡ self.old.cmp }
        ensures pairs { self.new.pairs ≡ self.old.pairs }
        ensures ok { OnOk result ((self.new.places ≡ places) × (bytes ≤ self.new.bytes)
            × (bytes < 2 ^ 32)) }
        ensures err { OnErr result (self.new.places ≡ self.old.places) }
        ensures bytes { self.old.bytes ≤ self.new.bytes }
        ensures cause { IfErr result (FailsToReserve self.old.pairs places bytes) }
    {
        self.pairs.reserve(places, bytes)
    }
}

impl<C: Cmp> SkipMap<MemtableKeyCmp<C>> {
    /// An empty map of memtable keys, in the order that `user_cmp` makes of them.
    pub fn new_memtable_map(alloc: Global, user_cmp: C) -> SkipMap<MemtableKeyCmp<C>>
        ensures cmp { result.cmp.0 ≡ user_cmp }
        ensures pairs { result.pairs ≡ [] }
        ensures places { result.places ≡ 0 }
    {
        SkipMap::new(alloc, MemtableKeyCmp(user_cmp))
    }

    /// Inserts a memtable key, which comes in five parts, with no value: the user's key is the
    /// second, and its sequence number is given too. Returns whether it did: an Equal key is left.
    pub(crate) fn put_parts(
        &mut self,
        sequence: SequenceNumber,
        a: &[u8],
        user: &[u8],
        c: &[u8],
        d: &[u8],
        e: &[u8],
    ) -> bool
        requires accepted { memtable_accepts (C.accepts self.old.cmp.0)
            (a.now ++ user.now ++ c.now ++ d.now ++ e.now) ≡ true }
        requires user { user_part (front_key (a.now ++ user.now ++ c.now ++ d.now ++ e.now))
            ≡ user.now }
        requires number { sequence_part (front_key (a.now ++ user.now ++ c.now ++ d.now ++ e.now))
            ≡ sequence }
        requires place { 0 < self.old.places }
        requires bytes { length a.now + length user.now + length c.now + length d.now + length e.now
            ≤ self.old.bytes }
        ensures { PutKeyResult (memtable_cmp (C.cmp self.old.cmp.0)) self.old
            (a.now ++ user.now ++ c.now ++ d.now ++ e.now) result self.new }
    {
        self.pairs.append(a);
        self.pairs.append(user);
        self.pairs.append(c);
        self.pairs.append(d);
        self.pairs.append(e);
        let key = self.pairs.tail();
        let length = key.len();
        let cmp = &self.cmp;
        let probe = AsOf {
            cmp: &cmp.0,
            key: user,
            sequence,
        };
        let path = path_for(&self.pairs, &probe);
        if is_taken(cmp, &self.pairs, &path, key) {
            self.pairs.drop_tail();
            return false;
        }
        let height = tower_height(&mut self.rng);
        self.pairs.place(&path, length, height);
        true
    }
}

// The node, or none for 0.
#[inline]
fn as_node(node: usize) -> Option<usize>
    ensures none { node ≡ 0 → result ≡ None }
    ensures there { 0 < node → result ≡ Some node }
{
    if node == 0 { None } else { Some(node) }
}

/// A walk over a map's pairs, which takes no memory and never fails.
#[derive(Drop)]
pub struct SkipMapIter<'a, C: Cmp> {
    map: &'a SkipMap<C>,
    // the node of the current pair
    node: Option<usize>,
    ghost within: { ForSome node (HasNode map.now.nodes map.now.pairs) },
}

impl<'a, C: Cmp> LdbIterator for SkipMapIter<'a, C> {
    ghost use Rattle.std.proofs.Common.{rules};

    ghost pairs = { λ it. it.map.now.pairs };

    ghost position = { λ it. position_of_node it.map.now.nodes it.node };

    ghost order = { λ it. C.cmp it.map.now.cmp };

    ghost fails = { λ _ _ _. ⊥ };

    fn advance(&mut self) -> Result<bool> {
        self.node = match self.node {
            None => self.map.first(),
            Some(node) => self.map.after(node),
        };
        Ok(self.node.is_some())
    }

    fn prev(&mut self) -> Result<bool> {
        self.node = match self.node {
            None => None,
            Some(node) => self.map.previous(node),
        };
        Ok(self.node.is_some())
    }

    fn seek(&mut self, key: &[u8]) -> Result<()> {
        self.node = self.map.first_at(key);
        Ok(())
    }

    fn seek_to_last(&mut self) -> Result<()> {
        self.node = self.map.last();
        Ok(())
    }

    fn current(&self) -> Option<(&[u8], &[u8])> {
        match self.node {
            None => None,
            Some(node) => Some(self.map.pair(node)),
        }
    }

    fn reset(&mut self) {
        self.node = None;
    }

    fn valid(&self) -> bool {
        self.node.is_some()
    }

    ghost in_range = { λ it. Prim.search rules };
}
