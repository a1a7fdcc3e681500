//! Pairs of a key and a value in a skip list, each after a path that is chosen at its insertion.
// LevelDB: db/skiplist.h, SkipList::Node; util/arena.cc
ghost use Rattle.std.specs.Prelude.{◌≡◌, ◌+◌, ◌*◌, ◌^◌, ◌<◌, ◌≤◌, ◌⊎◌, ℕ, List, [], ◌∷◌, ◌++◌};
ghost use Rattle.std.specs.Prelude.{length};
ghost use Rattle.std.specs.Prelude.{take, drop, slice_index, slice_index_or, vec_len, vec_capacity};
ghost use Rattle.std.specs.Prelude.{OnOk, OnErr, IfErr};
ghost use Rattle.std.specs.List.{insert};
ghost use Rattle.leveldb_mem.specs.Placed.{head, head_words, rank, place_of, IsAt, IsPathTo};
ghost use Rattle.leveldb_mem.specs.Placed.{pairs_length, MakesRoomForPairs};
ghost use Rattle.leveldb_mem.specs.Searching.{key_at, count_while, IsParted};

use crate::skipmap::search::Probe;
use crate::skipmap::towers::{LINKS_AT, MAX_HEIGHT, MAX_WORDS, keep_last, link_node, node_words};
use leveldb_base::error::{Result, StatusCode, err};
use std::alloc::Global;
use std::marker::Model;

/// The node before the first pair's.
pub(crate) const HEAD: usize = LINKS_AT;

/// The words of a head, with no links.
const HEAD_WORDS: [u32; MAX_WORDS] = [0, 0, 0, 12, 0, 0, 0, 0, 0, 0, 0, 0, 0, 0, 0, 0];

/// There are no more words, and no more bytes, than numbers of 32 bits.
const LIMIT: usize = u32::MAX as usize;

/// At each height the last node before some position.
pub(crate) type Path = [u32; MAX_HEIGHT];

/// Pairs in order, as nodes of a skip list, with their keys and values in one text.
#[derive(Debug, Drop)]
pub(crate) struct PlacedPairs {
    // keys and values, and after them what there is of a pair to come
    text: Vec<u8>,
    // the nodes, with the head as the first
    words: Vec<u32>,
    // the last node of each height
    last: Path,
    // how many pairs there are
    count: usize,
    // where the keys and values end in the text
    end: usize,
    // for how many more pairs there is room
    places: usize,
    // and for how many bytes in the text
    room: usize,
}

impl Model for PlacedPairs {
    ghost use Rattle.leveldb_mem.specs.Placed.{Placed};

    ghost Value = { Placed };

    ghost use Rattle.std.specs.Prelude.{◌≡◌, ◌+◌, ◌*◌, ◌^◌, ◌<◌, ◌≤◌, drop, vec_len, vec_capacity};
    ghost use Rattle.leveldb_mem.specs.Placed.{head, pairs_of_nodes, nodes_after, IsLaid};

    ghost view = { λ it. record {
      pairs = pairs_of_nodes it.text.items it.words.items
          (nodes_after it.words.items head it.count);
      tail = drop it.end it.text.items;
      places = it.places;
      bytes = it.room;
      order = nodes_after it.words.items head it.count;
      words = it.words.items;
    } };

    ghost invariant = { λ it. IsLaid it.text.items it.words.items it.last it.count it.end
        × (0 < it.places → 0 < vec_len it.words)
        × (vec_len it.words + 16 * it.places ≤ vec_capacity it.words)
        × (vec_len it.words + 16 * it.places < 2 ^ 32)
        × (vec_len it.text + it.room ≤ vec_capacity it.text)
        × (vec_len it.text + it.room < 2 ^ 32)
        × (vec_len it.words ≤ 16 * (it.count + 1)) };
}

impl PlacedPairs {
    pub(crate) fn new(alloc: Global) -> PlacedPairs
        ensures pairs { result.pairs ≡ [] }
        ensures order { result.order ≡ [] }
        ensures tail { result.tail ≡ [] }
        ensures places { result.places ≡ 0 }
    {
        PlacedPairs {
            text: Vec::new(alloc),
            words: Vec::new(alloc),
            last: [HEAD as u32; MAX_HEIGHT],
            count: 0,
            end: 0,
            places: 0,
            room: 0,
        }
    }

    pub(crate) fn allocator(&self) -> Global {
        *self.text.allocator()
    }

    #[inline]
    pub(crate) fn len(&self) -> usize
        ensures value { result ≡ length self.now.pairs }
        ensures nodes { length self.now.order ≡ length self.now.pairs }
    {
        self.count
    }

    /// The key of a node.
    #[inline]
    pub(crate) fn key(&self, node: usize) -> &[u8]
        requires { rank self.now.order node < length self.now.order }
        ensures value { result.now ≡ key_at self.now.pairs (rank self.now.order node) }
        ensures nodes { length self.now.order ≡ length self.now.pairs }
    {
        let start = self.words[node - 4] as usize;
        let length = self.words[node - 3] as usize;
        &self.text[start..start + length]
    }

    /// The pair of a node.
    #[inline]
    pub(crate) fn pair(&self, node: usize) -> (&[u8], &[u8])
        requires { rank self.now.order node < length self.now.order }
        ensures value { (result.0.now, result.1.now)
            ≡ slice_index_or self.now.pairs (rank self.now.order node) ([], []) }
        ensures nodes { length self.now.order ≡ length self.now.pairs }
    {
        let start = self.words[node - 4] as usize;
        let middle = start + self.words[node - 3] as usize;
        let end = middle + self.words[node - 2] as usize;
        (&self.text[start..middle], &self.text[middle..end])
    }

    /// The node after the head or another node, or 0.
    #[inline]
    pub(crate) fn after(&self, node: usize) -> usize
        requires some { 0 < length self.now.order }
        requires node { rank (head ∷ self.now.order) node ≤ length self.now.order }
        ensures at { IsAt self.now.order (rank (head ∷ self.now.order) node) result }
        ensures later { rank self.now.order node < length self.now.order
            → rank (head ∷ self.now.order) node ≡ rank self.now.order node + 1 }
        ensures nodes { length self.now.order ≡ length self.now.pairs }
    {
        self.words[node] as usize
    }

    /// The path to the position after the pairs that come before something. It goes from the head
    /// along each height, from the highest of these down. A node that ends the search of one height
    /// isn't compared again at the next.
    #[inline]
    pub(crate) fn path_to<P: Probe>(&self, probe: &P, from: usize) -> Path
        requires some { 0 < length self.now.order }
        requires from { (0 < from) × (from ≤ 12) }
        requires parted { (from ≡ 1) ⊎ IsParted (P.passes probe.now) self.now.pairs }
        ensures path { IsPathTo self.now.words result from
            (take (count_while (P.passes probe.now) self.now.pairs) self.now.order) }
        ensures place { place_of self.now.order result
            ≡ count_while (P.passes probe.now) self.now.pairs }
        ensures nodes { length self.now.order ≡ length self.now.pairs }
    {
        let mut path = [HEAD as u32; MAX_HEIGHT];
        let mut node = HEAD;
        let mut height = from;
        let mut stop = 0;
        'descent: while height > 0 {
            let next = self.words[node + (height - 1)] as usize;
            if next != 0 && next != stop && probe.is_after(self.key(next)) {
                node = next;
            } else {
                stop = next;
                height -= 1;
                path[height] = node as u32;
            }
        }
        path
    }

    /// The path to the position after all pairs.
    #[inline]
    pub(crate) fn path_to_end(&self) -> Path
        ensures path { IsPathTo self.now.words result 12
            (take (length self.now.pairs) self.now.order) }
        ensures place { place_of self.now.order result ≡ length self.now.pairs }
    {
        self.last
    }

    /// For how many pairs there is room.
    pub(crate) fn places(&self) -> usize
        ensures value { result ≡ self.now.places }
        ensures bound { result ≤ 2 ^ 32 }
    {
        self.places
    }

    /// Makes room for `places` pairs and `bytes` bytes. Returns `NotSupported` if 32 bits can't
    /// number them.
    pub(crate) fn reserve(&mut self, places: usize, bytes: usize) -> Result<()>
        ensures { MakesRoomForPairs self.old places bytes result self.new }
    {
        if places >= (LIMIT - self.words.len()) / MAX_WORDS || bytes > LIMIT - self.text.len() {
            return err(
                self.allocator(),
                StatusCode::NotSupported,
                "a map has less than 2^32 bytes of keys and values, and words of nodes",
            );
        }
        self.words.reserve(MAX_WORDS * (places + 1))?;
        self.text.reserve(bytes)?;
        place_head(&mut self.words);
        self.places = places;
        self.room = self.room.max(bytes);
        Ok(())
    }

    /// Puts bytes after all others.
    #[inline]
    pub(crate) fn append(&mut self, part: &[u8])
        requires { length part.now ≤ self.old.bytes }
        ensures pairs { self.new.pairs ≡ self.old.pairs }
        ensures order { self.new.order ≡ self.old.order }
        ensures words { self.new.words ≡ self.old.words }
        ensures tail { self.new.tail ≡ self.old.tail ++ part.now }
        ensures places { self.new.places ≡ self.old.places }
        ensures bytes { self.old.bytes ≤ self.new.bytes + length part.now }
    {
        self.text.extend_from_slice(part).unwrap();
        self.room -= part.len();
    }

    /// What comes after the pairs.
    #[inline]
    pub(crate) fn tail(&self) -> &[u8]
        ensures { result.now ≡ self.now.tail }
    {
        &self.text[self.end..]
    }

    /// Takes away what comes after the pairs.
    pub(crate) fn drop_tail(&mut self)
        ensures pairs { self.new.pairs ≡ self.old.pairs }
        ensures order { self.new.order ≡ self.old.order }
        ensures tail { self.new.tail ≡ [] }
        ensures places { self.new.places ≡ self.old.places }
        ensures bytes { self.old.bytes + length self.old.tail ≤ self.new.bytes }
    {
        self.room += self.text.len() - self.end;
        self.text.truncate(self.end);
    }

    /// Makes what comes after the pairs a pair at the end of a path, with a key of `key_length`
    /// bytes and a tower of this height.
    #[inline]
    pub(crate) fn place(&mut self, path: &Path, key_length: usize, height: usize)
        requires at { place_of self.old.order path.now ≤ length self.old.pairs }
        requires path { IsPathTo self.old.words path.now 12
            (take (place_of self.old.order path.now) self.old.order) }
        requires height { (0 < height) × (height ≤ 12) }
        requires key { key_length ≤ length self.old.tail }
        requires room { 0 < self.old.places }
        ensures pairs { self.new.pairs ≡ insert self.old.pairs (place_of self.old.order path.now)
            (take key_length self.old.tail, drop key_length self.old.tail) }
        ensures nodes { length self.new.order ≡ length self.new.pairs }
        ensures tail { self.new.tail ≡ [] }
        ensures places { self.new.places + 1 ≡ self.old.places }
        ensures bytes { self.new.bytes ≡ self.old.bytes }
    {
        let end = self.text.len();
        let value_length = end - self.end - key_length;
        let record = node_words(
            &self.words,
            path,
            self.end as u32,
            key_length as u32,
            value_length as u32,
            height as u32,
        );
        let node = (self.words.len() + LINKS_AT) as u32;
        self.words
            .extend_from_slice(&record[..LINKS_AT + height])
            .unwrap();
        link_node(&mut self.words, path, node, height);
        keep_last(&mut self.last, &self.words, node, height);
        self.count += 1;
        self.end = end;
        self.places -= 1;
    }

    /// How much memory counts for the pairs: for each 64, and the lengths of its key and value.
    pub(crate) fn memory(&self) -> usize
        ensures value { result ≡ 64 * length self.now.pairs + pairs_length self.now.pairs }
        ensures bound { result + 128 < 2 ^ 64 }
    {
        64 * self.count + self.end
    }
}

// Puts the words of a head where there are none.
fn place_head(words: &mut Vec<u32>)
    requires { vec_len words.old + 16 ≤ vec_capacity words.old }
    ensures first { vec_len words.old ≡ 0 → words.new.items ≡ head_words }
    ensures others { 0 < vec_len words.old → words.new.items ≡ words.old.items }
    ensures capacity { vec_capacity words.old ≤ vec_capacity words.new }
{
    if words.is_empty() {
        words.extend_from_slice(&HEAD_WORDS).unwrap();
    }
}
