//! The words of a skip list's nodes, and the heights of their towers.
// LevelDB: db/skiplist.h, SkipList::RandomHeight
ghost use Rattle.std.specs.Prelude.{◌≡◌, ◌≢◌, ◌+◌, ◌<◌, ◌≤◌, ℕ, length, slice_index};
ghost use Rattle.leveldb_mem.specs.Towers.{drawn_links};

use rand_core::Rng;

/// The most links that a node has.
pub(crate) const MAX_HEIGHT: usize = 12;

/// The number of words of a node before its links.
pub(crate) const LINKS_AT: usize = 4;

/// The most words of a node.
pub(crate) const MAX_WORDS: usize = LINKS_AT + MAX_HEIGHT;

/// Draws the height of a node's tower: 1, and one more for each number that is a multiple of 4, up
/// to the first that isn't. At 12 no more is drawn.
pub fn tower_height<G: Rng>(rng: &mut G) -> usize
    ensures height { result ≡ (drawn_links 11 (G.stream rng.old)).0 + 1 }
    ensures rest { G.stream rng.new ≡ (drawn_links 11 (G.stream rng.old)).1 }
    ensures within { (0 < result) × (result ≤ 12) }
{
    let mut height = 1;
    'drawing: while height < MAX_HEIGHT && rng.next_u64().is_multiple_of(4) {
        height += 1;
    }
    height
}

/// The words of a new node: what its key and value are in the text, the height of its tower, and as
/// links those of the nodes on its path.
pub(crate) fn node_words(
    words: &[u32],
    path: &[u32],
    start: u32,
    key_length: u32,
    value_length: u32,
    height: u32,
) -> [u32; MAX_WORDS]
    requires height { height ≤ 12 }
    requires path { length path.now ≡ 12 }
    requires within { (k : ℕ) → k < height → slice_index path.now k + k < length words.now }
    ensures size { length result ≡ 16 }
    ensures start { slice_index result 0 ≡ start }
    ensures key { slice_index result 1 ≡ key_length }
    ensures value { slice_index result 2 ≡ value_length }
    ensures height { slice_index result 3 ≡ height }
    ensures links { (k : ℕ) → k < height →
        slice_index result (4 + k) ≡ slice_index words.now (slice_index path.now k + k) }
{
    let mut node = [0; MAX_WORDS];
    node[0] = start;
    node[1] = key_length;
    node[2] = value_length;
    node[3] = height;
    for at in 0..height as usize {
        node[LINKS_AT + at] = words[path[at] as usize + at];
    }
    node
}

/// Links the nodes of the path to a new node, at each height that it has.
pub(crate) fn link_node(words: &mut [u32], path: &[u32], node: u32, height: usize)
    requires height { height ≤ 12 }
    requires path { length path.now ≡ 12 }
    requires within { (k : ℕ) → k < height → slice_index path.now k + k < length words.old }
    ensures length { length words.new ≡ length words.old }
    ensures linked { (k : ℕ) → k < height →
        slice_index words.new (slice_index path.now k + k) ≡ node }
    ensures others { (i : ℕ) → ((k : ℕ) → k < height → i ≢ slice_index path.now k + k) →
        slice_index words.new i ≡ slice_index words.old i }
{
    for at in 0..height {
        words[path[at] as usize + at] = node;
    }
}

/// Makes a node the last at each height where it has a link and no node follows.
pub(crate) fn keep_last(last: &mut [u32], words: &[u32], node: u32, height: usize)
    requires height { height ≤ 12 }
    requires last { length last.old ≡ 12 }
    requires within { node + height ≤ length words.now }
    ensures length { length last.new ≡ length last.old }
    ensures last { (k : ℕ) → k < height → slice_index words.now (node + k) ≡ 0 →
        slice_index last.new k ≡ node }
    ensures followed { (k : ℕ) → k < height → slice_index words.now (node + k) ≢ 0 →
        slice_index last.new k ≡ slice_index last.old k }
    ensures higher { (k : ℕ) → height ≤ k → slice_index last.new k ≡ slice_index last.old k }
{
    for at in 0..height {
        if words[node as usize + at] == 0 {
            last[at] = node;
        }
    }
}
