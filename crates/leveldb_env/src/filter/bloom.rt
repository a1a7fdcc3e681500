//! Bloom filters: each key sets some bits, and a key of which all are set may be one of those.
//!
//! A filter is its bits, eight a byte from the lowest on, and in one more byte how many of them a
//! key has.
// LevelDB: util/bloom.cc
ghost use Rattle.std.specs.Prelude.{◌≡◌, ◌==◌, ◌||◌, false, ◌*◌, ◌^◌, ◌<◌, ◌≤◌, ℕ, MatchOption, length, fold, slice_index};
ghost use Rattle.std.specs.List.{list_all, list_any};
ghost use Rattle.byteorder.specs.Endian.{little_number};
ghost use Rattle.leveldb_env.specs.Filter.{keys_at};
ghost use Rattle.leveldb_env.specs.Bloom.{mixed, bloom_hash, probe_count, probes, has_bit, bits_len, is_probe, bits_of, count_in, matches_all};

use crate::filter::{FilterPolicy, key_at};
use leveldb_base::error::{Result, StatusCode, err};
use std::alloc::Global;
use std::marker::Model;

const SEED: u32 = 0xbc9f_1d34;

const FACTOR: u32 = 0xc6a4_a793;

// A filter with more probes a key is none that this policy reads.
const MAX_PROBES: u8 = 30;

// 32 bits can't number the bits of this many bytes.
const TOO_LONG: usize = 1 << 29;

/// LevelDB's filters, of `bits_per_key` bits a key. Clauses see the policy as that number.
#[derive(Clone, Copy, Debug)]
pub struct BloomPolicy {
    bits_per_key: u32,
}

impl Model for BloomPolicy {
    ghost Value = { ℕ };

    ghost view = { λ policy. policy.bits_per_key };

    ghost inverse = { λ bits_per_key. record { bits_per_key = bits_per_key } };
}

impl BloomPolicy {
    /// Filters of `bits_per_key` bits a key. With ten, one key in a hundred matches a filter that
    /// it isn't in.
    pub fn new(bits_per_key: u32) -> BloomPolicy
        ensures { result ≡ bits_per_key }
    {
        BloomPolicy { bits_per_key }
    }
}

impl FilterPolicy for BloomPolicy {
    ghost use Rattle.std.specs.Prelude.{codes};
    ghost use Rattle.leveldb_env.specs.Bloom.{bloom_filter, bloom_matches, HasTooManyBits};
    ghost use Rattle.leveldb_env.specs.FilterLaws.{bloom_finds};

    ghost name = { λ _. codes "leveldb.BuiltinBloomFilter2" };

    ghost filter_for = { bloom_filter };

    ghost too_large = { HasTooManyBits };

    ghost matches = { λ _. bloom_matches };

    fn name(&self) -> &'static str {
        "leveldb.BuiltinBloomFilter2"
    }

    fn create_filter(&self, alloc: Global, keys: &[u8], key_offsets: &[usize]) -> Result<Vec<u8>> {
        let Some(len) = checked_bits_len(self.bits_per_key, key_offsets.len()) else {
            return err(
                alloc,
                StatusCode::NotSupported,
                "a filter of 2^32 bits or more",
            );
        };
        let count = probe_count(self.bits_per_key);
        let mut filter = Vec::with_capacity(alloc, len + 1)?;
        filter.resize(len, 0)?;
        set_keys(&mut filter, count, keys, key_offsets);
        filter.push(count)?;
        Ok(filter)
    }

    fn key_may_match(&self, key: &[u8], filter: &[u8]) -> bool {
        matches_all(filter) || has_probes(filter, key)
    }

    ghost finds = { bloom_finds };
}

// How many bytes the bits of `keys` keys take, where 32 bits can number them.
fn checked_bits_len(bits_per_key: u32, keys: usize) -> Option<usize>
    ensures { MatchOption result (2 ^ 32 ≤ 8 * bits_len bits_per_key keys)
        (λ len. (len ≡ bits_len bits_per_key keys) × (8 * len < 2 ^ 32)) }
{
    let bits = keys.checked_mul(bits_per_key as usize)?;
    let len = bits.max(64).div_ceil(8);
    if len < TOO_LONG { Some(len) } else { None }
}

fn probe_count(bits_per_key: u32) -> u8
    ensures { result ≡ probe_count bits_per_key }
{
    (u64::from(bits_per_key) * 69 / 100).clamp(1, MAX_PROBES as u64) as u8
}

// Sets the bits of the keys.
fn set_keys(bytes: &mut [u8], count: u8, keys: &[u8], key_offsets: &[usize])
    requires some { 0 < length bytes.old }
    requires fits { 8 * length bytes.old < 2 ^ 32 }
    ensures bits { (bit : ℕ)
        → has_bit bytes.new bit ≡
        (has_bit bytes.old bit || is_probe (8 * length bytes.old) count
        (keys_at key_offsets.now keys.now) bit) }
    ensures bytes { (k : ℕ) → slice_index bytes.new k < 256 }
{
    for i in 0..key_offsets.len() {
        set_probes(bytes, count, key_at(keys, key_offsets, i));
    }
}

// Sets the bits of a key.
fn set_probes(bytes: &mut [u8], count: u8, key: &[u8])
    requires some { 0 < length bytes.old }
    requires fits { 8 * length bytes.old < 2 ^ 32 }
    ensures { (bit : ℕ) → has_bit bytes.new bit ≡ (has_bit bytes.old bit || list_any
        (λ probe. probe == bit) (probes (8 * length bytes.old) count key.now)) }
{
    let bits = 8 * bytes.len() as u32;
    let mut probe = bloom_hash(key);
    let delta = probe.rotate_left(15);
    for _ in 0..count {
        set_bit(bytes, probe % bits);
        probe = probe.wrapping_add(delta);
    }
}

#[inline]
fn set_bit(bytes: &mut [u8], bit: u32)
    requires { bit < 8 * length bytes.old }
    ensures { (other : ℕ) → has_bit bytes.new other ≡ (has_bit bytes.old other || bit == other) }
{
    bytes[(bit / 8) as usize] |= 1 << (bit % 8);
}

// Whether a filter lets every key pass.
fn matches_all(filter: &[u8]) -> bool
    ensures { result ≡ matches_all filter.now }
{
    let len = filter.len().saturating_sub(1);
    len == 0 || filter[len] > MAX_PROBES || len >= TOO_LONG
}

// Whether each bit of the key is set.
fn has_probes(filter: &[u8], key: &[u8]) -> bool
    requires { matches_all filter.now ≡ false }
    ensures { result ≡ list_all (has_bit filter.now)
        (probes (bits_of filter.now) (count_in filter.now) key.now) }
{
    let len = filter.len() - 1;
    let bits = 8 * len as u32;
    let mut probe = bloom_hash(key);
    let delta = probe.rotate_left(15);
    for _ in 0..filter[len] {
        let bit = probe % bits;
        if filter[(bit / 8) as usize] & (1 << (bit % 8)) == 0 {
            return false;
        }
        probe = probe.wrapping_add(delta);
    }
    true
}

fn bloom_hash(key: &[u8]) -> u32
    ensures { result ≡ bloom_hash key.now }
{
    let len = (key.len() % (1 << 32)) as u32;
    let (words, rest) = key.as_chunks::<4>();
    let hash = hash_words(SEED ^ len.wrapping_mul(FACTOR), words);
    if rest.is_empty() {
        return hash;
    }
    let mut word = [0; 4];
    word[..rest.len()].copy_from_slice(rest);
    mixed(24, hash, word)
}

fn hash_words(mut hash: u32, words: &[[u8; 4]]) -> u32
    ensures { result ≡ fold (λ hash word. mixed 16 hash (little_number 4 word)) hash words.now }
{
    for word in words {
        hash = mixed(16, hash, *word);
    }
    hash
}

#[inline]
fn mixed(shift: u32, hash: u32, word: [u8; 4]) -> u32
    requires { shift < 32 }
    ensures { result ≡ mixed shift hash (little_number 4 word) }
{
    let product = hash
        .wrapping_add(u32::from_le_bytes(word))
        .wrapping_mul(FACTOR);
    product ^ (product >> shift)
}
