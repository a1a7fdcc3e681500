//! The register of CRC32C, and what a text makes of it, sixteen bytes at a time.
// LevelDB: util/crc32c.cc, Extend
ghost use Rattle.std.specs.Prelude.{◌≡◌, ℕ, ◌+◌, ◌<◌, ◌≤◌, List, [], ◌∷◌, ◌++◌, fold, bit_xor};
ghost use Rattle.leveldb_base.specs.Crc.{crc_byte, crc_zeros, crc_register, crc_of, lanes_register, HasRead};

use crate::crc::quotient::{MOST_BLOCKS, after_division};
use crate::crc::tables::TABLES;
use std::marker::Model;

// The fewest blocks that are divided: the tables alone are as fast for fewer.
const FEWEST_DIVIDED: usize = 80;

/// The checksum of a text that is read in pieces. A clause sees it as its register.
#[derive(Drop)]
pub struct Digest {
    register: u32,
}

impl Model for Digest {
    ghost Value = { ℕ };

    ghost view = { λ digest. digest.register };
}

impl Digest {
    pub(crate) fn new() -> Digest
        ensures { result ≡ 0xffffffff }
    {
        Digest {
            register: 0xffff_ffff,
        }
    }

    /// Reads the next piece. However a text is cut, its pieces leave what the whole leaves.
    pub fn update(&mut self, data: &[u8])
        ensures register { self.new ≡ crc_register self.old «data».now }
        ensures text { (text : List ℕ) → HasRead self.old text
            → HasRead self.new (text ++ «data».now) }
        ensures pieces { (a b : List ℕ) → «data».now ≡ a ++ b
            → self.new ≡ crc_register (crc_register self.old a) b }
    {
        self.register = after_text(self.register, data);
    }

    /// The checksum of the pieces, one after another.
    pub fn finalize(self) -> u32
        ensures sum { result ≡ bit_xor self 0xffffffff }
        ensures text { (text : List ℕ) → HasRead self text → result ≡ crc_of text }
    {
        self.register ^ 0xffff_ffff
    }
}

fn after_text(register: u32, text: &[u8]) -> u32
    ensures { result ≡ crc_register register text.now }
{
    let (blocks, rest) = text.as_chunks::<16>();
    let (words, bytes) = rest.as_chunks::<4>();
    after_bytes(after_words(after_blocks(register, blocks), words), bytes)
}

// Many blocks are divided first, as many at a time as can be.
fn after_blocks(mut register: u32, blocks: &[[u8; 16]]) -> u32
    ensures { result ≡ fold crc_register register blocks.now }
{
    let mut left = blocks;
    while left.len() >= FEWEST_DIVIDED {
        let (piece, others) = left.split_at(left.len().min(MOST_BLOCKS));
        register = after_division(register, piece);
        left = others;
    }
    after_few(register, left)
}

// Each block is read by the tables.
fn after_few(register: u32, blocks: &[[u8; 16]]) -> u32
    ensures { result ≡ fold crc_register register blocks.now }
{
    let Some((first, others)) = blocks.split_first() else {
        return register;
    };
    let mut lanes = Lanes::of(register, first);
    for block in others {
        lanes = lanes.after(block);
    }
    lanes.joined()
}

fn after_words(mut register: u32, words: &[[u8; 4]]) -> u32
    ensures { result ≡ fold crc_register register words.now }
{
    for word in words {
        register = after_word(register, *word);
    }
    register
}

fn after_bytes(mut register: u32, bytes: &[u8]) -> u32
    ensures { result ≡ crc_register register bytes.now }
{
    for byte in bytes {
        register = after_byte(register, *byte);
    }
    register
}

/// Four registers side by side, each of which takes one word of a block: none waits for another, so
/// they overlap in a processor, and they need four of the tables.
#[derive(Clone, Copy)]
pub(crate) struct Lanes {
    first: u32,
    second: u32,
    third: u32,
    fourth: u32,
}

impl Lanes {
    /// Those of a register of 0.
    #[inline]
    pub(crate) fn zero() -> Lanes
        ensures { lanes_register result.first result.second result.third result.fourth ≡ 0 }
    {
        Lanes {
            first: 0,
            second: 0,
            third: 0,
            fourth: 0,
        }
    }

    // Those that stand for the register after a block.
    #[inline]
    fn of(register: u32, block: &[u8; 16]) -> Lanes
        ensures { lanes_register result.first result.second result.third result.fourth
            ≡ crc_register register block.now }
    {
        let (words, _) = block.as_chunks::<4>();
        Lanes {
            first: number_of(mixed(register, words[0])),
            second: number_of(words[1]),
            third: number_of(words[2]),
            fourth: number_of(words[3]),
        }
    }

    // Those after one block more.
    #[inline]
    pub(crate) fn after(self, block: &[u8; 16]) -> Lanes
        ensures { lanes_register result.first result.second result.third result.fourth
            ≡ crc_register (lanes_register self.first self.second self.third self.fourth)
            block.now }
    {
        let words = Lanes::of(0, block);
        Lanes {
            first: moved(self.first, 12) ^ words.first,
            second: moved(self.second, 12) ^ words.second,
            third: moved(self.third, 12) ^ words.third,
            fourth: moved(self.fourth, 12) ^ words.fourth,
        }
    }

    // The one register that they stand for.
    #[inline]
    pub(crate) fn joined(self) -> u32
        ensures { result ≡ lanes_register self.first self.second self.third self.fourth }
    {
        (moved(self.first, 12) ^ moved(self.second, 8))
            ^ (moved(self.third, 4) ^ moved(self.fourth, 0))
    }
}

// The word as a number: the register before four zero bytes leave it what the word does.
#[inline]
fn number_of(word: [u8; 4]) -> u32
    ensures { crc_register 0 word ≡ crc_zeros 4 result }
{
    let [a, b, c, d] = word;
    number_in(a, b, c, d)
}

// The same of a word of these bytes.
#[inline]
fn number_in(a: u8, b: u8, c: u8, d: u8) -> u32
    ensures { crc_register 0 (a ∷ b ∷ c ∷ d ∷ []) ≡ crc_zeros 4 result }
{
    u32::from_le_bytes([a, b, c, d])
}

// The register after `zeros` zero bytes and four more.
#[inline]
fn moved(register: u32, zeros: usize) -> u32
    requires { zeros ≤ 12 }
    ensures { result ≡ crc_zeros (4 + zeros) register }
{
    word_then_zeros(register.to_le_bytes(), zeros)
}

#[inline]
fn after_word(register: u32, word: [u8; 4]) -> u32
    ensures { result ≡ crc_register register word }
{
    word_then_zeros(mixed(register, word), 0)
}

#[inline]
fn after_byte(register: u32, byte: u8) -> u32
    ensures { result ≡ crc_byte register byte }
{
    byte_then_zeros(byte ^ (register & 0xff) as u8, 0) ^ (register >> 8)
}

// The word that makes of an empty register what this word makes of the register.
#[inline]
fn mixed(register: u32, word: [u8; 4]) -> [u8; 4]
    ensures { crc_register 0 result ≡ crc_register register word }
{
    let [a, b, c, d] = register.to_le_bytes();
    [word[0] ^ a, word[1] ^ b, word[2] ^ c, word[3] ^ d]
}

// The register after a word and `zeros` zero bytes, where it was empty.
#[inline]
fn word_then_zeros(word: [u8; 4], zeros: usize) -> u32
    requires { zeros ≤ 12 }
    ensures { result ≡ crc_zeros zeros (crc_register 0 word) }
{
    let [a, b, c, d] = word;
    (byte_then_zeros(a, zeros + 3) ^ byte_then_zeros(b, zeros + 2))
        ^ (byte_then_zeros(c, zeros + 1) ^ byte_then_zeros(d, zeros))
}

// The register after a byte and `zeros` zero bytes, where it was empty.
#[inline]
fn byte_then_zeros(byte: u8, zeros: usize) -> u32
    requires { zeros < 16 }
    ensures { result ≡ crc_zeros (zeros + 1) byte }
{
    TABLES[zeros][byte as usize]
}
