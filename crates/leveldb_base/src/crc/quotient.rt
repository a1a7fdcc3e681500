//! The register after a long text, divided first by a multiple of the polynomial that has six
//! terms: what is left of the text leaves the same register, and is short.
// zlib-ng's Chorba divides so, by multiples of another polynomial.
ghost use Rattle.std.specs.Prelude.{◌≡◌, ◌<◌, All, ◌+◌, ◌-◌, ◌*◌, ◌≤◌, ◌++◌, fold, length, replicate};
ghost use Rattle.std.specs.List.{concat};
ghost use Rattle.std.specs.Int.{w32, to_le_bytes};
ghost use Rattle.std.specs.Simd.Lanes.{chunk, put_chunk};
ghost use Rattle.leveldb_base.specs.Crc.{crc_register, reduced};

use crate::crc::register::Lanes;
use std::simd::prelude::*;

// The degree of the multiple, x^266 + x^143 + x^121 + x^88 + x^71 + 1, in which x is eight bits.
const DEGREE: usize = 266;

// The powers in its other terms.
const TERMS: [usize; 5] = [0, 71, 88, 121, 143];

/// The most blocks that one division takes: 4608 bytes, so that a block of a table is done at once.
pub(crate) const MOST_BLOCKS: usize = 288;

// The blocks that a division leaves, of no fewer bytes than the degree.
const LEFT_BLOCKS: usize = 17;

// The room for a quotient of the most blocks, and for what is in front of it.
const ROOM: usize = 16 * MOST_BLOCKS + DEGREE;

// The quotient of a text. In front of it are the register before the text and zeros, together as
// many bytes as the degree, and after it are zeros.
#[derive(Drop)]
struct Quotient {
    bytes: [u8; ROOM],
}

impl Quotient {
    // That of no text.
    #[inline]
    fn of(register: u32) -> Quotient
        ensures { result.bytes ≡ to_le_bytes w32 register ++ replicate (ROOM - 4) 0 }
    {
        let mut bytes = [0; ROOM];
        bytes[..4].copy_from_slice(&register.to_le_bytes());
        Quotient { bytes }
    }

    // What is left of a block at an offset of the text, once the other terms' parts are taken off.
    #[inline]
    fn reduced(&self, offset: usize, block: &[u8; 16]) -> u8x16
        requires { offset + 16 + DEGREE ≤ ROOM }
        ensures left { result ≡ reduced TERMS self.now.bytes offset block.now }
        ensures bytes { All (λ byte. byte < 256) result }
    {
        let mut left = u8x16::from_array(*block);
        for term in TERMS {
            left ^= u8x16::from_slice(&self.bytes[offset + term..]);
        }
        left
    }

    // Divides a text of blocks. No bytes change but those of its quotient.
    #[inline]
    fn divide(&mut self, blocks: &[[u8; 16]])
        requires { 16 * length blocks.now + DEGREE ≤ ROOM }
        ensures quotient { chunk DEGREE (16 * length blocks.now) self.new.bytes
            ≡ reduced TERMS self.new.bytes 0 (concat blocks.now) }
        ensures same { self.new.bytes ≡ put_chunk DEGREE self.old.bytes
            (chunk DEGREE (16 * length blocks.now) self.new.bytes) }
        ensures bytes { All (λ byte. byte < 256)
            (chunk DEGREE (16 * length blocks.now) self.new.bytes) }
    {
        let mut offset = 0;
        for block in blocks {
            let next = self.reduced(offset, block);
            next.copy_to_slice(&mut self.bytes[offset + DEGREE..]);
            offset += 16;
        }
    }

    // The register after what is left of blocks at an offset of the text.
    #[inline]
    fn after_left(&self, offset: usize, blocks: &[[u8; 16]]) -> u32
        requires { offset + 16 * length blocks.now + DEGREE ≤ ROOM }
        ensures { result ≡ crc_register 0
            (reduced TERMS self.now.bytes offset (concat blocks.now)) }
    {
        let mut lanes = Lanes::zero();
        let mut at = offset;
        for block in blocks {
            lanes = lanes.after(&self.reduced(at, block).to_array());
            at += 16;
        }
        lanes.joined()
    }
}

/// The register after blocks: at least `LEFT_BLOCKS`, at most `MOST_BLOCKS`.
pub(crate) fn after_division(register: u32, blocks: &[[u8; 16]]) -> u32
    requires some { LEFT_BLOCKS ≤ length blocks.now }
    requires most { length blocks.now ≤ MOST_BLOCKS }
    ensures { result ≡ fold crc_register register blocks.now }
{
    let (divided, left) = blocks.split_at(blocks.len() - LEFT_BLOCKS);
    let mut quotient = Quotient::of(register);
    quotient.divide(divided);
    quotient.after_left(divided.len() * 16, left)
}
