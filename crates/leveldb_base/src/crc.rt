//! CRC32C, the checksum that guards each piece of a log and each block of a table.
// LevelDB: util/crc32c.cc
ghost use Rattle.std.specs.Prelude.{◌≡◌, ℕ, List, [], ◌++◌, bit_xor};
ghost use Rattle.leveldb_base.specs.Crc.{crc_register, crc_of, masked, unmasked, HasRead};

mod quotient;
mod register;
mod tables;

pub use register::Digest;

// What a mask adds to a turned checksum.
const MASK_DELTA: u32 = 0xa282_ead8;

/// The checksum of `data`.
pub fn crc32(data: &[u8]) -> u32
    ensures sum { result ≡ crc_of «data».now }
    ensures pieces { (a b : List ℕ) → «data».now ≡ a ++ b
        → result ≡ bit_xor (crc_register (crc_register 0xffffffff a) b) 0xffffffff }
{
    let mut digest = digest();
    digest.update(data);
    digest.finalize()
}

/// A checksum to be taken over a text in pieces: no piece is read yet.
pub fn digest() -> Digest
    ensures register { result ≡ 0xffffffff }
    ensures fresh { HasRead result [] }
{
    Digest::new()
}

/// The checksum as files keep it.
pub fn mask_crc(sum: u32) -> u32
    ensures kept { result ≡ masked sum }
    ensures undone { unmasked result ≡ sum }
{
    sum.rotate_right(15).wrapping_add(MASK_DELTA)
}

/// The checksum that `mask_crc` made `kept` of.
pub fn unmask_crc(kept: u32) -> u32
    ensures sum { result ≡ unmasked kept }
    ensures undone { masked result ≡ kept }
{
    kept.wrapping_sub(MASK_DELTA).rotate_left(15)
}
