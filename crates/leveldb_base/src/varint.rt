//! Varints, and texts after their lengths, as LevelDB's logs and tables write them: seven bits a
//! byte, the lowest group first, a byte from 128 on where more follow. Only the shortest encoding
//! is read.
// LevelDB: util/coding.cc
ghost use Rattle.std.specs.Prelude.{◌≡◌, ◌+◌, ◌^◌, ◌<◌, ◌≤◌, ◌++◌, vec_len, vec_capacity, length, drop, Option, Some, OnOk, OnErr, IfErr};
ghost use Rattle.leveldb_base.specs.Error.{IsOutOfMemory};
ghost use Rattle.leveldb_base.specs.Varint.{varint, sized, ReadsVarint, ReadsSized};
ghost use Rattle.leveldb_base.specs.Types.{pair_of};

use crate::error::Result;

/// The length of the encoding of `n`: 1 to 10 bytes.
#[inline]
#[tactic(auto, using(crate::proofs::VarintLemmas::varint_lengths))]
pub fn varint_length(n: u64) -> usize
    ensures { result ≡ length (varint n) }
{
    let mut rest = n;
    let mut groups = 1;
    while rest >= 128 {
        rest /= 128;
        groups += 1;
    }
    groups
}

/// Writes `n` at the front of `dst`, and returns the number of bytes written: 1 to 5.
#[inline]
pub fn encode_varint32(dst: &mut [u8], n: u32) -> usize
    requires { length (varint n) ≤ length dst.old }
    ensures used { result ≡ length (varint n) }
    ensures written { dst.new ≡ varint n ++ drop (length (varint n)) dst.old }
{
    encode_varint64(dst, u64::from(n))
}

/// Writes `n` at the front of `dst`, and returns the number of bytes written: 1 to 10.
#[inline]
pub fn encode_varint64(dst: &mut [u8], n: u64) -> usize
    requires { length (varint n) ≤ length dst.old }
    ensures used { result ≡ length (varint n) }
    ensures written { dst.new ≡ varint n ++ drop (length (varint n)) dst.old }
{
    let mut rest = n;
    let mut used = 0;
    while rest >= 128 {
        dst[used] = (rest % 128 + 128) as u8;
        rest /= 128;
        used += 1;
    }
    dst[used] = rest as u8;
    used + 1
}

/// Appends the encoding of `n`, or nothing.
#[tactic(auto, using(crate::proofs::VarintLemmas::varint_lengths))]
pub fn put_varint32(dst: &mut Vec<u8>, n: u32) -> Result<()>
    ensures ok { OnOk result (dst.new.items ≡ dst.old.items ++ varint n) }
    ensures err { OnErr result (dst.new.items ≡ dst.old.items) }
    ensures cause { IfErr result IsOutOfMemory }

    // The capacity never shrinks, and only where room was missing does the call fail.
    ensures capacity { vec_capacity dst.old ≤ vec_capacity dst.new }
    ensures full { OnErr result (vec_capacity dst.old < vec_len dst.old + length (varint n)) }
{
    let mut bytes = [0; 5];
    let used = encode_varint32(&mut bytes, n);
    dst.extend_from_slice(&bytes[..used])?;
    Ok(())
}

/// Appends the encoding of `n`, or nothing.
#[tactic(auto, using(crate::proofs::VarintLemmas::varint_lengths))]
pub fn put_varint64(dst: &mut Vec<u8>, n: u64) -> Result<()>
    ensures ok { OnOk result (dst.new.items ≡ dst.old.items ++ varint n) }
    ensures err { OnErr result (dst.new.items ≡ dst.old.items) }
    ensures cause { IfErr result IsOutOfMemory }

    // The capacity never shrinks, and only where room was missing does the call fail.
    ensures capacity { vec_capacity dst.old ≤ vec_capacity dst.new }
    ensures full { OnErr result (vec_capacity dst.old < vec_len dst.old + length (varint n)) }
{
    let mut bytes = [0; 10];
    let used = encode_varint64(&mut bytes, n);
    dst.extend_from_slice(&bytes[..used])?;
    Ok(())
}

/// The number below 2^32 at the front of `src`, and the length of its encoding.
/// `None` where there is none: it is cut, ends in a zero group, or is a larger number.
#[inline]
pub fn get_varint32(src: &[u8]) -> Option<(u32, usize)>
    ensures { ReadsVarint 32 src.now result }
{
    let (n, used) = get_varint64(src)?;
    match u32::try_from(n) {
        Ok(n) => Some((n, used)),
        Err(_) => None,
    }
}

/// The number below 2^64 at the front of `src`, and the length of its encoding.
/// `None` where there is none: it is cut, ends in a zero group, or is a larger number.
#[inline]
pub fn get_varint64(src: &[u8]) -> Option<(u64, usize)>
    ensures { ReadsVarint 64 src.now result }
{
    match src.first() {
        Some(byte) if *byte < 128 => Some((u64::from(*byte), 1)),
        _ => get_long_varint(src),
    }
}

// Most numbers are below 128: only those calls are worth inlining.
#[inline(never)]
fn get_long_varint(src: &[u8]) -> Option<(u64, usize)>
    ensures { ReadsVarint 64 src.now result }
{
    let mut n = 0;
    for (i, byte) in src.iter().enumerate() {
        // Nine groups hold 63 bits, and the tenth only the last one.
        if i == 9 && *byte > 1 {
            return None;
        }
        n += u64::from(*byte % 128) << (7 * i);
        if *byte < 128 {
            return if *byte == 0 && i > 0 {
                None
            } else {
                Some((n, i + 1))
            };
        }
    }
    None
}

/// Appends the length of `text` and `text`, or nothing.
#[tactic(auto, using(crate::proofs::VarintLemmas::varint_lengths))]
pub fn put_length_prefixed_slice(dst: &mut Vec<u8>, text: &[u8]) -> Result<()>
    ensures ok { OnOk result (dst.new.items ≡ dst.old.items ++ sized text.now) }
    ensures err { OnErr result (dst.new.items ≡ dst.old.items) }
    ensures cause { IfErr result IsOutOfMemory }

    // The capacity never shrinks, and only where room was missing does the call fail.
    ensures capacity { vec_capacity dst.old ≤ vec_capacity dst.new }
    ensures full { OnErr result (vec_capacity dst.old < vec_len dst.old + length (sized text.now)) }
{
    let mut bytes = [0; 10];
    let used = encode_varint64(&mut bytes, text.len() as u64);
    dst.reserve(used + text.len())?;
    dst.extend_from_slice(&bytes[..used])?;
    dst.extend_from_slice(text)?;
    Ok(())
}

/// The text after its length at the front of `src`, and what follows it, both borrowed from `src`.
/// `None` where there is no length or the text is cut.
#[inline]
pub fn get_length_prefixed_slice(src: &[u8]) -> Option<(&[u8], &[u8])>
    ensures { ReadsSized src.now (pair_of result) }
{
    let (size, used) = get_varint64(src)?;
    src[used..].split_at_checked(size as usize)
}
