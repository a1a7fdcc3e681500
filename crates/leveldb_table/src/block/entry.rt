//! Entries and restart points of a block, as they are read.
// LevelDB: table/block.cc, DecodeEntry
ghost use Rattle.std.specs.Prelude.{◌≡◌};
ghost use Rattle.leveldb_env.specs.FilterBlock.{numbers_in};
ghost use Rattle.leveldb_table.specs.BlockCheck.{begins, borrowed_number, ReadsNumber, ReadsLengths, ReadsEntry};

use byteorder::{ByteOrder, LittleEndian};
use leveldb_base::varint::get_varint32;

/// An entry, with its texts borrowed from the block.
#[derive(Clone, Copy)]
pub(crate) struct EntryParts<'a> {
    /// How many bytes of the key before are in front of `rest`.
    pub shared: usize,
    pub rest: &'a [u8],
    pub value: &'a [u8],
}

// The three lengths at the front of an entry.
#[derive(Clone, Copy)]
struct Lengths {
    shared: usize,
    rest: usize,
    value: usize,
}

// The number at the front, and what follows it.
#[inline]
fn take_number(bytes: &[u8]) -> Option<(usize, &[u8])>
    ensures { ReadsNumber bytes.now (borrowed_number result) }
{
    let (n, used) = get_varint32(bytes)?;
    Some((n as usize, &bytes[used..]))
}

// The lengths at the front, one after the other, and what follows them.
#[inline(never)]
fn take_long_lengths(bytes: &[u8]) -> Option<(Lengths, &[u8])>
    ensures { ReadsLengths bytes.now result }
{
    let (shared, after_shared) = take_number(bytes)?;
    let (rest, after_rest) = take_number(after_shared)?;
    let (value, texts) = take_number(after_rest)?;
    Some((
        Lengths {
            shared,
            rest,
            value,
        },
        texts,
    ))
}

// The lengths at the front, and what follows them. Most are below 128 and have a byte each.
#[inline]
fn take_lengths(bytes: &[u8]) -> Option<(Lengths, &[u8])>
    ensures { ReadsLengths bytes.now result }
{
    let [shared, rest, value, texts @ ..] = bytes else {
        return None;
    };
    let all = *shared | *rest | *value;
    if all >= 128 {
        return take_long_lengths(bytes);
    }
    Some((
        Lengths {
            shared: *shared as usize,
            rest: *rest as usize,
            value: *value as usize,
        },
        texts,
    ))
}

/// The entry at the front, and what follows it; `None` where none is there.
#[inline]
pub(crate) fn take_entry(bytes: &[u8]) -> Option<(EntryParts<'_>, &[u8])>
    ensures { ReadsEntry bytes.now result }
{
    let (lengths, texts) = take_lengths(bytes)?;
    let (rest, after) = texts.split_at_checked(lengths.rest)?;
    let (value, left) = after.split_at_checked(lengths.value)?;
    Some((
        EntryParts {
            shared: lengths.shared,
            rest,
            value,
        },
        left,
    ))
}

/// Whether the first of these restart points is `offset`.
#[inline]
pub(crate) fn begins_at(points: &[u8], offset: usize) -> bool
    ensures { result ≡ begins offset (numbers_in points.now) }
{
    points.len() >= 4 && LittleEndian::read_u32(points) as usize == offset
}
