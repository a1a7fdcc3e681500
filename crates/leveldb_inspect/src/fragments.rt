//! The fragments of a block of a log.
// LevelDB: db/log_reader.cc, Reader::ReadPhysicalRecord
ghost use Rattle.std.specs.Prelude.{◌≡◌, ◌≤◌, ◌<◌, ◌+◌, ℕ, length, IfSome};
ghost use Rattle.leveldb_inspect.specs.Inspect.{FitsFront};

use leveldb_base::crc::{crc32, mask_crc};
use leveldb_mem::log::{BLOCK_SIZE, HEADER_SIZE};

/// What comes at an offset of a block.
#[derive(Clone, Copy, Debug, PartialEq, Eq)]
pub(crate) enum Front {
    /// No more fragment of this block.
    End,
    /// A whole fragment of this type, and how many bytes it has with its header.
    Whole(u8, usize),
    /// What a crash may leave of a fragment: the file ends in it, or has zeros in its place.
    Torn(&'static str),
    /// No fragment.
    Bad(&'static str),
}

/// What comes at this offset of a block, whose bytes these are: fewer than a block's size only
/// where the file ends with them.
pub(crate) fn front_at(block: &[u8], at: usize) -> Front
    requires within { at ≤ length block.now }
    requires block { length block.now ≤ 32768 }
    ensures fits { FitsFront block.now at result }
{
    let rest = &block[at..];
    if rest.is_empty() {
        return Front::End;
    }
    if BLOCK_SIZE - at < HEADER_SIZE {
        return filler(rest, BLOCK_SIZE - at);
    }
    if are_zeros(rest) {
        return Front::Torn("zeros in place of a record");
    }
    if rest.len() < HEADER_SIZE {
        return Front::Torn("header cut short");
    }
    let count = HEADER_SIZE + data_length(rest);
    if count > BLOCK_SIZE - at {
        return Front::Bad("fragment past its block");
    }
    let Some(fragment) = rest.get(..count) else {
        return Front::Torn("data cut short");
    };
    if !has_right_checksum(fragment) {
        return Front::Bad("wrong checksum");
    }
    Front::Whole(fragment[6], count)
}

// What bytes are that come where only filler fits, `room` bytes of it.
fn filler(rest: &[u8], room: usize) -> Front
    ensures { (kind count : ℕ) → result ≡ Front.Whole kind count → ⊥ }
{
    if !are_zeros(rest) {
        return Front::Bad("filler that isn't zero");
    }
    if rest.len() < room {
        return Front::Torn("filler cut short");
    }
    Front::End
}

/// The next offset of a block, from this one on, at which a whole fragment of a known type begins.
pub(crate) fn next_whole(block: &[u8], from: usize) -> Option<usize>
    requires block { length block.now ≤ 32768 }
    ensures within { IfSome result (λ at. at ≤ length block.now) }
    ensures later { IfSome result (λ at. from ≤ at) }
{
    for at in from..block.len() {
        // Most offsets have no known type where a fragment's is.
        let may_begin = matches!(block.get(at + 6), Some(1..=4));
        if may_begin && matches!(front_at(block, at), Front::Whole(_, _)) {
            return Some(at);
        }
    }
    None
}

// How many bytes of data the fragment with this header has.
fn data_length(header: &[u8]) -> usize
    requires { 7 ≤ length header.now }
    ensures { result < 65536 }
{
    usize::from(header[4]) + 256 * usize::from(header[5])
}

// Whether the header's checksum is that of the fragment.
fn has_right_checksum(fragment: &[u8]) -> bool
    requires { 7 ≤ length fragment.now }
{
    let sum = mask_crc(crc32(&fragment[6..])).to_le_bytes();
    fragment[..4] == sum[..]
}

fn are_zeros(bytes: &[u8]) -> bool {
    bytes.iter().all(|byte| *byte == 0)
}
