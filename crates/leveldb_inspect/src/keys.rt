//! Internal keys as text.
// LevelDB: db/dbformat.cc, ParsedInternalKey::DebugString
ghost use Rattle.std.specs.Prelude.{IfErr};
ghost use Rattle.leveldb_inspect.specs.Inspect.{IsOutputError};

use crate::lines::Lines;
use byteorder::{ByteOrder, LittleEndian};
use leveldb_base::error::Result;
use leveldb_env::env::Sink;

const TAG_LEN: usize = 8;

/// The parts of an internal key.
#[derive(Clone, Copy)]
pub(crate) struct KeyParts<'a> {
    pub(crate) user: &'a [u8],
    pub(crate) sequence: u64,
    pub(crate) is_deletion: bool,
}

/// The parts of an internal key; none where it is too short, or of an unknown type.
pub(crate) fn key_parts(key: &[u8]) -> Option<KeyParts<'_>> {
    let length = key.len().checked_sub(TAG_LEN)?;
    let (user, tag) = key.split_at(length);
    let tag = LittleEndian::read_u64(tag);
    if tag % 256 > 1 {
        return None;
    }
    Some(KeyParts {
        user,
        sequence: tag / 256,
        is_deletion: tag % 256 == 0,
    })
}

/// Adds an internal key as `'user' @ 7 : 1`, with its number and its type.
pub(crate) fn print_key<O: Sink>(lines: &mut Lines<O>, key: &[u8]) -> Result<()>
    ensures cause { IfErr result (IsOutputError O.Sink) }
{
    let Some(parts) = key_parts(key) else {
        lines.text("(bad)")?;
        return lines.bytes(key);
    };
    lines.quoted(parts.user)?;
    lines.text(" @ ")?;
    lines.number(parts.sequence)?;
    lines.text(if parts.is_deletion { " : 0" } else { " : 1" })
}
