//! The keys of a data block that is judged.
ghost use Rattle.std.specs.Prelude.{◌↔◌, IsTrue, IfOk, IfErr, None};
ghost use Rattle.leveldb_base.specs.Error.{IsOutOfMemory};
ghost use Rattle.leveldb_table.specs.Block.{pairs_of};
ghost use Rattle.leveldb_table.specs.BlockCheck.{key_before};
ghost use Rattle.leveldb_table.specs.ReadableTable.{IsNumberedKey, IsKeyBetween, AreKeysBetween};

use crate::block::Block;
use byteorder::{ByteOrder, LittleEndian};
use leveldb_base::cmp::Cmp;
use leveldb_base::error::Result;
use leveldb_base::key_types::TAG_LEN;
use leveldb_base::types::LdbIterator;
use std::alloc::Global;

/// The line of an index whose data block is judged: its key, and the key of the line before unless
/// it is the first.
#[derive(Clone, Copy)]
pub(crate) struct LineKeys<'a> {
    pub first: bool,
    pub before: &'a [u8],
    pub here: &'a [u8],
}

// Whether a key has its tag, of a type that there is and a sequence number from 1 on.
fn is_numbered(key: &[u8]) -> bool
    ensures { IsTrue result ↔ IsNumberedKey key.now }
{
    let Some(at) = key.len().checked_sub(TAG_LEN) else {
        return false;
    };
    let tag = LittleEndian::read_u64(&key[at..]);
    tag % 256 < 2 && tag / 256 > 0
}

// Whether a key of the block is one that may be there.
fn is_between<C: Cmp>(cmp: &C, line: LineKeys<'_>, key: &[u8]) -> bool
    ensures { IsTrue result ↔ IsKeyBetween (C.accepts cmp.now) (C.cmp cmp.now)
        (key_before line.entry.first line.entry.before.now) line.entry.here.now key.now }
{
    cmp.accepts(key)
        && is_numbered(key)
        && (line.first || cmp.cmp(line.before, key).is_lt())
        && cmp.cmp(line.here, key).is_ge()
}

/// Whether the block has keys, each of them one that may be there.
pub(crate) fn are_between<C: Cmp + Drop>(
    alloc: Global,
    cmp: &C,
    line: LineKeys<'_>,
    block: &Block<C>,
) -> Result<bool>
    ensures ok { IfOk result (λ holds. IsTrue holds ↔ AreKeysBetween (C.accepts cmp.now)
        (C.cmp cmp.now) (key_before line.entry.first line.entry.before.now) line.entry.here.now
        (pairs_of None block.now.entries)) }
    ensures memory { IfErr result IsOutOfMemory }
{
    let mut pairs = block.iter(alloc);
    pairs.seek_to_first()?;
    let some = pairs.valid();
    'pairs: while let Some((key, _)) = pairs.current() {
        if !is_between(cmp, line, key) {
            return Ok(false);
        }
        pairs.advance()?;
    }
    Ok(some)
}
