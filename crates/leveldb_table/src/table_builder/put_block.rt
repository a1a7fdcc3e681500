//! Blocks put into a table's file, each with its trailer.
// LevelDB: table/table_builder.cc, TableBuilder::WriteRawBlock
ghost use Rattle.std.specs.Prelude.{◌≡◌, ◌+◌, ◌^◌, ◌<◌, ◌≤◌, ◌++◌, ◌∷◌, [], ℕ, List, None, IfOk, IfErr, IfSome, IfNone, OnOk, IsErrAnd, length};
ghost use Rattle.leveldb_base.specs.Error.{IsOutOfMemory};
ghost use Rattle.leveldb_env.specs.Compressor.{Decodes, IsUnset};
ghost use Rattle.leveldb_table.specs.Table.{with_trailer};
ghost use Rattle.leveldb_table.specs.PutBlock.{PutsBlock, IsNotPut, IsPutError, PutsNone};

use super::TRAILER;
use leveldb_base::blockhandle::BlockHandle;
use leveldb_base::crc::{crc32, mask_crc};
use leveldb_base::error::{Result, StatusCode, err};
use leveldb_env::compressor::{Compressor, CompressorList, Compressors};
use leveldb_env::env::Sink;
use std::alloc::Global;

/// Where a block was put, and where it ends with its trailer.
#[derive(Clone, Copy)]
pub struct Placed {
    pub handle: BlockHandle,
    pub end: usize,
}

/// Stores a block by the compressor of an id, and puts it at the file's end, which is at the
/// offset.
pub fn put_encoded<S: Sink>(
    alloc: Global,
    sink: &mut S,
    compressors: &CompressorList,
    id: u8,
    offset: usize,
    block: Vec<u8>,
) -> Result<Placed>
    ensures ok { IfOk result (λ placed. (stored : List ℕ) × Decodes
        (⟦<CompressorList as Compressors>⟧.codings compressors.now) id stored block.items
        × PutsBlock S.puts id stored sink.old offset placed.handle placed.end sink.new) }
    ensures err { IfErr result (λ status. PutsNone S.puts sink.old status sink.new) }
    ensures cause { let codings = ⟦<CompressorList as Compressors>⟧.codings compressors.now in
        IfErr result (λ status. IsNotPut S.puts codings id block.items offset sink.old status
        sink.new) }
    ensures unset { ⟦<CompressorList as Compressors>⟧.codings compressors.now id ≡ None
        → IsErrAnd result (IsUnset id) × (sink.new ≡ sink.old) }
{
    let compressor = compressors.get(alloc, id)?;
    put_stored(alloc, sink, id, offset, compressor.encode(alloc, block)?)
}

/// Puts a stored block with its trailer at the file's end, which is at the offset, in one put.
pub fn put_stored<S: Sink>(
    alloc: Global,
    sink: &mut S,
    id: u8,
    offset: usize,
    stored: Vec<u8>,
) -> Result<Placed>
    ensures ok { IfOk result (λ placed. PutsBlock S.puts id stored.items sink.old offset
        placed.handle placed.end sink.new) }
    ensures err { IfErr result (λ status. IsPutError S.puts (with_trailer id stored.items)
        (offset + length stored.items + 5) sink.old status sink.new) }
{
    let size = stored.len();
    let Some(end) = end_of(offset, size) else {
        return err(
            alloc,
            StatusCode::NotSupported,
            "a table has offsets of 64 bits",
        );
    };
    let mut stored = stored;
    put_trailer(&mut stored, id)?;
    sink.put_all(&stored)?;
    Ok(Placed {
        handle: BlockHandle::new(offset, size),
        end,
    })
}

// Where a stored block of this size ends with its trailer.
fn end_of(offset: usize, size: usize) -> Option<usize>
    ensures some { IfSome result (λ end. end ≡ offset + size + 5) }
    ensures none { IfNone result (2 ^ 64 ≤ offset + size + 5) }
{
    offset.checked_add(size)?.checked_add(TRAILER)
}

// Puts the trailer after a stored block.
fn put_trailer(stored: &mut Vec<u8>, id: u8) -> Result<()>
    ensures ok { OnOk result (stored.new.items ≡ with_trailer id stored.old.items) }
    ensures memory { IfErr result IsOutOfMemory }
{
    stored.reserve(TRAILER)?;
    stored.push(id)?;
    let sum = mask_crc(crc32(stored)).to_le_bytes();
    stored.extend_from_slice(&sum)?;
    Ok(())
}
