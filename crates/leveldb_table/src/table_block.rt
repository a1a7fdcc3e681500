//! Blocks read from a table's file, each with its trailer.
// LevelDB: table/format.cc, ReadBlock
ghost use Rattle.std.specs.Prelude.{◌≡◌, ◌⊎◌, ◌≤◌, ◌<◌, ◌+◌, ◌^◌, ℕ, length, take, drop, List, [], None, IfOk, IfErr, IfSome, IfNone, IsErrAnd};
ghost use Rattle.leveldb_base.specs.Error.{IsOutOfMemory};
ghost use Rattle.leveldb_base.specs.declared.error.StatusCode.TheVariants.{InvalidArgument};
ghost use Rattle.leveldb_env.specs.Compressor.{Decodes};
ghost use Rattle.leveldb_env.specs.Env.{ReadsFrom};
ghost use Rattle.leveldb_env.specs.FilterBlock.{IsFilterBlock};
ghost use Rattle.leveldb_table.specs.Block.{HasEntries};
ghost use Rattle.leveldb_table.specs.Table.{StoresAt, HasBlockAt, with_trailer};
ghost use Rattle.leveldb_table.specs.TableBlock.{EndsBefore, StoresNothing, HasNoFilters, LacksBlock, ReadsFile, ForBytesOf, IsDamaged, IsLackError, IsUndecoded};

use crate::block::Block;
use crate::damage::{corruption, located};
use crate::table_builder::{TABLE_BLOCK_COMPRESS_LEN, TRAILER};
use bytes::{Bytes, BytesMut};
use leveldb_base::blockhandle::BlockHandle;
use leveldb_base::cmp::Cmp;
use leveldb_base::crc::{crc32, mask_crc};
use leveldb_base::error::{Result, StatusCode, err};
use leveldb_env::compressor::{Compressor, CompressorList, Compressors, ListedCompressor};
use leveldb_env::env::Env;
use leveldb_env::filter::FilterPolicy;
use leveldb_env::filter_block::FilterBlockReader;
use std::alloc::Global;

// So much room is made at first, or less for a smaller block, and then as much again as came,
// where that is more: so a block of up to this size is read into one buffer, which never moves.
const STEP: usize = 1 << 20;

const PAST_END: &str = "past the end of the file";

/// The block that a file has at a handle. Where a read is short, it goes on until all bytes came.
/// `Corruption` for a handle past the file's end, a wrong checksum and bytes that are no block;
/// `NotSupported` for an id without a compressor; a code of the compressor's own, and no other,
/// where it fails for the stored bytes.
pub fn read_table_block<E: Env, C: Cmp + Drop>(
    alloc: Global,
    cmp: C,
    env: &mut E,
    file: &E::File,
    compressors: &CompressorList,
    location: BlockHandle,
) -> Result<Block<C>>
    ensures reads { let codings = ⟦<CompressorList as Compressors>⟧.codings compressors.now in
        ReadsFile E.Env (IsLackError E.Env codings (λ bytes.
        LacksBlock codings (C.cmp cmp) bytes location) env.old file.now) env.old env.new
        result }
    ensures ok { IfOk result (λ block. ForBytesOf E.Env env.old file.now
        (λ bytes. HasBlockAt (Decodes (⟦<CompressorList as Compressors>⟧.codings compressors.now))
        bytes location block.contents)) }
    ensures order { IfOk result (λ block. block.cmp ≡ cmp) }
    ensures encoded { IfOk result
        (λ block. HasEntries (C.cmp block.cmp) block.contents block.entries) }
{
    let buffer = BytesMut::new(alloc);
    read_block_into(alloc, cmp, env, file, compressors, location, buffer)
}

/// `read_table_block`, but the stored bytes are read into this buffer, if it fits; else, and after
/// an error, it is dropped. A block that is stored as it is stays there. What is in the buffer
/// doesn't matter.
pub(crate) fn read_block_into<E: Env, C: Cmp + Drop>(
    alloc: Global,
    cmp: C,
    env: &mut E,
    file: &E::File,
    compressors: &CompressorList,
    location: BlockHandle,
    buffer: BytesMut,
) -> Result<Block<C>>
    ensures reads { let codings = ⟦<CompressorList as Compressors>⟧.codings compressors.now in
        ReadsFile E.Env (IsLackError E.Env codings (λ bytes.
        LacksBlock codings (C.cmp cmp) bytes location) env.old file.now) env.old env.new
        result }
    ensures ok { IfOk result (λ block. ForBytesOf E.Env env.old file.now
        (λ bytes. HasBlockAt (Decodes (⟦<CompressorList as Compressors>⟧.codings compressors.now))
        bytes location block.contents)) }
    ensures order { IfOk result (λ block. block.cmp ≡ cmp) }
    ensures encoded { IfOk result
        (λ block. HasEntries (C.cmp block.cmp) block.contents block.entries) }
{
    let (id, stored) = read_stored(alloc, env, file, location, buffer)?;
    match Block::new(alloc, cmp, decoded(alloc, compressors, id, stored)?) {
        Ok(block) => Ok(block),
        Err(status) => located(alloc, status, "block", location.offset(), "not a block"),
    }
}

/// The filters that a file has at a handle. `InvalidArgument` where the handle's size is 0, which
/// is no filters. `Corruption` for a handle past the file's end, a wrong checksum, and what is no
/// filter block or not stored as it is.
pub fn read_filter_block<E: Env, FP: FilterPolicy + Drop>(
    alloc: Global,
    policy: FP,
    env: &mut E,
    file: &E::File,
    location: BlockHandle,
) -> Result<FilterBlockReader<FP>>
    ensures reads { ReadsFile E.Env (λ status. ((status.code ≡ InvalidArgument)
        × (location.size ≡ 0)) ⊎ IsDamaged E.Env (λ bytes. HasNoFilters bytes location) env.old
        file.now status) env.old env.new result }
    ensures ok { IfOk result (λ reader. ForBytesOf E.Env env.old file.now
        (λ bytes. (text : List ℕ) × StoresAt bytes location 0 text
        × IsFilterBlock text reader.filters)) }
    ensures policy { IfOk result (λ reader. reader.policy ≡ policy) }
    ensures none { location.size ≡ 0 → IsErrAnd result (λ status. status.code ≡ InvalidArgument) }
{
    if location.size() == 0 {
        return err(
            alloc,
            StatusCode::InvalidArgument,
            "no filter block in empty location",
        );
    }
    let buffer = BytesMut::new(alloc);
    let (id, stored) = read_stored(alloc, env, file, location, buffer)?;
    if id != 0 {
        return corruption(alloc, "filter block", location.offset(), "compressed");
    }
    match FilterBlockReader::new(alloc, policy, stored.freeze()?) {
        Ok(filters) => Ok(filters),
        Err(status) => {
            let offset = location.offset();
            located(alloc, status, "filter block", offset, "not a filter block")
        }
    }
}

/// What the bytes that are stored under this id are decoded to. Those of a block that is stored as
/// it is stay where they are. `NotSupported` for an id without a compressor; a code of the
/// compressor's own, and no other, where it fails for these bytes; or out of memory.
pub(crate) fn decoded(
    alloc: Global,
    compressors: &CompressorList,
    id: u8,
    stored: BytesMut,
) -> Result<Bytes>
    ensures ok { let codings = ⟦<CompressorList as Compressors>⟧.codings compressors.now in
        IfOk result (Decodes codings id stored.items) }
    ensures cause { let codings = ⟦<CompressorList as Compressors>⟧.codings compressors.now in
        IfErr result (λ status. IsOutOfMemory status
        ⊎ IsUndecoded codings id stored.items status) }
{
    match compressors.get(alloc, id)? {
        ListedCompressor::Plain(_) => Ok(stored.freeze()?),
        ListedCompressor::Boxed(compressor) => {
            let copy = Vec::from_slice(alloc, stored.as_slice())?;
            drop(stored);
            Ok(Bytes::from_vec(compressor.decode(alloc, copy)?)?)
        }
    }
}

// The stored bytes at a handle, in this buffer, if it fits, and the id after them.
fn read_stored<E: Env>(
    alloc: Global,
    env: &mut E,
    file: &E::File,
    location: BlockHandle,
    buffer: BytesMut,
) -> Result<(u8, BytesMut)>
    ensures reads { ReadsFile E.Env (IsDamaged E.Env (λ bytes. StoresNothing bytes location)
        env.old file.now) env.old env.new result }
    ensures ok { IfOk result (λ found. ForBytesOf E.Env env.old file.now
        (λ bytes. StoresAt bytes location found.0 found.1.items)) }
{
    let (offset, size) = (location.offset(), location.size());
    let Some(total) = size.checked_add(TRAILER) else {
        return corruption(alloc, "block", offset, PAST_END);
    };
    let mut stored = read_bytes(alloc, env, file, "block", offset, total, buffer)?;
    let Some(id) = checked_id(stored.as_slice(), size) else {
        return corruption(alloc, "block", offset, "wrong checksum");
    };
    stored.truncate(size);
    Ok((id, stored))
}

/// The id after `size` stored bytes, where the checksum after it is right.
pub(crate) fn checked_id(bytes: &[u8], size: usize) -> Option<u8>
    requires { length bytes.now ≡ size + 5 }
    ensures some { IfSome result (λ id. bytes.now ≡ with_trailer id (take size bytes.now)) }
    ensures none { IfNone result ((id : ℕ) (stored : List ℕ) → length stored ≡ size
        → bytes.now ≡ with_trailer id stored → ⊥) }
{
    let (stored, sum) = bytes.split_at(size + TABLE_BLOCK_COMPRESS_LEN);
    let right = mask_crc(crc32(stored)).to_le_bytes();
    if sum != right.as_slice() {
        return None;
    }
    Some(stored[size])
}

// The buffer, emptied, if it has room for `size` bytes and for no more than twice as many, not
// counting what its allocation has beyond the bytes that were ever used; else one without room.
fn fitting(alloc: Global, mut buffer: BytesMut, size: usize) -> BytesMut
    ensures items { result.items ≡ [] }
    ensures spare { result.spare ≤ size + size }
{
    buffer.clear();
    let room = buffer.capacity();
    if room < size || size < room - size {
        return BytesMut::new(alloc);
    }
    buffer
}

/// `size` bytes of a file from `offset` on, which this part of a table has; `Corruption` where the
/// file ends before. They are read into this buffer, if it has room for them and for no more than
/// twice as many. Else it is dropped, and the new one takes less memory than four times what the
/// file gave, and two steps.
pub(crate) fn read_bytes<E: Env>(
    alloc: Global,
    env: &mut E,
    file: &E::File,
    part: &str,
    offset: usize,
    size: usize,
    buffer: BytesMut,
) -> Result<BytesMut>
    ensures reads { ReadsFile E.Env (IsDamaged E.Env (λ bytes. EndsBefore bytes offset size)
        env.old file.now) env.old env.new result }
    ensures ok { IfOk result (λ read. ForBytesOf E.Env env.old file.now
        (λ bytes. read.items ≡ take size (drop offset bytes))) }
    ensures size { IfOk result (λ read. length read.items ≡ size) }
{
    let mut read = fitting(alloc, buffer, size);
    while read.len() < size {
        let Some(next) = offset.checked_add(read.len()) else {
            return corruption(alloc, part, offset, PAST_END);
        };
        let known = read.len();
        let more = (size - known).min(known.max(STEP));
        read.reserve(more)?;
        read.advance_mut(more);
        let came = read_some(alloc, env, file, next, &mut read.as_mut_slice()[known..])?;
        if came == 0 {
            return corruption(alloc, part, offset, PAST_END);
        }
        read.truncate(known + came);
    }
    Ok(read)
}

// Reads some bytes of a file from `offset` on, as the environment does; a file that is missing is
// damage.
fn read_some<E: Env>(
    alloc: Global,
    env: &mut E,
    file: &E::File,
    offset: usize,
    target: &mut [u8],
) -> Result<usize>
    ensures reads { ReadsFile E.Env (IsDamaged E.Env (λ _. ⊥) env.old file.now)
        env.old env.new result }
    ensures fits { IfOk result (λ count. count ≤ length target.new) }
    ensures bytes { IfOk result (λ count. ForBytesOf E.Env env.old file.now
        (ReadsFrom offset count target.new)) }
{
    match env.read_at(file, offset, target) {
        Ok(count) => Ok(count),
        Err(status) => {
            if status.code == StatusCode::NotFound {
                return corruption(alloc, "table", offset, "the file is missing");
            }
            Err(status)
        }
    }
}
