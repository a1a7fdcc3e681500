//! The offset and size of a block in its file, as a table's indexes and its footer keep them.
// LevelDB: table/format.h, BlockHandle
ghost use Rattle.std.specs.Prelude.{◌≡◌, ◌≤◌, ◌++◌, Option, Some, length, drop};
ghost use Rattle.leveldb_base.specs.BlockHandle.{Handle, HandleFits, handle_bytes, ReadsHandle};

use crate::varint::{encode_varint64, get_varint64};
use std::marker::Model;

/// A block's offset in its file and its size, in bytes, without the trailer after the block.
#[derive(Clone, Copy, Debug)]
pub struct BlockHandle {
    offset: usize,
    size: usize,
}

impl Model for BlockHandle {
    ghost Value = { Handle };

    ghost view = { λ it. record { offset = it.offset; size = it.size } };

    ghost inverse = { λ handle. record { offset = handle.offset; size = handle.size } };
}

impl BlockHandle {
    /// The handle of the `size` bytes from `offset` on.
    pub fn new(offset: usize, size: usize) -> BlockHandle
        ensures handle { result ≡ record { offset = offset; size = size } }
        ensures fits { HandleFits result }
    {
        BlockHandle { offset, size }
    }

    /// The offset of the block's first byte.
    pub fn offset(&self) -> usize
        ensures { result ≡ self.now.offset }
    {
        self.offset
    }

    /// The number of bytes of the block as it is stored.
    pub fn size(&self) -> usize
        ensures { result ≡ self.now.size }
    {
        self.size
    }

    /// The handle at the front of `from`, and the length of its encoding.
    /// `None` where no handle's encoding is a prefix of `from`.
    #[inline]
    pub fn decode(from: &[u8]) -> Option<(BlockHandle, usize)>
        ensures { ReadsHandle from.now result }
    {
        let (offset, used) = get_varint64(from)?;
        let (size, more) = get_varint64(&from[used..])?;
        let handle = BlockHandle::new(offset as usize, size as usize);
        Some((handle, used + more))
    }

    /// Writes the handle at the front of `dst`, which has room for it, and returns the number of
    /// bytes written. 20 bytes are room enough for any handle.
    #[inline]
    #[tactic(auto, using(crate::proofs::VarintLemmas::varint_lengths))]
    pub fn encode_to(&self, dst: &mut [u8]) -> usize
        requires { HandleFits self.now → length (handle_bytes self.now) ≤ length dst.old }
        ensures used { result ≡ length (handle_bytes self.now) }
        ensures short { result ≤ 20 }
        ensures written { dst.new
            ≡ handle_bytes self.now ++ drop (length (handle_bytes self.now)) dst.old }
    {
        let used = encode_varint64(dst, self.offset as u64);
        used + encode_varint64(&mut dst[used..], self.size as u64)
    }
}
