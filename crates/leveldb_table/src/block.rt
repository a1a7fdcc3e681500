//! Blocks: sorted pairs as bytes, checked once and then walked both ways.
// LevelDB: table/block.cc
ghost use Rattle.std.specs.Prelude.{◌≡◌, ◌⊎◌, None, IfOk, IfErr, IfSome, IsErrAnd};
ghost use Rattle.leveldb_base.specs.Error.{IsOutOfMemory};
ghost use Rattle.leveldb_base.specs.declared.error.StatusCode.TheVariants.{Corruption};
ghost use Rattle.leveldb_table.specs.Block.{HasEntries, HasEntriesEndingAt, IsBlock, IsNoBlock, pairs_of};
ghost use Rattle.leveldb_table.specs.BlockWalk.{position_over};
ghost use Rattle.leveldb_table.specs.BlockLaws.{HasEntriesEndingAt-prop};

use bytes::{Bytes, BytesMut};
use check::{check_parts, entries_end};
use leveldb_base::cmp::Cmp;
use leveldb_base::error::{Result, StatusCode, err};
use std::alloc::{AllocError, Global};
use std::marker::Model;

mod check;
mod entry;
mod iter;
mod owned;
mod points;
mod walk;

pub use iter::BlockIter;
pub use owned::OwnedBlockIter;
pub use walk::{BlockCore, Spot};

/// The bytes of a block, shared with no copy.
pub type BlockContents = Bytes;

/// Pairs sorted under a comparator, held as the bytes of a block.
#[derive(Drop)]
pub struct Block<C: Cmp> {
    cmp: C,
    contents: BlockContents,

    // where the entries end
    limit: usize,

    // whether it is known that the comparator accepts all keys
    accepted: bool,
    ghost entries: { HasEntriesEndingAt (C.accepts cmp)
        (C.cmp cmp) contents limit accepted } by { HasEntriesEndingAt-prop (C.accepts cmp)
            (C.cmp cmp) contents limit accepted },
}

impl<C: Cmp> Model for Block<C> {
    ghost use Rattle.leveldb_table.specs.Block.{BlockRead};

    ghost Value = { BlockRead C };

    ghost view = { λ it. record {
      cmp = it.cmp;
      contents = it.contents;
      entries = it.entries.0;
    } };
}

impl<C: Cmp + Drop> Block<C> {
    /// The block that these bytes are under `cmp`.
    /// `Corruption` where they are none.
    pub fn new(alloc: Global, cmp: C, contents: BlockContents) -> Result<Block<C>>
        ensures ok { IfOk result
            (λ block. IsBlock (C.cmp cmp) contents (pairs_of None block.entries)) }
        ensures encoded { IfOk result
            (λ block. HasEntries (C.cmp block.cmp) block.contents block.entries) }
        ensures same_contents { IfOk result (λ block. block.contents ≡ contents) }
        ensures same_order { IfOk result (λ block. block.cmp ≡ cmp) }
        ensures damage { IsErrAnd result (λ status. status.code ≡ Corruption)
            → IsNoBlock (C.cmp cmp) contents }
        ensures cause { IfErr result
            (λ status. (status.code ≡ Corruption) ⊎ IsOutOfMemory status) }
    {
        let bytes = contents.as_slice();
        let Some(limit) = entries_end(bytes) else {
            return damaged(alloc);
        };
        match check_parts(alloc, &cmp, &bytes[..limit], &bytes[limit..bytes.len() - 4])? {
            Some(accepted) => Ok(Block {
                cmp,
                contents,
                limit,
                accepted,
            }),
            None => damaged(alloc),
        }
    }

    /// A walk over the block's pairs, at no position.
    pub fn iter(&self, alloc: Global) -> BlockIter<'_, C>
        ensures block { result.block ≡ self.entry.now }
        ensures position { position_over result ≡ None }
        ensures encoded { HasEntries (C.cmp self.entry.now.cmp) self.entry.now.contents
            self.entry.now.entries }
    {
        BlockIter::new(alloc, self)
    }

    /// The bytes of the block, shared with no copy.
    pub fn contents(&self) -> Result<BlockContents>
        ensures ok { IfOk result (λ contents. contents ≡ self.now.contents) }
        ensures memory { IfErr result IsOutOfMemory }
    {
        Ok(self.contents.clone()?)
    }

    /// The buffer that the block's bytes are in, to be used again, if nothing else shares them.
    /// Taking it needs no memory.
    pub(crate) fn into_buffer(self) -> Option<BytesMut>
        ensures { IfSome result (λ buffer. buffer.items ≡ self.contents) }
    {
        self.contents.try_into_mut().ok()
    }
}

impl<C: Cmp + Copy> Clone for Block<C> {
    ghost is_clone = { λ block copy. (copy ≡ block)
        × HasEntries (C.cmp block.cmp) block.contents block.entries };

    fn clone(&self) -> std::result::Result<Block<C>, AllocError> {
        Ok(Block {
            cmp: self.cmp,
            contents: self.contents.clone()?,
            limit: self.limit,
            accepted: self.accepted,
        })
    }
}

fn damaged<T>(alloc: Global) -> Result<T>
    ensures { IsErrAnd result (λ status. status.code ≡ Corruption) }
{
    err(alloc, StatusCode::Corruption, "not a block")
}
