//! The blocks of a file that is judged. One that isn't there is no error, as it is where a table is
//! read.
ghost use Rattle.std.specs.Prelude.{◌≡◌, ◌<◌, ◌^◌, length, MatchOption, IfOk, IfSome};
ghost use Rattle.leveldb_base.specs.BlockHandle.{Handle};
ghost use Rattle.leveldb_env.specs.Compressor.{Decodes};
ghost use Rattle.leveldb_table.specs.Block.{HasEntries};
ghost use Rattle.leveldb_table.specs.ReadableTable.{ForFileOf, HasNoBlockByMore, IsUndecodedAt};
ghost use Rattle.leveldb_table.specs.Table.{HasBlockAt, StoresAt};
ghost use Rattle.leveldb_table.specs.TableBlock.{IsDamaged, IsLackError, ReadsFile, StoresNothing};
ghost use Rattle.leveldb_table.specs.TableReader.{EndsInFooter};

use crate::block::Block;
use crate::readable::judge::Judge;
use crate::table_block::{checked_id, decoded, read_bytes};
use crate::table_builder::{FULL_FOOTER_LENGTH, Footer, TRAILER};
use bytes::BytesMut;
use leveldb_base::blockhandle::BlockHandle;
use leveldb_base::cmp::Cmp;
use leveldb_base::error::{Result, StatusCode};
use leveldb_env::compressor::{CompressorList, Compressors};
use leveldb_env::env::Env;

impl<'a, E: Env, C: Cmp> Judge<'a, E, C> {
    /// The footer in which the file ends.
    pub(crate) fn footer(&self, env: &mut E) -> Result<Option<Footer>>
        ensures reads { ReadsFile E.Env (IsDamaged E.Env (λ bytes.
            self.now.size ≡ length bytes → ⊥) env.old self.now.file) env.old env.new result }
        ensures ok { IfOk result (λ footer. ForFileOf E.Env env.old self.now.file self.now.size
            (λ bytes. MatchOption footer
            ((meta index : Handle) → EndsInFooter bytes (length bytes) meta index → ⊥)
            (λ there. EndsInFooter bytes (length bytes) there.meta_index there.index))) }
        ensures fits { self.now.size < 2 ^ 64 }
    {
        let Some(offset) = self.size.checked_sub(FULL_FOOTER_LENGTH) else {
            return Ok(None);
        };
        let (part, size) = ("footer", FULL_FOOTER_LENGTH);
        let buffer = BytesMut::new(self.alloc);
        let bytes = read_bytes(self.alloc, env, &self.file, part, offset, size, buffer)?;
        Ok(Footer::decode(bytes.as_slice()))
    }

    // The stored bytes at a handle, and the id after them, if the file has them and their checksum
    // is right.
    fn stored(&self, env: &mut E, location: BlockHandle) -> Result<Option<(u8, BytesMut)>>
        ensures reads { ReadsFile E.Env (IsDamaged E.Env (λ bytes.
            self.now.size ≡ length bytes → ⊥) env.old self.now.file) env.old env.new result }
        ensures ok { IfOk result (λ found. ForFileOf E.Env env.old self.now.file self.now.size
            (λ bytes. MatchOption found (StoresNothing bytes location)
            (λ there. StoresAt bytes location there.0 there.1.items))) }
    {
        let (offset, size) = (location.offset(), location.size());
        let Some(left) = self.size.checked_sub(offset) else {
            return Ok(None);
        };
        let Some(room) = left.checked_sub(TRAILER) else {
            return Ok(None);
        };
        if room < size {
            return Ok(None);
        }
        let total = size + TRAILER;
        let buffer = BytesMut::new(self.alloc);
        let mut stored = read_bytes(self.alloc, env, &self.file, "block", offset, total, buffer)?;
        let Some(id) = checked_id(stored.as_slice(), size) else {
            return Ok(None);
        };
        stored.truncate(size);
        Ok(Some((id, stored)))
    }

    /// The block at a handle, under this order of its keys, if the file has it. `NotSupported` for
    /// an id without a compressor; a code of the compressor's own, and no other, where it fails
    /// for the stored bytes.
    pub(crate) fn block<D: Cmp + Drop>(
        &self,
        env: &mut E,
        cmp: D,
        location: BlockHandle,
    ) -> Result<Option<Block<D>>>
        ensures reads { let codings = ⟦<CompressorList as Compressors>⟧.codings
            self.now.compressors.now in ReadsFile E.Env (IsLackError E.Env codings
            (λ bytes status. self.now.size ≡ length bytes
            → IsUndecodedAt codings bytes location status) env.old self.now.file) env.old env.new
            result }
        ensures ok { let codings = ⟦<CompressorList as Compressors>⟧.codings
            self.now.compressors.now in IfOk result (λ found. ForFileOf E.Env env.old self.now.file
            self.now.size (λ bytes. MatchOption found
            (HasNoBlockByMore codings (D.cmp cmp) bytes location)
            (λ block. HasBlockAt (Decodes codings) bytes location block.contents))) }
        ensures order { IfOk result (λ found. IfSome found (λ block. block.cmp ≡ cmp)) }
        ensures encoded { IfOk result (λ found. IfSome found
            (λ block. HasEntries (D.cmp block.cmp) block.contents block.entries)) }
    {
        let Some((id, stored)) = self.stored(env, location)? else {
            return Ok(None);
        };
        let text = decoded(self.alloc, self.compressors, id, stored)?;
        match Block::new(self.alloc, cmp, text) {
            Ok(block) => Ok(Some(block)),
            Err(status) if status.code == StatusCode::Corruption => Ok(None),
            Err(status) => Err(status),
        }
    }
}
