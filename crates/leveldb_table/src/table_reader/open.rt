//! What is read when a table is opened.
// LevelDB: table/table.cc, Table::Open
ghost use Rattle.std.specs.Prelude.{◌≡◌, ◌⊎◌, ℕ, List, Option, None, IfOk, IfErr, IfSome};
ghost use Rattle.leveldb_base.specs.BlockHandle.{Handle};
ghost use Rattle.leveldb_base.specs.Error.{IsOutOfMemory};
ghost use Rattle.leveldb_base.specs.declared.error.StatusCode.TheVariants.{Corruption};
ghost use Rattle.leveldb_table.specs.Block.{pairs_of};
ghost use Rattle.leveldb_table.specs.Table.{filter_key};
ghost use Rattle.leveldb_table.specs.TableReader.{EndsInFooter, HasIndex, IsNoIndex, HasFiltersBy, GivesHandle, GivesNoHandle, value_under, filters_in};
ghost use Rattle.leveldb_table.specs.TableBlock.{ReadsFile, ForBytesOf, IsDamaged, IsLackError};

use super::whole_handle;
use crate::block::Block;
use crate::damage::{corruption, too_short};
use crate::table_block::{read_bytes, read_filter_block, read_table_block};
use crate::table_builder::{FULL_FOOTER_LENGTH, Footer};
use bytes::BytesMut;
use leveldb_base::blockhandle::BlockHandle;
use leveldb_base::cmp::{Cmp, DefaultCmp};
use leveldb_base::error::Result;
use leveldb_base::types::LdbIterator;
use leveldb_env::compressor::{CompressorList, Compressors};
use leveldb_env::env::Env;
use leveldb_env::filter::FilterPolicy;
use leveldb_env::filter_block::FilterBlockReader;
use std::alloc::Global;

/// The footer in which the first `size` bytes of a file end, and the index where that says.
pub fn read_index<E: Env, C: Cmp + Drop>(
    alloc: Global,
    cmp: C,
    env: &mut E,
    file: &E::File,
    compressors: &CompressorList,
    size: usize,
) -> Result<(Footer, Block<C>)>
    ensures reads { let codings = ⟦<CompressorList as Compressors>⟧.codings compressors.now in
        ReadsFile E.Env (IsLackError E.Env codings (IsNoIndex codings (C.cmp cmp) size) env.old
        file.now) env.old env.new result }
    ensures ok { let codings = ⟦<CompressorList as Compressors>⟧.codings compressors.now in
        IfOk result (λ found. ForBytesOf E.Env env.old file.now (λ bytes. HasIndex codings
        (C.cmp cmp) bytes size (pairs_of None found.1.entries) found.0.meta_index
        found.0.index)) }
    ensures order { IfOk result (λ found. found.1.cmp ≡ cmp) }
{
    let footer = read_footer(alloc, env, file, size)?;
    let index = read_table_block(alloc, cmp, env, file, compressors, footer.index)?;
    Ok((footer, index))
}

// The footer in which the first `size` bytes of a file end.
fn read_footer<E: Env>(alloc: Global, env: &mut E, file: &E::File, size: usize) -> Result<Footer>
    ensures reads { ReadsFile E.Env (IsDamaged E.Env (λ bytes. (meta index : Handle)
        → EndsInFooter bytes size meta index → ⊥) env.old file.now) env.old env.new
        result }
    ensures ok { IfOk result (λ footer. ForBytesOf E.Env env.old file.now
        (λ bytes. EndsInFooter bytes size footer.meta_index footer.index)) }
{
    let Some(offset) = size.checked_sub(FULL_FOOTER_LENGTH) else {
        return too_short(alloc, size);
    };
    let (length, buffer) = (FULL_FOOTER_LENGTH, BytesMut::new(alloc));
    let bytes = read_bytes(alloc, env, file, "footer", offset, length, buffer)?;
    match Footer::decode(bytes.as_slice()) {
        Some(footer) => Ok(footer),
        None => corruption(alloc, "footer", offset, "no magic number, or bad handles"),
    }
}

/// The filters that the metaindex at this offset names under the policy's name, where there are
/// some.
pub fn read_filters<E: Env, FP: FilterPolicy + Drop>(
    alloc: Global,
    policy: FP,
    env: &mut E,
    file: &E::File,
    metas: &Block<DefaultCmp>,
    offset: usize,
) -> Result<Option<FilterBlockReader<FP>>>
    ensures reads { ReadsFile E.Env (IsDamaged E.Env (λ bytes. (filters : Option (List (List ℕ)))
        → HasFiltersBy bytes (value_under (filter_key (FP.name policy)) metas.now) filters → ⊥)
        env.old file.now) env.old env.new result }
    ensures ok { IfOk result (λ filters. ForBytesOf E.Env env.old file.now
        (λ bytes. HasFiltersBy bytes (value_under (filter_key (FP.name policy)) metas.now)
        (filters_in filters))) }
    ensures policy { IfOk result (λ filters. IfSome filters (λ reader. reader.policy ≡ policy)) }
{
    let name = policy.name();
    let key = format!(in alloc; "filter.{name}")?;
    let Some(handle) = handle_under(alloc, metas, offset, key.as_bytes())? else {
        return Ok(None);
    };
    if handle.size() == 0 {
        return Ok(None);
    }
    Ok(Some(read_filter_block(alloc, policy, env, file, handle)?))
}

// The handle that the metaindex at this offset has under a key.
fn handle_under(
    alloc: Global,
    metas: &Block<DefaultCmp>,
    offset: usize,
    key: &[u8],
) -> Result<Option<BlockHandle>>
    ensures ok { IfOk result (λ handle. GivesHandle (value_under key.now metas.now) handle) }
    ensures cause { IfErr result (λ status. IsOutOfMemory status
        ⊎ ((status.code ≡ Corruption) × GivesNoHandle (value_under key.now metas.now))) }
{
    let mut lines = metas.iter(alloc);
    lines.seek(key)?;
    match lines.current() {
        Some((name, value)) if name == key => Ok(Some(whole_handle(
            alloc,
            value,
            "metaindex",
            offset,
        )?)),
        _ => Ok(None),
    }
}
