//! Tables: files that are opened once, and then looked up and walked block by block.
// LevelDB: table/table.cc
ghost use Rattle.std.specs.Prelude.{◌≡◌, ◌⊎◌, ◌+◌, ◌<◌, List, true, None, Some, length, map, IfOk, IfErr, MatchOption};
ghost use Rattle.leveldb_base.specs.BlockHandle.{Handle, handle_bytes, HandleFits};
ghost use Rattle.leveldb_base.specs.Error.{IsOutOfMemory};
ghost use Rattle.leveldb_base.specs.declared.error.StatusCode.TheVariants.{Corruption, NotSupported};
ghost use Rattle.leveldb_table.specs.Block.{HasEntries};
ghost use Rattle.leveldb_table.specs.Table.{Part, index_pair, filter_key};
ghost use Rattle.leveldb_table.specs.TableBlock.{NamesNone};

use crate::block::Block;
use crate::block_cache::BlockCache;
use crate::cache::CacheID;
use crate::damage::corruption;
use crate::table_block::read_table_block;
use crate::table_builder::Footer;
use leveldb_base::blockhandle::BlockHandle;
use leveldb_base::cmp::{Cmp, DefaultCmp, InternalKeyCmp, UserCmp};
use leveldb_base::error::Result;
use leveldb_base::types::LdbIterator;
use leveldb_env::compressor::{CompressorList, Compressors};
use leveldb_env::env::Env;
use leveldb_env::filter::{FilterPolicy, InternalFilterPolicy};
use leveldb_env::filter_block::FilterBlockReader;
use leveldb_env::options::Options;
use open::{read_filters, read_index};
use std::alloc::Global;
use std::marker::Model;

mod iter;
mod key_buffers;
mod open;
mod reader;
mod walk;

pub use iter::TableIterator;
pub use key_buffers::KeyBuffers;
pub use reader::TableReader;
pub use walk::{TableCore, TableStep};

/// An open table: its file, its index, and its filters where it has some under the policy's name.
#[derive(Drop)]
pub struct Table<E: Env, C: Cmp, FP: FilterPolicy> {
    cmp: C,
    file: E::File,

    // which is in the keys of its blocks in a cache
    id: CacheID,
    footer: Footer,
    index: Block<C>,
    filters: Option<FilterBlockReader<FP>>,
}

impl<E: Env, C: Cmp, FP: FilterPolicy> Model for Table<E, C, FP> {
    ghost use Rattle.leveldb_table.specs.TableReader.{OpenTable};

    ghost Value = { OpenTable C FP E.File };

    ghost view = { λ it. record {
      cmp = it.cmp;
      file = it.file;
      id = it.id;
      footer = it.footer;
      index = it.index;
      filters = it.filters;
    } };
}

impl<E: Env, C: UserCmp + Copy + Drop, FP: FilterPolicy + Copy + Drop> Table<
    E,
    InternalKeyCmp<C>,
    InternalFilterPolicy<FP>,
> {
    ghost use Rattle.leveldb_base.specs.KeyTypes.{internal_cmp};
    ghost use Rattle.leveldb_table.specs.TableReader.{OpensTable, IsOpenedAs, AreOfPolicy, IsNoTable, IsIndexedAs, IsNoIndex};

    /// Opens the table of internal keys whose footer ends at `size` in a file, its length where
    /// the file is one table, under the options' order of users' keys and their filter policy. It
    /// gets a number of its own for its blocks in the cache. `Corruption` where the file is no
    /// table; the causes of `read_table_block`; `NotSupported` where the cache's numbers are used
    /// up.
    pub fn new(
        alloc: Global,
        options: &Options<C, FP>,
        env: &mut E,
        cache: &mut BlockCache<InternalKeyCmp<C>>,
        file: E::File,
        size: usize,
    ) -> Result<Table<E, InternalKeyCmp<C>, InternalFilterPolicy<FP>>>
        ensures { let codings = ⟦<CompressorList as Compressors>⟧.codings
            options.now.compressor_list in let cmp = internal_cmp (C.cmp options.now.cmp) in
            let key = filter_key (FP.name options.now.filter_policy) in
            OpensTable E.Env codings (IsOpenedAs codings cmp key size)
            (AreOfPolicy options.now.filter_policy) (IsNoTable codings cmp key size)
            (record { 0 = options.now.cmp }) file env.old cache.old result env.new cache.new }
    {
        Table::open(
            alloc,
            InternalKeyCmp(options.cmp),
            InternalFilterPolicy::new(options.filter_policy),
            &options.compressor_list,
            env,
            cache,
            file,
            size,
        )
    }

    /// `new`, but the table has no filters, and its metaindex is not read: so a table whose
    /// filters are damaged can be read.
    pub fn new_no_filter(
        alloc: Global,
        options: &Options<C, FP>,
        env: &mut E,
        cache: &mut BlockCache<InternalKeyCmp<C>>,
        file: E::File,
        size: usize,
    ) -> Result<Table<E, InternalKeyCmp<C>, InternalFilterPolicy<FP>>>
        ensures { let codings = ⟦<CompressorList as Compressors>⟧.codings
            options.now.compressor_list in let cmp = internal_cmp (C.cmp options.now.cmp) in
            OpensTable E.Env codings (IsIndexedAs codings cmp size) (λ filters. filters ≡ None)
            (IsNoIndex codings cmp size) (record { 0 = options.now.cmp }) file env.old cache.old
            result env.new cache.new }
    {
        Table::open_no_filter(
            alloc,
            InternalKeyCmp(options.cmp),
            &options.compressor_list,
            env,
            cache,
            file,
            size,
        )
    }
}

impl<E: Env, C: Cmp + Copy + Drop, FP: FilterPolicy + Drop> Table<E, C, FP> {
    ghost use Rattle.leveldb_table.specs.TableReader.{OpensTable, IsOpenedAs, AreOfPolicy, IsNoTable, IsIndexedAs, IsNoIndex};

    /// Opens the table whose footer ends at `size` in a file, under this order and this policy as
    /// they are.
    pub fn open(
        alloc: Global,
        cmp: C,
        policy: FP,
        compressors: &CompressorList,
        env: &mut E,
        cache: &mut BlockCache<C>,
        file: E::File,
        size: usize,
    ) -> Result<Table<E, C, FP>>
        ensures { let codings = ⟦<CompressorList as Compressors>⟧.codings compressors.now in
            let key = filter_key (FP.name policy) in
            OpensTable E.Env codings (IsOpenedAs codings (C.cmp cmp) key size)
            (AreOfPolicy policy) (IsNoTable codings (C.cmp cmp) key size) cmp file env.old
            cache.old result env.new cache.new }
    {
        let (footer, index) = read_index(alloc, cmp, env, &file, compressors, size)?;
        let metas = read_table_block(
            alloc,
            DefaultCmp,
            env,
            &file,
            compressors,
            footer.meta_index,
        )?;
        let offset = footer.meta_index.offset();
        let filters = read_filters(alloc, policy, env, &file, &metas, offset)?;
        let id = cache.new_cache_id()?;
        Ok(Table {
            cmp,
            file,
            id,
            footer,
            index,
            filters,
        })
    }

    /// `open`, but the table has no filters, and its metaindex is not read.
    pub fn open_no_filter(
        alloc: Global,
        cmp: C,
        compressors: &CompressorList,
        env: &mut E,
        cache: &mut BlockCache<C>,
        file: E::File,
        size: usize,
    ) -> Result<Table<E, C, FP>>
        ensures { let codings = ⟦<CompressorList as Compressors>⟧.codings compressors.now in
            OpensTable E.Env codings (IsIndexedAs codings (C.cmp cmp) size)
            (λ filters. filters ≡ None) (IsNoIndex codings (C.cmp cmp) size) cmp file env.old
            cache.old result env.new cache.new }
    {
        let (footer, index) = read_index(alloc, cmp, env, &file, compressors, size)?;
        let id = cache.new_cache_id()?;
        Ok(Table {
            cmp,
            file,
            id,
            footer,
            index,
            filters: None,
        })
    }
}

impl<E: Env, C: Cmp + Copy + Drop, FP: FilterPolicy> Table<E, C, FP> {
    ghost use Rattle.leveldb_table.specs.TableReader.{HandlesFit, IsOffsetBy, lines_of, line_in, meta_of, offset_in, may_contain};

    /// The offset of the block that would hold the key, and past the last that of the metaindex.
    /// `Corruption` where the index's line for the key names no handle.
    pub fn approx_offset_of(&self, alloc: Global, key: &[u8]) -> Result<usize>
        ensures ok { (parts : List Part) → lines_of self.now ≡ map index_pair parts
            → HandlesFit parts
            → IfOk result (λ offset. offset ≡ offset_in C.Cmp self.now key.now parts) }
        ensures line { IfOk result
            (IsOffsetBy (line_in C.Cmp self.now key.now) (meta_of self.now).offset) }
        ensures encoded { HasEntries (C.cmp self.now.index.cmp) self.now.index.contents
            self.now.index.entries }
        ensures cause { IfErr result (λ status. IsOutOfMemory status
            ⊎ ((status.code ≡ Corruption) × NamesNone (line_in C.Cmp self.now key.now))) }
    {
        let mut lines = self.index.iter(alloc);
        lines.seek(key)?;
        let Some((_, value)) = lines.current() else {
            return Ok(self.footer.meta_index.offset());
        };
        Ok(self.line_handle(alloc, value)?.offset())
    }

    // The handle that a line of the index has as its value.
    fn line_handle(&self, alloc: Global, value: &[u8]) -> Result<BlockHandle>
        ensures ok { IfOk result
            (λ handle. HandleFits handle × (value.now ≡ handle_bytes handle)) }
        ensures err { IfErr result (λ status. (status.code ≡ Corruption)
            × ((handle : Handle) → HandleFits handle → value.now ≡ handle_bytes handle → ⊥)) }
    {
        whole_handle(alloc, value, "index", self.footer.index.offset())
    }

    // Whether the filters let a key pass at an offset; without filters each key passes.
    fn may_contain(&self, offset: usize, key: &[u8]) -> bool
        ensures { result ≡ may_contain FP.matches self.now offset key.now }
    {
        match &self.filters {
            Some(filters) => filters.key_may_match(offset, key),
            None => true,
        }
    }
}

// What is wrong with a value of an index or a metaindex that encodes no handle.
const NO_HANDLE: &str = "no handle of a block";

/// The handle that these bytes encode, and nothing else.
pub(crate) fn handle_in(bytes: &[u8]) -> Option<BlockHandle>
    ensures { MatchOption result
        ((handle : Handle) → HandleFits handle → bytes.now ≡ handle_bytes handle → ⊥)
        (λ handle. HandleFits handle × (bytes.now ≡ handle_bytes handle)) }
{
    match BlockHandle::decode(bytes) {
        Some((handle, used)) if used == bytes.len() => Some(handle),
        _ => None,
    }
}

// The same of a value of the block that is this part of a table, at this offset of its file.
fn whole_handle(alloc: Global, bytes: &[u8], part: &str, offset: usize) -> Result<BlockHandle>
    ensures ok { IfOk result (λ handle. HandleFits handle × (bytes.now ≡ handle_bytes handle)) }
    ensures err { IfErr result (λ status. (status.code ≡ Corruption)
        × ((handle : Handle) → HandleFits handle → bytes.now ≡ handle_bytes handle → ⊥)) }
{
    match handle_in(bytes) {
        Some(handle) => Ok(handle),
        None => corruption(alloc, part, offset, NO_HANDLE),
    }
}
