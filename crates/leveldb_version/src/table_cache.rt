//! The open tables of a store, each kept while there is room.
// LevelDB: db/table_cache.cc
ghost use Rattle.std.specs.Prelude.{◌≡◌, IfErr, IfOk, IsTrue, OnErr, OnOk, option_copied};
ghost use Rattle.leveldb_base.specs.Error.{IsOutOfMemory};
ghost use Rattle.leveldb_env.specs.Env.{Files};
ghost use Rattle.leveldb_table.specs.TableReaderMoves.{found_with};
ghost use Rattle.leveldb_files.specs.Stores.Format.{format_of};
ghost use Rattle.leveldb_version.specs.Tables.TableCache.{EvictsTable, GetsPair, IsNewTableCache, LooksUpInOpen, MatchesFiles, MayFail, OpensNumbered, OpensTableAt, OpensTableFile, TableOptions, UsesTable, files_at, found_key, options_by, renewed, table_at, table_key, table_options};

use bytes::Bytes;
use leveldb_base::cmp::{Cmp, InternalKeyCmp, UserCmp};
use leveldb_base::error::{Result, StatusCode, err};
pub use leveldb_base::names::table_file_name;
use leveldb_base::types::FileNum;
use leveldb_env::compressor::{CompressorList, Compressors};
use leveldb_env::env::Env;
use leveldb_env::env::whole_files::found;
use leveldb_env::filter::{FilterPolicy, InternalFilterPolicy};
use leveldb_env::options::Options;
use leveldb_table::block_cache::{BlockCache, cache_key};
use leveldb_table::cache::{Cache, CacheKey};
use leveldb_table::table_reader::{KeyBuffers, Table, TableReader};
use std::alloc::Global;

mod moves;

pub use moves::{ReadOnce, ReadTables, ReadsTables};

// How many files a store has open that are no tables.
const OTHER_FILES: usize = 10;

/// The open tables of a store, of which the least recently used is closed first, and blocks of
/// tables, of closed ones too, as long as there is room. The calls that use the disk are given the
/// environment and the options. Each table that is opened gets an id, under which its blocks are
/// kept; where ids are used up, the cache starts over, with no table open and no block in memory.
/// It keeps the key of the pair that was found last.
pub struct TableCache<E: Env, C: UserCmp + Copy + Drop, FP: FilterPolicy + Copy + Drop>
where
    InternalKeyCmp<C>: Cmp,
{
    alloc: Global,
    store: String,
    tables: Cache<Table<E, InternalKeyCmp<C>, InternalFilterPolicy<FP>>>,
    blocks: BlockCache<InternalKeyCmp<C>>,
    key_buffers: KeyBuffers,
}

impl<E: Env, C: UserCmp + Copy + Drop, FP: FilterPolicy + Copy + Drop> Drop for TableCache<E, C, FP>
where
    InternalKeyCmp<C>: Cmp,
{
    // One call for whoever drops one, in place of one for each part of it.
    fn drop(self) {
        let TableCache {
            alloc: _,
            store,
            tables,
            blocks,
            key_buffers,
        } = self;
        drop(store);
        drop(tables);
        drop(blocks);
        drop(key_buffers);
    }
}

impl<E: Env, C: UserCmp + Copy + Drop, FP: FilterPolicy + Copy + Drop> TableCache<E, C, FP> {
    /// A cache of a store's tables, of which none is open, with room as the options say: for
    /// `max_open_files` tables, less ten for the store's other files, and for
    /// `block_cache_capacity_bytes` of blocks. With ten or less there is room for no table: each is
    /// opened for a look-up and closed after it (checked options have eleven at least).
    pub fn new(alloc: Global, store: &str, options: &Options<C, FP>) -> Result<TableCache<E, C, FP>>
        ensures ok { IfOk result (IsNewTableCache store.now options.now) }
        ensures matches { IfOk result (λ cache. (by : TableOptions C FP) (files : Files)
            → MatchesFiles ⟦<InternalKeyCmp<C> as Cmp>⟧ E.Env by files cache) }
        ensures memory { IfErr result IsOutOfMemory }
    {
        let blocks = options
            .block_cache_capacity_bytes
            .checked_div(options.block_size)
            .unwrap_or(0);
        Ok(TableCache {
            alloc,
            store: String::from_str(alloc, store)?,
            tables: Cache::new(alloc, options.max_open_files.saturating_sub(OTHER_FILES))?,
            blocks: Cache::new(alloc, blocks)?,
            key_buffers: KeyBuffers::new(alloc),
        })
    }

    /// The first pair at or after an internal key in the table of this number, or none if the
    /// filters rule the key out or there is no such pair. The table is opened if it isn't open, and
    /// is the one most recently used then, even if the look-up fails. The options are those that
    /// the open tables were opened with; else nothing is promised of what is found. `Corruption` if
    /// the table's file is missing or is no table, `NotSupported` if a block's compressor isn't
    /// set, and out of memory also if there is none to keep a table that was opened.
    pub fn get(
        &mut self,
        env: &mut E,
        options: &Options<C, FP>,
        number: FileNum,
        key: &[u8],
    ) -> Result<Option<(Bytes, Bytes)>>
        ensures uses { let by = table_options (format_of C.Cmp FP.FilterPolicy
            ⟦<CompressorList as Compressors>⟧.codings options.now) options.now in
            UsesTable E.Env (MayFail E.Env by env.old self.old number) number env.old self.old
            result env.new self.new }
        ensures gets { let by = table_options (format_of C.Cmp FP.FilterPolicy
            ⟦<CompressorList as Compressors>⟧.codings options.now) options.now in
            IsTrue E.models_disk
            → MatchesFiles ⟦<InternalKeyCmp<C> as Cmp>⟧ E.Env by (files_at E.Env env.old) self.old
            → GetsPair ⟦<InternalKeyCmp<C> as Cmp>⟧ E.Env by number key.now env.old self.old
            result env.new self.new }
        ensures in_open { LooksUpInOpen ⟦<InternalKeyCmp<C> as Cmp>⟧ E.Env
            (⟦<CompressorList as Compressors>⟧.codings options.now.compressor_list)
            ⟦<InternalFilterPolicy<FP> as FilterPolicy>⟧.matches number key.now env.old self.old
            result env.new self.new }
    {
        let Some(value) = self.find(env, options, number, key)? else {
            return Ok(None);
        };
        let key = Bytes::copy_from_slice(self.alloc, self.key_buffers.key())?;
        Ok(Some((key, value)))
    }

    /// `get`, but it returns the value alone, and `found_key` then has the pair's key. It takes no
    /// memory if the table is open, its blocks on the way are in memory, and earlier look-ups left
    /// room for the keys.
    pub fn find(
        &mut self,
        env: &mut E,
        options: &Options<C, FP>,
        number: FileNum,
        key: &[u8],
    ) -> Result<Option<Bytes>>
        ensures uses { let by = table_options (format_of C.Cmp FP.FilterPolicy
            ⟦<CompressorList as Compressors>⟧.codings options.now) options.now in
            UsesTable E.Env (MayFail E.Env by env.old self.old number) number env.old self.old
            (found_with (found_key self.new) result) env.new self.new }
        ensures gets { let by = table_options (format_of C.Cmp FP.FilterPolicy
            ⟦<CompressorList as Compressors>⟧.codings options.now) options.now in
            IsTrue E.models_disk
            → MatchesFiles ⟦<InternalKeyCmp<C> as Cmp>⟧ E.Env by (files_at E.Env env.old) self.old
            → GetsPair ⟦<InternalKeyCmp<C> as Cmp>⟧ E.Env by number key.now env.old self.old
            (found_with (found_key self.new) result) env.new self.new }
        ensures in_open { LooksUpInOpen ⟦<InternalKeyCmp<C> as Cmp>⟧ E.Env
            (⟦<CompressorList as Compressors>⟧.codings options.now.compressor_list)
            ⟦<InternalFilterPolicy<FP> as FilterPolicy>⟧.matches number key.now env.old self.old
            (found_with (found_key self.new) result) env.new self.new }
    {
        let name = table_key(number);
        let compressors = &options.compressor_list;
        if let Some(table) = self.tables.get(&name) {
            let mut reader = TableReader {
                table,
                env: &mut *env,
                cache: &mut self.blocks,
                compressors,
            };
            return reader.find(self.alloc, key, &mut self.key_buffers);
        }
        let table = self.open(env, options, number)?;
        if self.tables.cap() == 0 {
            let mut reader = TableReader {
                table: &table,
                env: &mut *env,
                cache: &mut self.blocks,
                compressors,
            };
            return reader.find(self.alloc, key, &mut self.key_buffers);
        }
        self.tables.insert(&name, table)?;
        let table = self.tables.peek(&name).unwrap();
        let mut reader = TableReader {
            table,
            env: &mut *env,
            cache: &mut self.blocks,
            compressors,
        };
        reader.find(self.alloc, key, &mut self.key_buffers)
    }

    /// The key of the pair that `find` or `get` found last. After one that finds no pair or fails
    /// it is of no use.
    pub fn found_key(&self) -> &[u8]
        ensures { result.now ≡ found_key self.now }
    {
        self.key_buffers.key()
    }

    /// Makes sure that the table of this number is open, unless there is room for none: then it is
    /// opened and closed again. It is the one most recently used then. `Corruption` if its file is
    /// missing or is no table, `NotSupported` if a block's compressor isn't set, and out of memory
    /// also if there is none to keep it.
    pub fn open_table(
        &mut self,
        env: &mut E,
        options: &Options<C, FP>,
        number: FileNum,
    ) -> Result<()>
        ensures { let by = table_options (format_of C.Cmp FP.FilterPolicy
            ⟦<CompressorList as Compressors>⟧.codings options.now) options.now in
            OpensTableAt ⟦<InternalKeyCmp<C> as Cmp>⟧ E.Env by number env.old self.old
            result env.new self.new }
    {
        let compressors = &options.compressor_list;
        self.open_table_by(env, options.cmp, options.filter_policy, compressors, number)
    }

    // `open_table`, by these parts of the options.
    fn open_table_by(
        &mut self,
        env: &mut E,
        cmp: C,
        policy: FP,
        compressors: &CompressorList,
        number: FileNum,
    ) -> Result<()>
        ensures { let by = options_by C.Cmp FP.FilterPolicy
            (⟦<CompressorList as Compressors>⟧.codings compressors.now) cmp policy in
            OpensTableAt ⟦<InternalKeyCmp<C> as Cmp>⟧ E.Env by number env.old self.old
            result env.new self.new }
    {
        let name = table_key(number);
        if self.tables.get(&name).is_some() {
            return Ok(());
        }
        let table = self.open_by(env, cmp, policy, compressors, number)?;
        self.tables.insert(&name, table)
    }

    /// The table of this number, if it is open; none if there is room for none. This doesn't count
    /// as a use.
    pub fn get_table(
        &self,
        number: FileNum,
    ) -> Option<&Table<E, InternalKeyCmp<C>, InternalFilterPolicy<FP>>>
        ensures { option_copied result ≡ table_at self.now number }
    {
        self.tables.peek(&table_key(number))
    }

    /// Closes the table of this number. Returns whether it was open.
    pub fn evict(&mut self, number: FileNum) -> bool
        ensures { EvictsTable number self.old result self.new }
    {
        self.tables.remove(&table_key(number)).is_some()
    }

    // Opens the table of this number, and leaves it to the caller.
    fn open(
        &mut self,
        env: &mut E,
        options: &Options<C, FP>,
        number: FileNum,
    ) -> Result<Table<E, InternalKeyCmp<C>, InternalFilterPolicy<FP>>>
        ensures { let by = table_options (format_of C.Cmp FP.FilterPolicy
            ⟦<CompressorList as Compressors>⟧.codings options.now) options.now in
            OpensNumbered E.Env by number env.old self.old result env.new self.new }
    {
        let compressors = &options.compressor_list;
        self.open_by(env, options.cmp, options.filter_policy, compressors, number)
    }

    // `open`, by these parts of the options.
    fn open_by(
        &mut self,
        env: &mut E,
        cmp: C,
        policy: FP,
        compressors: &CompressorList,
        number: FileNum,
    ) -> Result<Table<E, InternalKeyCmp<C>, InternalFilterPolicy<FP>>>
        ensures { let by = options_by C.Cmp FP.FilterPolicy
            (⟦<CompressorList as Compressors>⟧.codings compressors.now) cmp policy in
            OpensNumbered E.Env by number env.old self.old result env.new self.new }
    {
        self.renew()?;
        let path = table_file_name(self.alloc, &self.store, number)?;
        let (file, size) = open_file(self.alloc, env, &path)?;
        Table::open(
            self.alloc,
            InternalKeyCmp(cmp),
            InternalFilterPolicy::new(policy),
            compressors,
            env,
            &mut self.blocks,
            file,
            size,
        )
    }

    // Starts over if the ids of tables are used up.
    fn renew(&mut self) -> Result<()>
        ensures ok { OnOk result (self.new ≡ renewed self.old) }
        ensures err { OnErr result (self.new ≡ self.old) }
        ensures memory { IfErr result IsOutOfMemory }
    {
        if !self.blocks.is_used_up() {
            return Ok(());
        }
        let tables = Cache::new(self.alloc, self.tables.cap())?;
        self.blocks = Cache::new(self.alloc, self.blocks.cap())?;
        self.tables = tables;
        Ok(())
    }
}

// Opens the file at this path, and returns how many bytes it has. `Corruption` if it is missing or
// has none.
fn open_file<E: Env>(alloc: Global, env: &mut E, path: &str) -> Result<(E::File, usize)>
    ensures { OpensTableFile E.Env path.now env.old result env.new }
{
    let size = found(alloc, path, env.size_of(path))?;
    if size == 0 {
        return err(alloc, StatusCode::Corruption, "a table's file is empty");
    }
    let file = found(alloc, path, env.open_random_access_file(path))?;
    Ok((file, size))
}

// The key of a file's number: its bytes, the lowest first, and eight zeros.
fn table_key(number: FileNum) -> CacheKey
    ensures { result ≡ table_key number }
{
    cache_key(number, 0)
}
