//! Room in the memtable: entries of one that is full become a table, and obsolete files are
//! deleted.
// LevelDB: db/db_impl.cc, DBImpl::MakeRoomForWrite
ghost use Rattle.std.specs.Prelude.{◌≡◌, ◌≢◌, ◌↔◌, None, IfOk, IsTrue, is_some};
ghost use Rattle.leveldb_store.specs.Tables.BuildTable.{choices_of};
ghost use Rattle.leveldb_files.specs.Stores.Format.{Agrees, format_of};
ghost use Rattle.leveldb_store.specs.Keeping.OpenStore.{IsUnbroken};
ghost use Rattle.leveldb_store.specs.Keeping.OpenTables.{ClosesObsolete};
ghost use Rattle.leveldb_store.specs.Writing.Removal.{EndsByRemoval, but_removal};
ghost use Rattle.leveldb_store.specs.Writing.Room.{IsFull, MakesRoom, TidiesUp};
ghost use Rattle.leveldb_store.specs.Writing.Due.{is_compaction_due, looked_after, looks_for_compaction};
ghost use Rattle.leveldb_store.specs.Writing.RoomSteps.{MakesTablesOfMemory, CompactsMemtable};
ghost use Rattle.leveldb_store.specs.Keeping.SoundCall.{BytesAreAppended, IsSoundCall, TimeGoesOn};
ghost use Rattle.leveldb_store.specs.Writing.Switch.{RemovesObsolete};

use super::{OpenStore, Removal};
use leveldb_base::cmp::{Cmp, InternalKeyCmp, UserCmp};
use leveldb_base::error::Result;
use leveldb_env::compressor::{CompressorList, Compressors};
use leveldb_env::env::Env;
use leveldb_env::filter::{FilterPolicy, InternalFilterPolicy};
use leveldb_env::infolog::Logger;
use leveldb_env::log;
use leveldb_env::options::Options;
use leveldb_version::table_cache::TableCache;

// The least that a part of a table is.
const SMALLEST_PART: usize = 1 << 16;

impl<E: Env, C: UserCmp + Copy> OpenStore<E, C> {
    /// Whether the memtable has entries, and they take this much memory or more.
    pub fn is_full(&self, limit: usize) -> bool
        ensures { IsTrue result ↔ IsFull limit self.now.mem }
    {
        self.mem.len() > 0 && limit <= self.mem.approx_mem_usage()
    }

    /// Looks for a compaction before a batch for which the memtable has room, where there is no
    /// immutable one, and the memtable has grown by a part since one was last looked for, when it
    /// took `looked_at` bytes, or is another one. Returns whether one is due: the score of a level
    /// asks for it. A part is a quarter of `max_file_size`, and 64 KiB at least.
    pub fn look_for_compaction(&self, max_file_size: usize, looked_at: &mut usize) -> bool
        ensures due { result ≡ is_compaction_due max_file_size looked_at.old self.now }
        ensures looked { looked_at.new ≡ looked_after max_file_size looked_at.old self.now }
    {
        if !self.looks_for_compaction(max_file_size, *looked_at) {
            return false;
        }
        *looked_at = self.mem.approx_mem_usage();
        self.versions.current().level_by_score().is_some()
    }

    // Whether a compaction is to be looked for.
    fn looks_for_compaction(&self, max_file_size: usize, looked_at: usize) -> bool
        ensures { result ≡ looks_for_compaction max_file_size looked_at self.now }
    {
        let part = (max_file_size / 4).max(SMALLEST_PART);
        let memory = self.mem.approx_mem_usage();
        !self.has_imm() && (memory < looked_at || part <= memory - looked_at)
    }
}

impl<E: Env, C: UserCmp + Copy + Drop> OpenStore<E, C> {
    /// Deletes obsolete files that aren't kept, and closes their tables. An Err is what the removal
    /// returned, and a line for `log`: nothing reads the files that are left, and the next call
    /// deletes them.
    pub fn tidy_up<FP: FilterPolicy + Copy + Drop>(
        &self,
        env: &mut E,
        tables: &mut TableCache<E, C, FP>,
        log: &mut Option<Logger>,
    ) -> Result<()>
        requires usable { IsUnbroken self.now }
        ensures removes { RemovesObsolete E.Env self.now.set self.now.kept_to env.old result
            env.new }
        ensures tidies { TidiesUp E.Env (C.cmp self.now.cmp) self.now env.old env.new }
        ensures closes { ClosesObsolete E.Env self.now.set env.old tables.old env.new tables.new }
        ensures time { TimeGoesOn E.Env env.old env.new }
        ensures bytes { BytesAreAppended E.Env env.old env.new }
        ensures log { is_some log.new ≡ is_some log.old }
    {
        let removal = self.remove_obsolete(env, tables);
        if let Err(e) = &removal {
            log!(*log, self.alloc; "obsolete files may be left: {e}");
        }
        removal
    }

    /// Makes room in the memtable (`mem`), if its entries take `write_buffer_size` bytes or more.
    /// It is the immutable memtable (`imm`) then, while batches go to a new log, and becomes a
    /// table. Where there is an immutable one already, since a call before made no table of it,
    /// that becomes one before anything else, so that there is one at most. Obsolete files are
    /// deleted after each table, and their tables closed; what fails of that is a line for `log`.
    /// An Ok has what the last of these removals returned, if there was one.
    ///
    /// After an Err the memtable is full still, or there is an immutable one. Whatever the files
    /// are, no entry is lost. The next call goes on from there, unless the store broke.
    pub fn make_room<FP: FilterPolicy + Copy + Drop>(
        &mut self,
        env: &mut E,
        options: &Options<C, FP>,
        tables: &mut TableCache<E, C, FP>,
        log: &mut Option<Logger>,
    ) -> Result<Removal>
        requires usable { IsUnbroken self.old }
        requires order { C.cmp options.now.cmp ≡ C.cmp self.old.cmp }
        ensures makes { MakesRoom E.Env (C.cmp self.old.cmp) self.old env.old (choices_of C.Cmp
            FP.FilterPolicy ⟦<InternalKeyCmp<C> as Cmp>⟧
            ⟦<InternalFilterPolicy<FP> as FilterPolicy>⟧ ⟦<CompressorList as Compressors>⟧.codings
            options.now) options.now.write_buffer_size (but_removal result) self.new env.new }
        ensures removes { IfOk result (λ removal.
            EndsByRemoval E.Env env.old self.old removal self.new env.new) }
        ensures sound { IsSoundCall E.Env (C.cmp self.old.cmp) (Agrees (format_of C.Cmp
            FP.FilterPolicy ⟦<CompressorList as Compressors>⟧.codings options.now)) self.old
            env.old (but_removal result) self.new env.new }
        ensures tables { MakesTablesOfMemory E.Env (C.cmp self.old.cmp) (format_of C.Cmp
            FP.FilterPolicy ⟦<CompressorList as Compressors>⟧.codings options.now) 2 self.old
            env.old tables.old (but_removal result) self.new env.new tables.new }
        ensures log { is_some log.new ≡ is_some log.old }
    {
        if !self.is_full(options.write_buffer_size) {
            return Ok(None);
        }
        let _ = self.compact_memtable(env, options, tables, log)?;
        self.switch_log(env)?;
        self.compact_memtable(env, options, tables, log)
    }

    // Makes a table of the immutable memtable, if there is one, and deletes the files that are
    // obsolete then. An Ok has what the removal returned, if there was one.
    pub(super) fn compact_memtable<FP: FilterPolicy + Copy + Drop>(
        &mut self,
        env: &mut E,
        options: &Options<C, FP>,
        tables: &mut TableCache<E, C, FP>,
        log: &mut Option<Logger>,
    ) -> Result<Removal>
        requires usable { IsUnbroken self.old }
        requires order { C.cmp options.now.cmp ≡ C.cmp self.old.cmp }
        ensures imm { CompactsMemtable E.Env (C.cmp self.old.cmp) (choices_of C.Cmp
            FP.FilterPolicy ⟦<InternalKeyCmp<C> as Cmp>⟧
            ⟦<InternalFilterPolicy<FP> as FilterPolicy>⟧ ⟦<CompressorList as Compressors>⟧.codings
            options.now) self.old env.old (but_removal result) self.new env.new }
        ensures removes { IfOk result (λ removal.
            EndsByRemoval E.Env env.old self.old removal self.new env.new) }
        ensures tables { MakesTablesOfMemory E.Env (C.cmp self.old.cmp) (format_of C.Cmp
            FP.FilterPolicy ⟦<CompressorList as Compressors>⟧.codings options.now) 1 self.old
            env.old tables.old (but_removal result) self.new env.new tables.new }
        ensures log { is_some log.new ≡ is_some log.old }
    {
        if !self.has_imm() {
            return Ok(None);
        }
        self.write_level0_table(env, options)?;
        Ok(Some(self.tidy_up(env, tables, log)))
    }
}
