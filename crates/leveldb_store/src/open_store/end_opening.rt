//! The end of an opening: one compaction is done at most, and what is obsolete is deleted.
// LevelDB: db/db_impl.cc, the end of DB::Open
ghost use Rattle.std.specs.Prelude.{◌≡◌, IfOk, None, is_some};
ghost use Rattle.leveldb_version.specs.Tables.TableCache.{table_options};
ghost use Rattle.leveldb_store.specs.Tables.BuildTable.{choices_of};
ghost use Rattle.leveldb_store.specs.Openings.EndsOpening.{EndsOpening};
ghost use Rattle.leveldb_store.specs.Keeping.OpenStore.{IsUnbroken};
ghost use Rattle.leveldb_store.specs.Writing.Removal.{LeavesObsolete, but_removal};

use super::OpenStore;
use leveldb_base::cmp::{Cmp, InternalKeyCmp, UserCmp};
use leveldb_base::error::Result;
use leveldb_env::compressor::{CompressorList, Compressors};
use leveldb_env::env::Env;
use leveldb_env::filter::{FilterPolicy, InternalFilterPolicy};
use leveldb_env::infolog::Logger;
use leveldb_env::log;
use leveldb_env::options::Options;
use leveldb_version::table_cache::TableCache;

impl<E: Env, C: UserCmp + Copy + Drop> OpenStore<E, C> {
    /// Ends an opening. It looks for damage in the logs and manifests that were left aside: where
    /// there is some, no file that is there now is deleted while the store is open. Then it does
    /// the compaction for which the score of a level asks, if one asks for it, and deletes what is
    /// obsolete. Nothing is read at a number below the last one yet, so entries that are shadowed
    /// there may go. Last, it sets the damaged files aside, so that no later opening finds them.
    /// What fails of that is a line for `log`; an Ok has what the removal of obsolete files
    /// returned, and an Err is that of a compaction which broke the store.
    pub fn end_opening<FP: FilterPolicy + Copy + Drop>(
        &mut self,
        env: &mut E,
        options: &Options<C, FP>,
        tables: &mut TableCache<E, C, FP>,
        log: &mut Option<Logger>,
    ) -> Result<Result<()>>
        requires usable { IsUnbroken self.old }
        requires order { C.cmp options.now.cmp ≡ C.cmp self.old.cmp }
        requires none_waits { self.old.imm ≡ None }
        ensures ends { let choices = choices_of C.Cmp FP.FilterPolicy
            ⟦<InternalKeyCmp<C> as Cmp>⟧ ⟦<InternalFilterPolicy<FP> as FilterPolicy>⟧
            ⟦<CompressorList as Compressors>⟧.codings options.now in
            EndsOpening ⟦<InternalKeyCmp<C> as Cmp>⟧ E.Env
            (table_options choices.format options.now) self.old env.old tables.old choices
            (but_removal result) self.new env.new tables.new }
        ensures removes { IfOk result (λ removal.
            LeavesObsolete E.Env env.old self.new removal env.new) }
        ensures log { is_some log.new ≡ is_some log.old }
    {
        let found = self.keep_damaged_files(env, log);
        if let Err(e) = &found {
            log!(*log, self.alloc; "files are kept, since one of them isn't read: {e}");
        }
        let smallest = self.last_sequence();
        let compacted = self.compact_if_asked(env, options, tables, smallest, log);
        if let Err(e) = &compacted {
            log!(*log, self.alloc; "tables aren't compacted: {e}");
        }
        if self.is_broken() {
            // Only a compaction that failed breaks a store.
            return compacted.and(Ok(Ok(())));
        }
        let removal = self.tidy_up(env, tables, log);
        let damaged = found.unwrap_or(Vec::new(self.alloc));
        let moved = self.set_aside(env, &damaged);
        if let Err(e) = &moved {
            log!(*log, self.alloc; "a damaged file isn't set aside: {e}");
        }
        Ok(removal)
    }
}
