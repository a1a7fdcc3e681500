//! Tables that pairs go to, one after another.
// LevelDB: db/db_impl.cc, DBImpl::OpenCompactionOutputFile and FinishCompactionOutputFile
ghost use Rattle.std.specs.Prelude.{◌≡◌, ◌<◌, ◌≤◌, ◌↔◌, ◌&&◌, ◌||◌, List, ℕ, None, false, IfSome, IsTrue, OnOk, is_some, length, true, vec_capacity, vec_len};
ghost use Rattle.std.specs.declared.cmp.Ordering.TheVariants.{Less};
ghost use Rattle.std.specs.Str.{bytes_eq};
ghost use Rattle.leveldb_base.specs.KeyTypes.{user_part};
ghost use Rattle.leveldb_base.specs.Types.{Pair};
ghost use Rattle.leveldb_table.specs.TableBuilder.{last_of, order_of};
ghost use Rattle.leveldb_store.specs.Tables.BuildTable.{choices_of};
ghost use Rattle.leveldb_store.specs.Tables.Outputs.{AddsPair, BeginsTable, FinishesOpen, HaveOutputs, PutsPair, is_due, no_outputs};
ghost use Rattle.leveldb_store.specs.Writing.Switch.{MayGiveNumber};

use crate::table_file::{TableFile, copied_key, new_builder};
use leveldb_base::cmp::{Cmp, InternalKeyCmp, UserCmp};
use leveldb_base::error::{Result, StatusCode, err};
use leveldb_base::key_types::{TAG_LEN, split_sequence};
use leveldb_base::names::table_file_name;
use leveldb_base::types::FileMetaData;
use leveldb_env::compressor::{CompressorList, Compressors};
use leveldb_env::env::Env;
use leveldb_env::filter::{FilterPolicy, InternalFilterPolicy};
use leveldb_env::options::Options;
use leveldb_version_set::version_set::VersionSet;
use std::alloc::Global;
use std::marker::Model;

/// Tables that are written one after another: the one that is open, and the metadata of those that
/// are finished. One ends where the user key changes, so that no user key is in two.
#[derive(Drop)]
pub struct Outputs<E: Env, C: UserCmp + Copy + Drop, FP: FilterPolicy + Copy + Drop> {
    alloc: Global,
    unfinished: Option<TableFile<E, InternalKeyCmp<C>, InternalFilterPolicy<FP>>>,
    // Whether the open one ends before the next user key.
    ends: bool,
    done: Vec<FileMetaData>,
    // there is room for the metadata of the open one
    ghost room: { IsTrue (is_some unfinished) → vec_len done < vec_capacity done },
}

impl<E: Env, C: UserCmp + Copy + Drop, FP: FilterPolicy + Copy + Drop> Model for Outputs<E, C, FP> {
    ghost use Rattle.leveldb_base.specs.declared.cmp.internal.InternalKeyCmp.{InternalKeyCmp};
    ghost use Rattle.leveldb_store.specs.Tables.Outputs.{OutputsValue};

    ghost Value = { OutputsValue E (InternalKeyCmp C) FP E.File };

    ghost view = { λ it.
        record { unfinished = it.unfinished; ends = it.ends; done = it.done.items } };
}

impl<E: Env, C: UserCmp + Copy + Drop, FP: FilterPolicy + Copy + Drop> Outputs<E, C, FP> {
    /// No table.
    pub fn new(alloc: Global) -> Outputs<E, C, FP>
        ensures { result ≡ no_outputs }
    {
        Outputs {
            alloc,
            unfinished: None,
            ends: false,
            done: Vec::new(alloc),
        }
    }

    /// The open table, where there is one, ends before the next user key if `told` is true or was
    /// before.
    pub fn end_table(&mut self, told: bool)
        ensures { self.new
            ≡ record self.old { ends = is_some self.old.unfinished && (self.old.ends || told) } }
    {
        self.ends = self.unfinished.is_some() && (self.ends || told);
    }

    /// Puts a pair into the open table, or into a new one of the next number: where none is open,
    /// and where the key is of another user key than the last one and the open table is past
    /// `max_file_size` bytes or was to end, which finishes it. `Corruption` where the key has no
    /// tag or isn't after the last one. After an Err no pair may be put.
    pub fn put(
        &mut self,
        env: &mut E,
        versions: &mut VersionSet<E, C>,
        store: &str,
        options: &Options<C, FP>,
        key: &[u8],
        value: &[u8],
    ) -> Result<()>
        ensures puts { let choices = choices_of C.Cmp FP.FilterPolicy
            ⟦<InternalKeyCmp<C> as Cmp>⟧ ⟦<InternalFilterPolicy<FP> as FilterPolicy>⟧
            ⟦<CompressorList as Compressors>⟧.codings options.now in
            (first : ℕ) (tables : List (List Pair)) (pairs : List Pair)
            → HaveOutputs choices E.Env store.now first versions.old.set.next_file env.old self.old
            tables pairs → PutsPair choices E.Env store.now first tables pairs
            options.now.max_file_size (key.now, value.now) env.old self.old result
            versions.new.set.next_file env.new self.new }
        ensures numbers { MayGiveNumber versions.old.set versions.new.set }
        ensures version { versions.new.current ≡ versions.old.current }
    {
        if key.len() < TAG_LEN {
            return err(self.alloc, StatusCode::Corruption, "a key has no tag");
        }
        if !self.follows(key) {
            return err(self.alloc, StatusCode::Corruption, "keys are out of order");
        }
        let due = self.is_due(options.max_file_size, key);
        if !due && self.unfinished.is_some() {
            return self.add(env, options, key, value);
        }
        self.close(env, options)?;
        self.begin(env, versions, store, options, key, value)
    }

    /// Finishes the open table, where there is one. Returns the metadata of all tables in their
    /// order.
    pub fn finish(mut self, env: &mut E, options: &Options<C, FP>) -> Result<Vec<FileMetaData>>
        ensures finishes { let choices = choices_of C.Cmp FP.FilterPolicy
            ⟦<InternalKeyCmp<C> as Cmp>⟧ ⟦<InternalFilterPolicy<FP> as FilterPolicy>⟧
            ⟦<CompressorList as Compressors>⟧.codings options.now in (store : List ℕ)
            (first next : ℕ) (tables : List (List Pair)) (pairs : List Pair)
            → HaveOutputs choices E.Env store first next env.old self tables pairs
            → FinishesOpen choices E.Env store first tables pairs next env.old result
            (λ files. files.items) env.new }
    {
        self.close(env, options)?;
        Ok(self.done)
    }

    // Whether a key is after the last one of the open table.
    fn follows(&self, key: &[u8]) -> bool
        ensures { IsTrue result ↔ IfSome self.now.unfinished (λ table. 0 < table.core.count
            → ⟦<InternalKeyCmp<C> as Cmp>⟧.cmp (order_of table.core) (last_of table.core) key.now
            ≡ Less) }
    {
        match &self.unfinished {
            None => true,
            Some(table) => table.follows(key),
        }
    }

    // Whether the open table is to end before a key.
    fn is_due(&self, limit: usize, key: &[u8]) -> bool
        ensures { result ≡ is_due limit key.now self.now }
    {
        match &self.unfinished {
            None => false,
            Some(table) => {
                (self.ends || table.is_past(limit)) && !is_same_user(table.last_key(), key)
            }
        }
    }

    // Adds a pair to the open table.
    fn add(&mut self, env: &mut E, options: &Options<C, FP>, key: &[u8], value: &[u8]) -> Result<()>
        requires tagged { 8 ≤ length key.now }
        requires follows { IfSome self.old.unfinished (λ table. 0 < table.core.count
            → ⟦<InternalKeyCmp<C> as Cmp>⟧.cmp (order_of table.core) (last_of table.core) key.now
            ≡ Less) }
        ensures adds { let choices = choices_of C.Cmp FP.FilterPolicy
            ⟦<InternalKeyCmp<C> as Cmp>⟧ ⟦<InternalFilterPolicy<FP> as FilterPolicy>⟧
            ⟦<CompressorList as Compressors>⟧.codings options.now in (store : List ℕ)
            (first next : ℕ) (tables : List (List Pair)) (pairs : List Pair)
            → is_some self.old.unfinished ≡ true
            → HaveOutputs choices E.Env store first next env.old self.old tables pairs
            → AddsPair choices E.Env store first tables pairs (key.now, value.now) next env.old
            result env.new self.new }
        ensures ends { self.new.ends ≡ self.old.ends }
    {
        let Some(table) = &mut self.unfinished else {
            return Ok(());
        };
        table.add(env, &options.compressor_list, key, value)
    }

    // Finishes the open table, where there is one.
    fn close(&mut self, env: &mut E, options: &Options<C, FP>) -> Result<()>
        ensures finishes { let choices = choices_of C.Cmp FP.FilterPolicy
            ⟦<InternalKeyCmp<C> as Cmp>⟧ ⟦<InternalFilterPolicy<FP> as FilterPolicy>⟧
            ⟦<CompressorList as Compressors>⟧.codings options.now in (store : List ℕ)
            (first next : ℕ) (tables : List (List Pair)) (pairs : List Pair)
            → HaveOutputs choices E.Env store first next env.old self.old tables pairs
            → FinishesOpen choices E.Env store first tables pairs next env.old result
            (λ done. self.new.done) env.new }
        ensures none { OnOk result (self.new.unfinished ≡ None) }
    {
        let Some(table) = self.unfinished.take() else {
            return Ok(());
        };
        let made = table.finish(env, &options.compressor_list)?;
        let _ = self.done.push(made);
        Ok(())
    }

    // Begins a table of the next number with a pair. None is open. There is room for its metadata
    // before its file is made.
    fn begin(
        &mut self,
        env: &mut E,
        versions: &mut VersionSet<E, C>,
        store: &str,
        options: &Options<C, FP>,
        key: &[u8],
        value: &[u8],
    ) -> Result<()>
        requires none { self.old.unfinished ≡ None }
        requires tagged { 8 ≤ length key.now }
        ensures begins { let choices = choices_of C.Cmp FP.FilterPolicy
            ⟦<InternalKeyCmp<C> as Cmp>⟧ ⟦<InternalFilterPolicy<FP> as FilterPolicy>⟧
            ⟦<CompressorList as Compressors>⟧.codings options.now in
            BeginsTable choices E.Env store.now self.old.done (key.now, value.now)
            versions.old.set.next_file env.old result versions.new.set.next_file env.new self.new }
        ensures numbers { MayGiveNumber versions.old.set versions.new.set }
        ensures version { versions.new.current ≡ versions.old.current }
    {
        self.done.reserve(1)?;
        let smallest = copied_key(self.alloc, key)?;
        let number = versions.new_file_number()?;
        let path = table_file_name(self.alloc, store, number)?;
        let core = new_builder(self.alloc, options);
        let mut table = TableFile::create(self.alloc, env, &path, number, core, smallest)?;
        table.add(env, &options.compressor_list, key, value)?;
        self.unfinished = Some(table);
        self.ends = false;
        Ok(())
    }
}

// Whether two internal keys are of one user key.
fn is_same_user(one: &[u8], other: &[u8]) -> bool
    ensures { result ≡ bytes_eq (user_part one.now) (user_part other.now) }
{
    split_sequence(one).0 == split_sequence(other).0
}
