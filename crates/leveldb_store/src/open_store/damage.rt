//! Logs and manifests that an opening left aside: what it left out of them, and what is kept then.
ghost use Rattle.std.specs.Prelude.{◌≡◌, ◌≤◌, ◌⊎◌, ◌↔◌, [], ℕ, List, Contains, Err, IfErr, IfOk, IsTrue, Ok, is_some, map, string_bytes};
ghost use Rattle.std.specs.Option.{option_map};
ghost use Rattle.leveldb_base.specs.Names.{IsFileName};
ghost use Rattle.leveldb_table.specs.TableBlock.{KeepsDisk};
ghost use Rattle.leveldb_files.specs.Stores.Paths.{log_path};
ghost use Rattle.leveldb_store.specs.Logs.Damage.{IsLeftAside};
ghost use Rattle.leveldb_store.specs.Openings.DamageSteps.{LooksAtName, LooksAtNames};
ghost use Rattle.leveldb_store.specs.Openings.EndsOpening.{LooksForDamage};
ghost use Rattle.leveldb_store.specs.Logs.LogReplay.{EndsCleanly};

use super::OpenStore;
use crate::damage::{LeftOut, left_out};
use crate::log_replay::{LogReplay, NextBatch};
use leveldb_base::cmp::UserCmp;
use leveldb_base::error::Result;
use leveldb_base::names::{file_name_parts, log_file_name};
use leveldb_base::types::{FileNum, FileType};
use leveldb_env::env::Env;
use leveldb_env::env::whole_files::read_file;
use leveldb_env::filter::FilterPolicy;
use leveldb_env::infolog::Logger;
use leveldb_mem::write_batch::WriteBatch;
use leveldb_version::table_cache::TableCache;
use std::alloc::Global;

impl<E: Env, C: UserCmp + Copy + Drop> OpenStore<E, C> {
    /// Looks at each log and each manifest that is obsolete. One that has bytes after its first bad
    /// end is a line for `log`, and is damaged if a whole record is among them. Where one is, the
    /// store keeps what is there now: files up to the greatest number aren't deleted while it is
    /// open, so that whoever copies the folder has what was left out, and the tables that it names.
    /// So they are where one of them can't be read, or the folder can't be: an Err says why.
    /// Returns the paths of the damaged files.
    pub(super) fn keep_damaged_files(
        &mut self,
        env: &mut E,
        log: &mut Option<Logger>,
    ) -> Result<Vec<String>>
        ensures same { self.new ≡ record self.old { kept_to = self.new.kept_to } }
        ensures ok { IfOk result (λ paths. LooksForDamage E.Env self.old.set env.old
            self.new.kept_to (map string_bytes paths.items) (Ok tt) env.new) }
        ensures err { IfErr result (λ status. LooksForDamage E.Env self.old.set env.old
            self.new.kept_to [] (Err status) env.new) }
        ensures keeps { KeepsDisk E.Env env.old env.new }
        ensures log { is_some log.new ≡ is_some log.old }
    {
        self.kept_to = Some(self.versions.next_file_num().saturating_sub(1));
        let names = env.children(self.alloc, &self.name)?;
        self.kept_to = Some(greatest_number(&names));
        let paths = self.tell_damage(env, &names, log)?;
        if paths.is_empty() {
            self.kept_to = None;
        }
        Ok(paths)
    }

    // Tells what is left out of each of the files of these names that was left aside. Returns the
    // paths of those that are damaged.
    fn tell_damage(
        &self,
        env: &mut E,
        names: &[String],
        log: &mut Option<Logger>,
    ) -> Result<Vec<String>>
        ensures looks { LooksAtNames E.Env self.now.set env.old (map string_bytes names.now)
            (λ paths. map string_bytes paths.items) result env.new }
        ensures keeps { KeepsDisk E.Env env.old env.new }
        ensures log { is_some log.new ≡ is_some log.old }
    {
        let mut paths = Vec::new(self.alloc);
        for name in names {
            let Some(path) = self.tell_damage_at(env, name, log)? else {
                continue;
            };
            paths.push(path)?;
        }
        Ok(paths)
    }

    // The same for the file of this name.
    fn tell_damage_at(
        &self,
        env: &mut E,
        name: &str,
        log: &mut Option<Logger>,
    ) -> Result<Option<String>>
        ensures looks { LooksAtName E.Env self.now.set env.old name.now (option_map string_bytes)
            result env.new }
        ensures keeps { KeepsDisk E.Env env.old env.new }
        ensures log { is_some log.new ≡ is_some log.old }
    {
        let Some((number, kind)) = file_name_parts(name) else {
            return Ok(None);
        };
        if !self.is_left_aside(number, kind) {
            return Ok(None);
        }
        let path = format!(in self.alloc; "{}/{name}", self.name)?;
        if self.ends_cleanly(env, &path, number) {
            return Ok(None);
        }
        let text = read_file(self.alloc, env, &path)?;
        let Some(left) = left_out(&text) else {
            return Ok(None);
        };
        tell(self.alloc, &path, left, log);
        Ok(left.has_records.then_some(path))
    }

    // Whether the file at this path, of this number, is a log of batches that ends between two
    // records. It is read a piece at a time, and false where that fails.
    fn ends_cleanly(&self, env: &mut E, path: &str, number: FileNum) -> bool
        ensures clean { IsTrue result → IsTrue E.models_disk
            → EndsCleanly ((E.observed env.old).disk.files path.now) }
        ensures keeps { KeepsDisk E.Env env.old env.new }
        ensures later { E.failures env.old ≤ E.failures env.new }
    {
        let Ok(own) = log_file_name(self.alloc, &self.name, number) else {
            return false;
        };
        if path != own.as_str() {
            return false;
        }
        match read_through(self.alloc, env, &self.name, number) {
            Ok(is_clean) => is_clean,
            Err(_) => false,
        }
    }

    // Whether a file of this number and type is a log or a manifest that was left aside.
    fn is_left_aside(&self, number: FileNum, kind: FileType) -> bool
        ensures { IsTrue result ↔ IsLeftAside self.now.set kind number }
    {
        match kind {
            FileType::Log => self.is_past_log(number),
            FileType::Descriptor => number < self.versions.manifest_num(),
            _ => false,
        }
    }
}

// The greatest number of a store's file among these names, or 0.
fn greatest_number(names: &[String]) -> FileNum
    ensures most { (name : List ℕ) → Contains (map string_bytes names.now) name
        → (n : ℕ) (kind : FileType) → IsFileName name n kind → n ≤ result }
    ensures is_one { (result ≡ 0) ⊎ ((name : List ℕ) × (kind : FileType)
        × Contains (map string_bytes names.now) name × IsFileName name result kind) }
{
    let mut greatest = 0;
    for name in names {
        if let Some((number, _)) = file_name_parts(name) {
            greatest = number.max(greatest);
        }
    }
    greatest
}

// Reads a log batch by batch. Returns whether it ends between two records.
fn read_through<E: Env>(alloc: Global, env: &mut E, store: &str, number: FileNum) -> Result<bool>
    ensures clean { IfOk result (λ is_clean. IsTrue is_clean → IsTrue E.models_disk
        → EndsCleanly ((E.observed env.old).disk.files (log_path store.now number))) }
    ensures keeps { KeepsDisk E.Env env.old env.new }
    ensures later { E.failures env.old ≤ E.failures env.new }
{
    let mut log = LogReplay::open(alloc, env, store, number)?;
    let mut batch = WriteBatch::new(alloc)?;
    'batches: loop {
        match log.next_batch(env, &mut batch)? {
            NextBatch::More => {}
            NextBatch::CleanEnd => return Ok(true),
            NextBatch::BadEnd => return Ok(false),
        }
    }
}

// Tells what was left out of a file. The line is lost if the sink fails or there is no memory for
// it, which is no error.
fn tell(alloc: Global, path: &str, left: LeftOut, log: &mut Option<Logger>)
    ensures { is_some log.new ≡ is_some log.old }
{
    let Some(Logger(sink)) = log else {
        return;
    };
    let from = left.from;
    let count = left.count;
    let records = if left.has_records {
        "whole records"
    } else {
        "no whole record"
    };
    if let Ok(line) = format!(in alloc;
        "{path}: {count} bytes from byte {from} on are left out, {records} among them\n"
    ) {
        let _ = sink.write(line.as_bytes());
    }
}
