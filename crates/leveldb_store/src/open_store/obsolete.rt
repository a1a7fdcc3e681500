//! Deletions of the store's files that nothing needs any more.
// LevelDB: db/db_impl.cc, DBImpl::RemoveObsoleteFiles
ghost use Rattle.std.specs.Prelude.{◌≡◌, ◌↔◌, IsTrue, map, string_bytes};
ghost use Rattle.leveldb_base.specs.declared.types.FileType.TheVariants.{Log, Table};
ghost use Rattle.leveldb_env.specs.Env.{ListsChildren};
ghost use Rattle.leveldb_version_set.specs.Sets.VersionSetValue.{numbers_in_order};
ghost use Rattle.leveldb_version_set.specs.Engines.Writing.{IsObsolete};
ghost use Rattle.leveldb_files.specs.Stores.Format.{Meaning};
ghost use Rattle.leveldb_store.specs.Keeping.KeptBytes.{IsKept};
ghost use Rattle.leveldb_store.specs.Keeping.OpenTables.{ClosesObsolete};
ghost use Rattle.leveldb_store.specs.Writing.Switch.{IsFirstError, RemovesName, RemovesNames, RemovesObsolete};
ghost use Rattle.leveldb_store.specs.Keeping.Written.{KeepsWritten};

use super::OpenStore;
use leveldb_base::cmp::UserCmp;
use leveldb_base::error::{Result, StatusCode};
use leveldb_base::names::file_name_parts;
use leveldb_base::types::{FileNum, FileType};
use leveldb_env::env::Env;
use leveldb_env::filter::FilterPolicy;
use leveldb_version::table_cache::TableCache;
use std::collections::BTreeSet;

impl<E: Env, C: UserCmp + Copy + Drop> OpenStore<E, C> {
    /// Deletes the files of the store's folder that are obsolete: logs below the log number,
    /// manifests below the one in use, tables that aren't live, and temporary files; but for those
    /// that the store keeps. A table is closed before its file is deleted. It goes on after a
    /// deletion that fails, and returns the first error, or `OutOfMemory` if memory was out for one
    /// of them. Where a call on the manifest failed it deletes nothing, since the manifest may know
    /// of more than the set does.
    pub fn remove_obsolete<FP: FilterPolicy + Copy + Drop>(
        &self,
        env: &mut E,
        tables: &mut TableCache<E, C, FP>,
    ) -> Result<()>
        ensures removes { RemovesObsolete E.Env self.now.set self.now.kept_to env.old result
            env.new }
        ensures keeps { IsTrue E.models_disk → (meaning : Meaning)
            → KeepsWritten (C.cmp self.now.cmp) meaning self.now (E.observed env.old) self.now
            (E.observed env.new) }
        ensures closes { ClosesObsolete E.Env self.now.set env.old tables.old env.new tables.new }
    {
        if self.versions.is_broken() {
            return Ok(());
        }
        let live = self.versions.live_files()?;
        let names = env.children(self.alloc, &self.name)?;
        self.remove_all(env, tables, &live, &names)
    }

    // Deletes those of the folder's files that are obsolete and aren't kept.
    fn remove_all<FP: FilterPolicy + Copy + Drop>(
        &self,
        env: &mut E,
        tables: &mut TableCache<E, C, FP>,
        live: &BTreeSet<FileNum>,
        names: &[String],
    ) -> Result<()>
        requires live { live.now.keys ≡ numbers_in_order self.now.set.full.added }
        requires listed { IsTrue E.models_disk → ListsChildren (E.observed env.old).disk.files
            self.now.set.store (map string_bytes names.now) }
        ensures removes { RemovesNames E.Env self.now.set self.now.kept_to env.old
            (map string_bytes names.now) result env.new }
        ensures closes { ClosesObsolete E.Env self.now.set env.old tables.old env.new tables.new }
    {
        let mut first = Ok(());
        for name in names {
            first = first_error(first, self.remove_one(env, tables, live, name));
        }
        first
    }

    // Deletes the file of this name in the store's folder, if it is obsolete and isn't kept. A
    // table is closed before that.
    fn remove_one<FP: FilterPolicy + Copy + Drop>(
        &self,
        env: &mut E,
        tables: &mut TableCache<E, C, FP>,
        live: &BTreeSet<FileNum>,
        name: &str,
    ) -> Result<()>
        requires { live.now.keys ≡ numbers_in_order self.now.set.full.added }
        ensures removes { RemovesName E.Env self.now.set self.now.kept_to env.old name.now result
            env.new }
        ensures closes { ClosesObsolete E.Env self.now.set env.old tables.old env.new tables.new }
    {
        let Some((number, kind)) = file_name_parts(name) else {
            return Ok(());
        };
        if !self.is_obsolete(live, number, kind) {
            return Ok(());
        }
        if self.is_kept(number) {
            return Ok(());
        }
        let path = format!(in self.alloc; "{}/{name}", self.name)?;
        if is_table(kind) {
            tables.evict(number);
        }
        env.delete(&path)
    }

    // Whether a file of this number and type is obsolete.
    fn is_obsolete(&self, live: &BTreeSet<FileNum>, number: FileNum, kind: FileType) -> bool
        requires { live.now.keys ≡ numbers_in_order self.now.set.full.added }
        ensures { IsTrue result ↔ IsObsolete self.now.set kind number }
    {
        match kind {
            FileType::Log => self.is_past_log(number),
            FileType::Descriptor => number < self.versions.manifest_num(),
            FileType::Table => !live.contains(&number),
            FileType::Temp => true,
            FileType::DBLock | FileType::Current | FileType::InfoLog => false,
        }
    }

    // Whether a file of this number is kept, obsolete or not.
    fn is_kept(&self, number: FileNum) -> bool
        ensures { IsTrue result ↔ IsKept self.now.kept_to number }
    {
        match self.kept_to {
            Some(last) => number <= last,
            None => false,
        }
    }

    // Whether a log of this number is obsolete.
    pub(super) fn is_past_log(&self, number: FileNum) -> bool
        ensures { IsTrue result ↔ IsObsolete self.now.set Log number }
    {
        number < self.versions.log_num() && (number == 0 || number != self.versions.prev_log_num())
    }
}

// The first error of two calls in a row, but `OutOfMemory` before any other.
pub(super) fn first_error(first: Result<()>, next: Result<()>) -> Result<()>
    ensures { IsFirstError first next result }
{
    match next {
        Err(status) if status.code == StatusCode::OutOfMemory => Err(status),
        next => first.and(next),
    }
}

// Whether the type is a table's.
fn is_table(kind: FileType) -> bool
    ensures { IsTrue result ↔ (kind ≡ Table) }
{
    match kind {
        FileType::Table => true,
        _ => false,
    }
}
