//! The files of a store's folder, by what their names say.
// LevelDB: db/db_impl.cc, DBImpl::Recover
ghost use Rattle.std.specs.Prelude.{◌≡◌, ◌⊎◌, ◌++◌, [], ◌∷◌, Any, IfErr, IfOk, IsTrue, OnOk, map, string_bytes, ◌↔◌};
ghost use Rattle.leveldb_base.specs.Error.{IsOutOfMemory};
ghost use Rattle.leveldb_base.specs.declared.error.StatusCode.TheVariants.{Corruption};
ghost use Rattle.leveldb_env.specs.Env.{FilesUnchanged, Run, SameLocks};
ghost use Rattle.leveldb_store.specs.Openings.Listing.{AddsFile, AreFilesIn, AreFilesOf};
ghost use Rattle.leveldb_store.specs.Openings.OpensStore.{IsBareFolder};
ghost use Rattle.leveldb_store.specs.Logs.ReplayLog.{HasCauseOr};

use leveldb_base::error::Result;
use leveldb_base::names::file_name_parts;
use leveldb_base::types::{FileNum, FileType};
use leveldb_env::env::Env;
use leveldb_env::env::whole_files::found;
use std::alloc::Global;

/// A file in a store's folder, with the number and the type that its name has.
#[derive(Drop)]
pub struct ListedFile {
    /// Its name, without the folder, however its number is written there.
    pub name: String,
    /// The number that its name has, or 0.
    pub number: FileNum,
    /// The type that its name has.
    pub kind: FileType,
}

/// The files in the store's folder, each of whose names is read once. Those whose names aren't of a
/// store's files are left out. `Corruption` where the folder has no file.
pub fn list_files<E: Env>(alloc: Global, env: &mut E, store: &str) -> Result<Vec<ListedFile>>
    ensures still { IsTrue E.models_disk
        → Run (FilesUnchanged (E.observed env.old).disk.files) (E.observed env.old)
        (E.observed env.new) }
    ensures locks { SameLocks E.models_disk (E.observed env.old) (E.observed env.new) }
    ensures lists { IfOk result (λ files. AreFilesIn E.Env store.now env.old files.items) }
    ensures cause { HasCauseOr (λ status. (status.code ≡ Corruption) × (IsTrue E.models_disk
        → IsBareFolder store.now (E.observed env.old).disk.files))
        (E.failures env.old) (E.failures env.new) result }
{
    let names = found(alloc, store, env.children(alloc, store))?;
    files_of(alloc, names)
}

// The files of a store among these names.
fn files_of(alloc: Global, names: Vec<String>) -> Result<Vec<ListedFile>>
    ensures ok { IfOk result (λ files.
        AreFilesOf (map string_bytes names.items) files.items) }
    ensures memory { IfErr result IsOutOfMemory }
{
    let mut files = Vec::new(alloc);
    for name in names {
        add_file(name, &mut files)?;
    }
    Ok(files)
}

// Appends the file of this name, if it is one of a store.
fn add_file(name: String, files: &mut Vec<ListedFile>) -> Result<()>
    ensures ok { OnOk result
        (AddsFile (string_bytes name) files.old.items files.new.items) }
    ensures memory { IfErr result IsOutOfMemory }
{
    let Some((number, kind)) = file_name_parts(name.as_str()) else {
        return Ok(());
    };
    files.push(ListedFile { name, number, kind })?;
    Ok(())
}
