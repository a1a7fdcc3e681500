//! Which store is there: one that is opened, or none, so that one is made.
// LevelDB: db/db_impl.cc, DBImpl::Recover and NewDB
ghost use Rattle.std.specs.Prelude.{◌≡◌, ◌⊎◌, ◌↔◌, Any, IfOk, IfSome, IsTrue};
ghost use Rattle.leveldb_base.specs.declared.types.FileType.TheVariants.{Current, Log, Table};
ghost use Rattle.leveldb_store.specs.Openings.Listing.{AreFilesIn};
ghost use Rattle.leveldb_store.specs.Openings.OpeningSteps.{FindsStore};

use super::listing::{ListedFile, list_files};
use leveldb_base::cmp::Cmp;
use leveldb_base::error::{Result, StatusCode, err};
use leveldb_base::types::FileType;
use leveldb_env::env::Env;
use leveldb_env::options::Options;
use leveldb_version_set::version_set::make_store;
use std::alloc::Global;

// Finds the store, or makes it where there is none. Returns the files in its folder, or none where
// the store was made, since its files are listed nowhere then.
pub(super) fn find_store<E: Env, C: Cmp, FP>(
    alloc: Global,
    env: &mut E,
    store: &str,
    options: &Options<C, FP>,
) -> Result<Option<Vec<ListedFile>>>
    ensures finds { FindsStore E.Env store.now (C.name options.now.cmp)
        options.now.create_if_missing options.now.error_if_exists env.old result env.new }
    ensures listed { IfOk result (λ listed. IfSome listed
        (λ files. AreFilesIn E.Env store.now env.new files.items)) }
{
    let files = list_files(alloc, env, store)?;
    if has_current(files.as_slice()) {
        if options.error_if_exists {
            return err(alloc, StatusCode::AlreadyExists, "there is a store");
        }
        return Ok(Some(files));
    }
    if has_table_or_log(files.as_slice()) {
        return err(
            alloc,
            StatusCode::Corruption,
            "there are tables or logs without CURRENT",
        );
    }
    if !options.create_if_missing {
        return err(alloc, StatusCode::InvalidArgument, "there is no store");
    }
    // The comparator's name is text that an edit can have.
    let _ = options.cmp.id();
    make_store(alloc, env, store, &options.cmp)?;
    Ok(None)
}

// Whether `CURRENT` is one of the files.
fn has_current(files: &[ListedFile]) -> bool
    ensures { IsTrue result ↔ Any (λ file. file.kind ≡ Current) files.now }
{
    for file in files {
        if is_current(file.kind) {
            return true;
        }
    }
    false
}

// Whether one of the files is a table or a log.
fn has_table_or_log(files: &[ListedFile]) -> bool
    ensures { IsTrue result ↔ Any (λ file. (file.kind ≡ Table) ⊎ (file.kind ≡ Log)) files.now }
{
    for file in files {
        if kind_has_entries(file.kind) {
            return true;
        }
    }
    false
}

// Whether a file of this type is `CURRENT`.
fn is_current(kind: FileType) -> bool
    ensures { IsTrue result ↔ (kind ≡ Current) }
{
    match kind {
        FileType::Current => true,
        _ => false,
    }
}

// Whether a file of this type has entries.
fn kind_has_entries(kind: FileType) -> bool
    ensures { IsTrue result ↔ ((kind ≡ Table) ⊎ (kind ≡ Log)) }
{
    match kind {
        FileType::Table | FileType::Log => true,
        _ => false,
    }
}
