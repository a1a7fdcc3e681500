//! What is found in a store's folder.
// LevelDB: db/repair.cc, Repairer::FindFiles and ExtractMetaData
ghost use Rattle.std.specs.Prelude.{◌≡◌, ◌⊎◌, ◌↔◌, Any, IsTrue};
ghost use Rattle.leveldb_base.specs.declared.types.FileType.TheVariants.{Log, Table};
ghost use Rattle.leveldb_repair.specs.RepairSteps.{FindsAll};
ghost use Rattle.leveldb_store.specs.Tables.BuildTable.{choices_of};
ghost use Rattle.leveldb_store.specs.declared.opening.listing.ListedFile.{ListedFile};

use crate::found_logs::found_logs;
use crate::found_tables::found_tables;
use crate::found_walk::FoundTable;
use crate::numbers::greatest_in_folder;
use leveldb_base::cmp::{Cmp, InternalKeyCmp, UserCmp};
use leveldb_base::error::{Result, StatusCode, err};
use leveldb_base::types::{FileNum, FileType};
use leveldb_env::compressor::{CompressorList, Compressors};
use leveldb_env::env::Env;
use leveldb_env::filter::{FilterPolicy, InternalFilterPolicy};
use leveldb_env::infolog::Logger;
use leveldb_env::options::Options;
use leveldb_mem::memtable::MemTable;
use leveldb_store::opening::listing::{ListedFile, list_files};
use std::alloc::Global;

// What is found of the files in a folder, a table or a log among them.
#[derive(Drop)]
pub(super) struct Found<E: Env, C: UserCmp + Copy + Drop>
where
    InternalKeyCmp<C>: Cmp,
{
    // the greatest number of a name or in a manifest
    pub(super) greatest: FileNum,
    // walks over the readable tables
    pub(super) tables: Vec<FoundTable<E, C>>,
    // the entries of the logs
    pub(super) logs: Vec<MemTable<C>>,
}

// Finds what is in the store's folder. `InvalidArgument` where neither a table nor a log is there.
pub(super) fn find<E: Env, C: UserCmp + Copy + Drop, FP: FilterPolicy + Copy + Drop>(
    alloc: Global,
    env: &mut E,
    store: &str,
    options: &Options<C, FP>,
    log: &mut Option<Logger>,
) -> Result<Found<E, C>>
    ensures { let codings = ⟦<CompressorList as Compressors>⟧.codings in
        FindsAll (choices_of C.Cmp FP.FilterPolicy ⟦<InternalKeyCmp<C> as Cmp>⟧
        ⟦<InternalFilterPolicy<FP> as FilterPolicy>⟧ codings options.now) E.Env C.Cmp codings
        options.now.compressor_list options.now.cmp store.now env.old result env.new }
{
    let listed = list_files(alloc, env, store)?;
    let files = listed.as_slice();
    if !has_entries(files) {
        return err(
            alloc,
            StatusCode::InvalidArgument,
            "neither a table nor a log is there",
        );
    }
    let greatest = greatest_in_folder(alloc, env, store, files)?;
    let cmp = options.cmp;
    let compressors = &options.compressor_list;
    let tables = found_tables(alloc, env, store, cmp, files, compressors, log)?;
    let logs = found_logs(alloc, env, store, cmp, files, log)?;
    Ok(Found {
        greatest,
        tables,
        logs,
    })
}

// Whether a table or a log is among the files.
fn has_entries(files: &[ListedFile]) -> bool
    ensures { IsTrue result
        ↔ Any (λ (file : ListedFile). (file.kind ≡ Table) ⊎ (file.kind ≡ Log)) files.now }
{
    for file in files {
        if is_table_or_log(file.kind) {
            return true;
        }
    }
    false
}

// Whether the type is a table's or a log's.
fn is_table_or_log(kind: FileType) -> bool
    ensures { IsTrue result ↔ ((kind ≡ Table) ⊎ (kind ≡ Log)) }
{
    match kind {
        FileType::Table | FileType::Log => true,
        _ => false,
    }
}
