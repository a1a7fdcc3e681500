//! The readable tables of a store's folder, whether a manifest names them or not.
// LevelDB: db/repair.cc, Repairer::ExtractMetaData
ghost use Rattle.std.specs.Prelude.{◌≡◌, ◌↔◌, IsTrue};
ghost use Rattle.leveldb_base.specs.declared.types.FileType.TheVariants.{Table};
ghost use Rattle.leveldb_repair.specs.FoundTables.{FindsTable, FindsTables, SizesFile};

use crate::folder::path_in;
use crate::found_walk::{FoundTable, open_found};
use leveldb_base::cmp::{Cmp, InternalKeyCmp, UserCmp};
use leveldb_base::error::Result;
use leveldb_base::types::FileType;
use leveldb_env::compressor::{CompressorList, Compressors};
use leveldb_env::env::Env;
use leveldb_env::env::whole_files::found;
use leveldb_env::infolog::Logger;
use leveldb_store::opening::listing::ListedFile;
use leveldb_table::readable::is_readable_table;
use std::alloc::Global;

/// The readable tables among these files of a store's folder, each a walk at no position, in the
/// order of the files. A table that isn't readable is left out, which is a line for `log`.
/// `Corruption` where a table is missing; the causes of `is_readable_table`.
pub fn found_tables<E: Env, C: UserCmp + Copy + Drop>(
    alloc: Global,
    env: &mut E,
    store: &str,
    cmp: C,
    files: &[ListedFile],
    compressors: &CompressorList,
    log: &mut Option<Logger>,
) -> Result<Vec<FoundTable<E, C>>>
    ensures { FindsTables ⟦<InternalKeyCmp<C> as Cmp>⟧ E.Env C.Cmp
        ⟦<CompressorList as Compressors>⟧.codings compressors.now cmp store.now files.now env.old
        result env.new }
{
    let mut tables = Vec::new(alloc);
    for file in files {
        let Some(table) = find_table(alloc, env, store, cmp, file, compressors, log)? else {
            continue;
        };
        tables.push(table)?;
    }
    Ok(tables)
}

// A walk over a file, if it is a readable table. A table that isn't is a line for `log`.
fn find_table<E: Env, C: UserCmp + Copy + Drop>(
    alloc: Global,
    env: &mut E,
    store: &str,
    cmp: C,
    file: &ListedFile,
    compressors: &CompressorList,
    log: &mut Option<Logger>,
) -> Result<Option<FoundTable<E, C>>>
    ensures { FindsTable ⟦<InternalKeyCmp<C> as Cmp>⟧ E.Env C.Cmp
        (⟦<CompressorList as Compressors>⟧.codings compressors.now) cmp store.now file.now env.old
        result env.new }
{
    if !is_table(file.kind) {
        return Ok(None);
    }
    let path = path_in(alloc, store, &file.name)?;
    let size = size_at(alloc, env, &path)?;
    if !is_readable_table(alloc, env, &path, cmp, compressors)? {
        tell(alloc, &path, size, log);
        return Ok(None);
    }
    let table = open_found(alloc, env, &path, cmp, compressors)?;
    Ok(Some(table))
}

// Whether the type is a table's.
fn is_table(kind: FileType) -> bool
    ensures { IsTrue result ↔ (kind ≡ Table) }
{
    match kind {
        FileType::Table => true,
        _ => false,
    }
}

// How many bytes the file at this path has. `Corruption` where it is missing.
fn size_at<E: Env>(alloc: Global, env: &mut E, path: &str) -> Result<usize>
    ensures { SizesFile E.Env path.now env.old result env.new }
{
    found(alloc, path, env.size_of(path))
}

// Tells that a table of so many bytes is left out. The line is lost if the sink fails or there is
// no memory for it, which is no error.
fn tell(alloc: Global, path: &str, size: usize, log: &mut Option<Logger>) {
    let Some(Logger(sink)) = log else {
        return;
    };
    if let Ok(line) = format!(in alloc;
        "{path}: {size} bytes are left out, which are no readable table\n"
    ) {
        let _ = sink.write(line.as_bytes());
    }
}
