//! Opening a table that is found in a store's folder.
ghost use Rattle.leveldb_repair.specs.FoundWalkTable.{OpensFile, OpensFoundAt};

use super::table::FoundTable;
use leveldb_base::cmp::{Cmp, InternalKeyCmp, UserCmp};
use leveldb_base::error::Result;
use leveldb_env::compressor::{CompressorList, Compressors};
use leveldb_env::env::Env;
use leveldb_env::env::whole_files::found;
use std::alloc::Global;

/// A walk over the table in the file at this path, under this order of users' keys, at no position.
/// It reads the footer and the index. `Corruption` where the file is missing or has none; the
/// causes of `read_table_block`.
pub fn open_found<E: Env, C: UserCmp + Copy + Drop>(
    alloc: Global,
    env: &mut E,
    path: &str,
    cmp: C,
    compressors: &CompressorList,
) -> Result<FoundTable<E, C>>
    ensures { OpensFoundAt ⟦<InternalKeyCmp<C> as Cmp>⟧ E.Env C.Cmp
        (⟦<CompressorList as Compressors>⟧.codings compressors.now) cmp path.now env.old result
        env.new }
{
    let (file, size) = open_file(alloc, env, path)?;
    FoundTable::open(alloc, env, file, size, cmp, compressors)
}

// Opens the file at this path, and returns how many bytes it has. `Corruption` where it is missing.
fn open_file<E: Env>(alloc: Global, env: &mut E, path: &str) -> Result<(E::File, usize)>
    ensures { OpensFile E.Env path.now env.old result env.new }
{
    let size = found(alloc, path, env.size_of(path))?;
    let file = found(alloc, path, env.open_random_access_file(path))?;
    Ok((file, size))
}
