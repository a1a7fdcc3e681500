//! The edit with which an opening ends.
// LevelDB: db/db_impl.cc, DB::Open
ghost use Rattle.std.specs.Prelude.{◌≡◌, IfErr, IfOk};
ghost use Rattle.leveldb_base.specs.Error.{IsOutOfMemory};
ghost use Rattle.leveldb_env.specs.Env.{SameLocks};
ghost use Rattle.leveldb_version_set.specs.Engines.Opening.{tables_edit};
ghost use Rattle.leveldb_version.specs.Edits.VersionEdit.{edit_of};
ghost use Rattle.leveldb_store.specs.Openings.OpeningSteps.{LogsTables, made_files};

use leveldb_base::cmp::UserCmp;
use leveldb_base::error::Result;
use leveldb_base::types::{FileMetaData, FileNum};
use leveldb_env::env::Env;
use leveldb_version::version_edit::VersionEdit;
use leveldb_version_set::version_set::VersionSet;
use std::alloc::Global;

// Logs the edit that has these tables in place of the logs below a number.
pub(super) fn log_edit<E: Env, C: UserCmp + Copy + Drop>(
    alloc: Global,
    env: &mut E,
    versions: &mut VersionSet<E, C>,
    log: FileNum,
    tables: Vec<FileMetaData>,
) -> Result<()>
    ensures logs { LogsTables E.Env log tables.items versions.old.set env.old result
        versions.new.set env.new }
    ensures cmp { versions.new.current.cmp ≡ versions.old.current.cmp }
    ensures locks { SameLocks E.models_disk (E.observed env.old) (E.observed env.new) }
{
    let edit = edit_of_tables(alloc, log, tables)?;
    versions.log_and_apply(env, edit)
}

// The edit of a log number and tables of level 0.
fn edit_of_tables(alloc: Global, log: FileNum, tables: Vec<FileMetaData>) -> Result<VersionEdit>
    ensures ok { IfOk result (λ edit. edit_of edit ≡ tables_edit log (made_files tables.items)) }
    ensures memory { IfErr result IsOutOfMemory }
{
    let mut edit = VersionEdit::new(alloc);
    edit.set_log_num(log);
    for file in tables {
        edit.add_file(0, file)?;
    }
    Ok(edit)
}
