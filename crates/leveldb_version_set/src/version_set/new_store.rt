//! Manifests of one record, such as that of a new store.
// LevelDB: db/db_impl.cc, DBImpl::NewDB
ghost use Rattle.std.specs.Prelude.{◌≡◌, IfOk, IfErr};
ghost use Rattle.leveldb_base.specs.Error.{IsOutOfMemory};
ghost use Rattle.leveldb_version_set.specs.Sets.NewStore.{MakeStoreResult, MakesManifest, first_edit};
ghost use Rattle.leveldb_version.specs.Edits.VersionEdit.{edit_of};

use super::new_manifest::{frame_records, make_manifest};
use leveldb_base::cmp::Cmp;
use leveldb_base::error::Result;
use leveldb_base::names::manifest_file_name;
use leveldb_base::types::FileNum;
use leveldb_env::env::Env;
use leveldb_version::version_edit::VersionEdit;
use std::alloc::Global;

/// Makes the manifest of a store that isn't there yet, with the number 1, and then has `CURRENT`
/// name it. After an Err the manifest may be there, and `CURRENT` may name it.
pub fn make_store<E: Env, C: Cmp>(alloc: Global, env: &mut E, store: &str, cmp: &C) -> Result<()>
    ensures { MakeStoreResult E.models_disk store.now (C.name cmp.now) (E.observed env.old)
        (E.failures env.old) result (E.observed env.new) (E.failures env.new) }
{
    make_manifest_of(alloc, env, store, 1, &edit_of_new_store(alloc, cmp)?)
}

/// Makes a manifest of this number, whose one record is the edit, and then has `CURRENT` name it.
/// After an Err the manifest may be there, and `CURRENT` may name it.
pub fn make_manifest_of<E: Env>(
    alloc: Global,
    env: &mut E,
    store: &str,
    number: FileNum,
    edit: &VersionEdit,
) -> Result<()>
    ensures { MakesManifest E.models_disk store.now number (edit_of edit.now) (E.observed env.old)
        (E.failures env.old) result (E.observed env.new) (E.failures env.new) }
{
    let path = manifest_file_name(alloc, store, number)?;
    let record = edit.encode(alloc)?;
    let records = frame_records(alloc, &[record])?;
    make_manifest(alloc, env, store, number, path, records)?;
    Ok(())
}

// The one edit of a new store's manifest.
fn edit_of_new_store<C: Cmp>(alloc: Global, cmp: &C) -> Result<VersionEdit>
    ensures ok { IfOk result (λ edit. edit_of edit ≡ first_edit (C.name cmp.now)) }
    ensures memory { IfErr result IsOutOfMemory }
{
    let mut edit = VersionEdit::new(alloc);
    edit.set_comparator_name(cmp.id())?;
    edit.set_log_num(0);
    edit.set_next_file(2);
    edit.set_last_seq(0);
    Ok(edit)
}
