//! Syncs of the logs that are replayed, before anything is made of them.
ghost use Rattle.std.specs.Prelude.{◌≡◌, IsTrue, OnOk};
ghost use Rattle.leveldb_base.specs.Error.{IsOutOfMemory};
ghost use Rattle.leveldb_env.specs.Env.{HasCause, Run, SameLocks};
ghost use Rattle.leveldb_store.specs.Openings.OpeningSteps.{AreBeingKept, IsBeingKept, with_log_kept, with_logs_kept};

use leveldb_base::error::Result;
use leveldb_base::names::log_file_name;
use leveldb_base::types::FileNum;
use leveldb_env::env::Env;
use std::alloc::Global;
use std::collections::BTreeSet;

// Makes a crash keep all bytes of these logs.
pub(super) fn sync_logs<E: Env>(
    alloc: Global,
    env: &mut E,
    store: &str,
    logs: &BTreeSet<FileNum>,
) -> Result<()>
    ensures run { IsTrue E.models_disk
        → Run (AreBeingKept store.now logs.now.keys (E.observed env.old).disk.files)
        (E.observed env.old) (E.observed env.new) }
    ensures ok { OnOk result (IsTrue E.models_disk → (E.observed env.new).disk.files
        ≡ with_logs_kept store.now logs.now.keys (E.observed env.old).disk.files) }
    ensures locks { SameLocks E.models_disk (E.observed env.old) (E.observed env.new) }
    ensures cause { HasCause IsOutOfMemory (E.failures env.old) (E.failures env.new) result }
{
    for number in logs {
        sync_log(alloc, env, store, *number)?;
    }
    Ok(())
}

// Makes a crash keep all bytes of the log of this number.
fn sync_log<E: Env>(alloc: Global, env: &mut E, store: &str, number: FileNum) -> Result<()>
    ensures run { IsTrue E.models_disk
        → Run (IsBeingKept store.now number (E.observed env.old).disk.files)
        (E.observed env.old) (E.observed env.new) }
    ensures ok { OnOk result (IsTrue E.models_disk → (E.observed env.new).disk.files
        ≡ with_log_kept store.now number (E.observed env.old).disk.files) }
    ensures locks { SameLocks E.models_disk (E.observed env.old) (E.observed env.new) }
    ensures cause { HasCause IsOutOfMemory (E.failures env.old) (E.failures env.new) result }
{
    let path = log_file_name(alloc, store, number)?;
    let mut file = env.open_appendable_file(&path)?;
    env.sync(&mut file)
}
