//! The logs of a store's folder, in memory as far as they are found.
// LevelDB: db/repair.cc, Repairer::ConvertLogFilesToTables
ghost use Rattle.std.specs.Prelude.{◌≡◌, ◌↔◌, IsTrue};
ghost use Rattle.leveldb_base.specs.History.{AreUpTo};
ghost use Rattle.leveldb_base.specs.declared.types.FileType.TheVariants.{Log};
ghost use Rattle.leveldb_env.specs.Env.{FilesUnchanged, HasCause, Run, SameLocks};
ghost use Rattle.leveldb_env.specs.WholeFiles.{IsLost};
ghost use Rattle.leveldb_repair.specs.FoundLogs.{FindsLog, FindsLogs};

use crate::folder::path_in;
use leveldb_base::cmp::UserCmp;
use leveldb_base::error::Result;
use leveldb_base::types::FileType;
use leveldb_env::env::Env;
use leveldb_env::env::whole_files::read_file;
use leveldb_env::infolog::Logger;
use leveldb_mem::memtable::MemTable;
use leveldb_mem::write_batch::WriteBatch;
use leveldb_store::damage::{LeftOut, left_after};
use leveldb_store::log_replay::{LogReplay, NextFound};
use leveldb_store::opening::listing::ListedFile;
use std::alloc::Global;

mod memtables;

use memtables::Memtables;

/// The entries of the logs among these files of a store's folder, one log after another, each as
/// far as it is found: up to its first bad end, or its first record that is no batch with numbers
/// from 1 to the greatest. What is left out of a log is a line for `log`.
/// Another memtable begins with a batch that isn't above the entries before it, or doesn't fit
/// beside them. `NotSupported` where one is too large for a memtable of its own, `Corruption` where
/// a log is missing.
pub fn found_logs<E: Env, C: UserCmp + Copy + Drop>(
    alloc: Global,
    env: &mut E,
    store: &str,
    cmp: C,
    files: &[ListedFile],
    log: &mut Option<Logger>,
) -> Result<Vec<MemTable<C>>>
    ensures { FindsLogs E.Env store.now cmp files.now env.old result env.new }
{
    let mut found = Memtables::new(alloc, cmp);
    for file in files {
        find_log(alloc, env, store, file, &mut found, log)?;
    }
    found.into_tables()
}

// Adds the entries of a file, if it is a log, as far as it is found.
fn find_log<E: Env, C: UserCmp + Copy + Drop>(
    alloc: Global,
    env: &mut E,
    store: &str,
    file: &ListedFile,
    found: &mut Memtables<C>,
    log: &mut Option<Logger>,
) -> Result<()>
    requires up_to { AreUpTo found.old.last found.old.latest.kept.entries }
    ensures { FindsLog E.Env store.now file.now found.old env.old result found.new env.new }
{
    if !is_log(file.kind) {
        return Ok(());
    }
    let path = path_in(alloc, store, &file.name)?;
    let mut reading = LogReplay::open_path(alloc, env, path, file.number)?;
    let mut batch = WriteBatch::new(alloc)?;
    'batches: loop {
        match reading.next_found(env, &mut batch)? {
            NextFound::More => {}
            NextFound::CleanEnd => return Ok(()),
            NextFound::BadEnd => {
                let count = reading.found_count();
                return tell_left_out(alloc, env, reading.path(), count, false, log);
            }
            NextFound::NoBatch => {
                let count = reading.found_count();
                return tell_left_out(alloc, env, reading.path(), count, true, log);
            }
        }
        found.add(alloc, &batch)?;
    }
}

// Whether the type is a log's.
fn is_log(kind: FileType) -> bool
    ensures { IsTrue result ↔ (kind ≡ Log) }
{
    match kind {
        FileType::Log => true,
        _ => false,
    }
}

// Tells what is left out of the log at this path, after so many batches of it. The log is read
// whole for this, but not where there is no sink.
fn tell_left_out<E: Env>(
    alloc: Global,
    env: &mut E,
    path: &str,
    batches: usize,
    is_record: bool,
    log: &mut Option<Logger>,
) -> Result<()>
    ensures run { IsTrue E.models_disk
        → Run (FilesUnchanged (E.observed env.old).disk.files) (E.observed env.old)
        (E.observed env.new) }
    ensures locks { SameLocks E.models_disk (E.observed env.old) (E.observed env.new) }
    ensures cause { HasCause (IsLost E.models_disk path.now (E.observed env.old)
        (E.failures env.old) (E.failures env.new)) (E.failures env.old) (E.failures env.new)
        result }
{
    if log.is_none() {
        return Ok(());
    }
    let text = read_file(alloc, env, path)?;
    tell(alloc, path, left_after(&text, batches), is_record, log);
    Ok(())
}

// Tells what is left out of a log: a record that is no batch and what comes after it, or a bad end.
// The line is lost if the sink fails or there is no memory for it, which is no error.
fn tell(alloc: Global, path: &str, left: LeftOut, is_record: bool, log: &mut Option<Logger>) {
    let Some(Logger(sink)) = log else {
        return;
    };
    let from = left.from;
    let count = left.count;
    let what = if is_record {
        "no batch comes there"
    } else if left.has_records {
        "whole records among them"
    } else {
        "no whole record among them"
    };
    if let Ok(line) = format!(in alloc;
        "{path}: {count} bytes from byte {from} on are left out, {what}\n"
    ) {
        let _ = sink.write(line.as_bytes());
    }
}
