//! A check of all files that an opening of a store would read.
ghost use Rattle.std.specs.Prelude.{IfErr};
ghost use Rattle.leveldb_base.specs.Error.{IsOutOfMemory};
ghost use Rattle.leveldb_table.specs.TableBlock.{KeepsDisk};
ghost use Rattle.leveldb_inspect.specs.Inspect.{IsOutputError};

use crate::batches::Batches;
use crate::dump::read_log;
use crate::lines::Lines;
use crate::live::{Live, live_logs, read_live};
use crate::reports::{Purpose, Report};
use crate::tables::{Shown, print_table};
use leveldb_base::error::Result;
use leveldb_base::names::{log_file_name, table_file_name};
use leveldb_base::types::{FileMetaData, FileNum};
use leveldb_env::compressor::CompressorList;
use leveldb_env::env::{Env, Sink};
use std::alloc::Global;
use std::collections::BTreeSet;

/// Reads all that an opening of the store in a folder may read: `CURRENT`, each record of the
/// manifest and of the live logs, and each block of the live tables, by these compressors. What is
/// wrong is a line each, and so is a bad end of a log or manifest that a crash may leave, which
/// isn't wrong.
pub fn check_store<E: Env, O: Sink>(
    alloc: Global,
    env: &mut E,
    compressors: &CompressorList,
    lines: &mut Lines<O>,
    store: &str,
) -> Result<()>
    ensures keeps { KeepsDisk E.Env env.old env.new }
    ensures cause { IfErr result (IsOutputError O.Sink) }
{
    let Some(live) = read_live(alloc, env, lines, store)? else {
        return Ok(());
    };
    check_tables(alloc, env, compressors, lines, store, &live)?;
    match live_logs(alloc, env, store, &live) {
        Ok(logs) => check_logs(alloc, env, lines, store, &logs),
        Err(status) => lines.failure(store, &status),
    }
}

// Checks the live tables.
fn check_tables<E: Env, O: Sink>(
    alloc: Global,
    env: &mut E,
    compressors: &CompressorList,
    lines: &mut Lines<O>,
    store: &str,
    live: &Live,
) -> Result<()>
    ensures keeps { KeepsDisk E.Env env.old env.new }
    ensures cause { IfErr result (IsOutputError O.Sink) }
{
    for table in &live.tables {
        check_table(alloc, env, compressors, lines, store, table.1)?;
    }
    Ok(())
}

// Checks a table's size, and reads all of it.
fn check_table<E: Env, O: Sink>(
    alloc: Global,
    env: &mut E,
    compressors: &CompressorList,
    lines: &mut Lines<O>,
    store: &str,
    file: &FileMetaData,
) -> Result<()>
    ensures keeps { KeepsDisk E.Env env.old env.new }
    ensures cause { IfErr result (IsOutputError O.Sink) }
{
    let path = table_path(alloc, env, store, file.num)?;
    if let Ok(size) = env.size_of(&path) {
        if size != file.size {
            wrong_size(lines, &path, size, file.size)?;
        }
    }
    print_table(alloc, env, compressors, lines, &path, Shown::Nothing)
}

// The path of a table, which an old LevelDB has ended in `.sst`.
fn table_path<E: Env>(alloc: Global, env: &mut E, store: &str, number: FileNum) -> Result<String>
    ensures keeps { KeepsDisk E.Env env.old env.new }
    ensures cause { IfErr result IsOutOfMemory }
{
    let old = format!(in alloc; "{store}/{number:06}.sst")?;
    match env.exists(&old) {
        Ok(true) => Ok(old),
        _ => table_file_name(alloc, store, number),
    }
}

// Tells that a table's size isn't that of its edit.
fn wrong_size<O: Sink>(lines: &mut Lines<O>, path: &str, size: usize, said: usize) -> Result<()>
    ensures cause { IfErr result (IsOutputError O.Sink) }
{
    lines.begin_fault(path)?;
    lines.text("has ")?;
    lines.number(size as u64)?;
    lines.text(" bytes, and the manifest says ")?;
    lines.number(said as u64)?;
    lines.end()
}

// Checks the live logs.
fn check_logs<E: Env, O: Sink>(
    alloc: Global,
    env: &mut E,
    lines: &mut Lines<O>,
    store: &str,
    logs: &BTreeSet<FileNum>,
) -> Result<()>
    ensures keeps { KeepsDisk E.Env env.old env.new }
    ensures cause { IfErr result (IsOutputError O.Sink) }
{
    for number in logs {
        check_log(alloc, env, lines, store, *number)?;
    }
    Ok(())
}

// Checks each record of a log.
fn check_log<E: Env, O: Sink>(
    alloc: Global,
    env: &mut E,
    lines: &mut Lines<O>,
    store: &str,
    number: FileNum,
) -> Result<()>
    ensures keeps { KeepsDisk E.Env env.old env.new }
    ensures cause { IfErr result (IsOutputError O.Sink) }
{
    let path = log_file_name(alloc, store, number)?;
    let report = Report::new(lines, &path, Purpose::Check);
    read_log(alloc, env, &path, &mut Batches { report })
}
