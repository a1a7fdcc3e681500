//! A store's state: its numbers, and its files by levels.
ghost use Rattle.std.specs.Prelude.{IfErr};
ghost use Rattle.leveldb_table.specs.TableBlock.{KeepsDisk};
ghost use Rattle.leveldb_inspect.specs.Inspect.{IsOutputError};

use crate::edits::print_file;
use crate::lines::Lines;
use crate::live::{Live, live_logs, read_live};
use leveldb_base::error::Result;
use leveldb_base::names::log_file_name;
use leveldb_base::types::{FileNum, NUM_LEVELS};
use leveldb_env::env::{Env, Sink};
use std::alloc::Global;
use std::collections::BTreeSet;

/// Prints the state of the store in a folder, as an opening would find it: the numbers of its
/// manifest, its tables by levels with sizes and ranges of keys, and its logs. What is wrong with
/// the manifest is a line.
pub fn print_store<E: Env, O: Sink>(
    alloc: Global,
    env: &mut E,
    lines: &mut Lines<O>,
    store: &str,
) -> Result<()>
    ensures keeps { KeepsDisk E.Env env.old env.new }
    ensures cause { IfErr result (IsOutputError O.Sink) }
{
    let Some(live) = read_live(alloc, env, lines, store)? else {
        return Ok(());
    };
    print_numbers(lines, &live)?;
    print_levels(lines, &live)?;
    match live_logs(alloc, env, store, &live) {
        Ok(logs) => print_logs(alloc, env, lines, store, &logs),
        Err(status) => lines.failure(store, &status),
    }
}

// Prints the comparator's name and the numbers.
fn print_numbers<O: Sink>(lines: &mut Lines<O>, live: &Live) -> Result<()>
    ensures cause { IfErr result (IsOutputError O.Sink) }
{
    if let Some(name) = &live.comparator {
        lines.text("comparator ")?;
        lines.text(name)?;
        lines.end()?;
    }
    print_number(lines, "manifest ", Some(live.manifest))?;
    print_number(lines, "log ", live.log_number)?;
    print_number(lines, "previous log ", live.previous_log)?;
    print_number(lines, "next file ", live.next_file)?;
    print_number(lines, "last sequence ", live.last_sequence)
}

fn print_number<O: Sink>(lines: &mut Lines<O>, name: &str, number: Option<u64>) -> Result<()>
    ensures cause { IfErr result (IsOutputError O.Sink) }
{
    let Some(number) = number else {
        return Ok(());
    };
    lines.text(name)?;
    lines.number(number)?;
    lines.end()
}

// Prints each level that has tables.
fn print_levels<O: Sink>(lines: &mut Lines<O>, live: &Live) -> Result<()>
    ensures cause { IfErr result (IsOutputError O.Sink) }
{
    for level in 0..NUM_LEVELS {
        print_level(lines, live, level)?;
    }
    Ok(())
}

// Prints how many tables a level has, and their bytes; and then each of them.
fn print_level<O: Sink>(lines: &mut Lines<O>, live: &Live, level: usize) -> Result<()>
    ensures cause { IfErr result (IsOutputError O.Sink) }
{
    let (count, bytes) = level_size(live, level);
    if count == 0 {
        return Ok(());
    }
    lines.text("level ")?;
    lines.number(level as u64)?;
    lines.text(": ")?;
    lines.number(count)?;
    lines.text(" tables, ")?;
    lines.number(bytes)?;
    lines.text(" bytes")?;
    lines.end()?;
    print_tables(lines, live, level)
}

// How many tables a level has, and their bytes.
fn level_size(live: &Live, level: usize) -> (u64, u64) {
    let mut count = 0u64;
    let mut bytes = 0u64;
    for ((at, _), file) in &live.tables {
        if *at == level {
            count = count.saturating_add(1);
            bytes = bytes.saturating_add(file.size as u64);
        }
    }
    (count, bytes)
}

// Prints each table of a level.
fn print_tables<O: Sink>(lines: &mut Lines<O>, live: &Live, level: usize) -> Result<()>
    ensures cause { IfErr result (IsOutputError O.Sink) }
{
    for ((at, _), file) in &live.tables {
        if *at == level {
            lines.text("  ")?;
            print_file(lines, file)?;
            lines.end()?;
        }
    }
    Ok(())
}

// Prints each log's number and size.
fn print_logs<E: Env, O: Sink>(
    alloc: Global,
    env: &mut E,
    lines: &mut Lines<O>,
    store: &str,
    logs: &BTreeSet<FileNum>,
) -> Result<()>
    ensures keeps { KeepsDisk E.Env env.old env.new }
    ensures cause { IfErr result (IsOutputError O.Sink) }
{
    for number in logs {
        print_log(alloc, env, lines, store, *number)?;
    }
    Ok(())
}

// Prints a log's number and size.
fn print_log<E: Env, O: Sink>(
    alloc: Global,
    env: &mut E,
    lines: &mut Lines<O>,
    store: &str,
    number: FileNum,
) -> Result<()>
    ensures keeps { KeepsDisk E.Env env.old env.new }
    ensures cause { IfErr result (IsOutputError O.Sink) }
{
    let path = log_file_name(alloc, store, number)?;
    match env.size_of(&path) {
        Ok(size) => {
            lines.text("log file ")?;
            lines.number(number)?;
            lines.text(": ")?;
            lines.number(size as u64)?;
            lines.text(" bytes")?;
            lines.end()
        }
        Err(status) => lines.failure(&path, &status),
    }
}
