//! The program: words in, lines out.
// LevelDB: db/leveldbutil.cc
ghost use Rattle.std.specs.Prelude.{◌≡◌, ◌≤◌, IfErr};
ghost use Rattle.leveldb_table.specs.TableBlock.{KeepsDisk};
ghost use Rattle.leveldb_inspect.specs.Inspect.{IsOutputError};

use crate::check::check_store;
use crate::dump::dump_file;
use crate::lines::{Lines, Style};
use crate::stat::print_store;
use leveldb_base::error::{Result, Status};
use leveldb_env::compressor::CompressorList;
use leveldb_env::env::{Env, Sink};
use std::alloc::Global;
use std::io::Write;

// What the words ask for.
#[derive(Drop)]
struct Task<'a> {
    call: Call,
    style: Style,
    shows_blocks: bool,
    names: &'a [String],
}

#[derive(Clone, Copy)]
enum Call {
    Dump,
    Stat,
    Check,
}

/// Does what the words ask for: `dump` with files, `stat` or `check` with one folder, and flags
/// after that word. Blocks of tables are decoded by these compressors. What is found is lines for
/// `out`; a fault of the program is a line of `err`. The status is 0 if nothing was wrong with the
/// files, 1 if something was or the call failed, and 2 if the words ask for nothing.
pub fn util_main<E: Env, O: Sink, F: Write>(
    alloc: Global,
    env: &mut E,
    compressors: &CompressorList,
    words: &[String],
    out: &mut O,
    err: &mut F,
) -> u8
    ensures keeps { KeepsDisk E.Env env.old env.new }
    ensures untouched { result ≡ 2 → out.new ≡ out.old }
    ensures statuses { result ≤ 2 }
{
    let Some(task) = task_of(words) else {
        let _ = writeln!(
            err,
            "usage: leveldbutil dump|stat|check [--hex] [--blocks] NAME.."
        );
        let _ = err.flush();
        return 2;
    };
    let mut lines = Lines::new(alloc, out, task.style);
    let done = run(alloc, env, compressors, &mut lines, &task);
    let has_faults = lines.has_faults();
    match done.and(lines.flush()) {
        Ok(()) => u8::from(has_faults),
        Err(status) => tell_failure(err, &status),
    }
}

// Writes why the program failed, as far as it can be written.
fn tell_failure<F: Write>(err: &mut F, status: &Status) -> u8
    ensures { result ≡ 1 }
{
    let _ = match &status.err {
        None => writeln!(err, "leveldbutil: {}", status.code),
        Some(text) => writeln!(err, "leveldbutil: {text}"),
    };
    let _ = err.flush();
    1
}

// What the words ask for; none where that is nothing.
fn task_of(words: &[String]) -> Option<Task<'_>> {
    let [name, others @ ..] = words else {
        return None;
    };
    let call = call_of(name)?;
    let mut task = Task {
        call,
        style: Style::Escaped,
        shows_blocks: false,
        names: others,
    };
    for flag in others {
        match flag.as_str() {
            "--hex" => task.style = Style::Hex,
            "--blocks" => task.shows_blocks = true,
            word if word.starts_with("--") => return None,
            _ => break,
        }
        task.names = task.names.get(1..).unwrap_or_default();
    }
    if !is_count_of(call, task.names.len()) {
        return None;
    }
    Some(task)
}

fn call_of(name: &str) -> Option<Call> {
    match name {
        "dump" => Some(Call::Dump),
        "stat" => Some(Call::Stat),
        "check" => Some(Call::Check),
        _ => None,
    }
}

// Whether a call takes `count` names.
fn is_count_of(call: Call, count: usize) -> bool {
    match call {
        Call::Dump => count > 0,
        Call::Stat | Call::Check => count == 1,
    }
}

// Does a task, for each of its names.
fn run<E: Env, O: Sink>(
    alloc: Global,
    env: &mut E,
    compressors: &CompressorList,
    lines: &mut Lines<O>,
    task: &Task<'_>,
) -> Result<()>
    ensures keeps { KeepsDisk E.Env env.old env.new }
    ensures cause { IfErr result (IsOutputError O.Sink) }
{
    for name in task.names {
        match task.call {
            Call::Dump => dump_file(alloc, env, compressors, lines, name, task.shows_blocks)?,
            Call::Stat => print_store(alloc, env, lines, name)?,
            Call::Check => check_store(alloc, env, compressors, lines, name)?,
        }
    }
    Ok(())
}
