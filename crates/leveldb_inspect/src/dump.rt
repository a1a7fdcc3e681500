//! Dumps of files, whose names say what they hold.
// LevelDB: db/dumpfile.cc
ghost use Rattle.std.specs.Prelude.{◌⊎◌, IfErr};
ghost use Rattle.leveldb_base.specs.Error.{IsOutOfMemory};
ghost use Rattle.leveldb_table.specs.TableBlock.{KeepsDisk};
ghost use Rattle.leveldb_inspect.specs.Inspect.{IsOutputError};

use crate::batches::Batches;
use crate::edits::Edits;
use crate::lines::Lines;
use crate::records::{Records, read_full, read_records};
use crate::reports::{Purpose, Report};
use crate::tables::{Shown, print_table};
use leveldb_base::error::Result;
use leveldb_base::names::file_name_parts;
use leveldb_base::types::FileType;
use leveldb_env::compressor::CompressorList;
use leveldb_env::env::{Env, Sink};
use leveldb_version_set::version_set::parse_current_text;
use std::alloc::Global;

// More bytes of `CURRENT` aren't read: a name of a manifest has at most 29.
const CURRENT_SIZE: usize = 256;

/// Prints what a file of a store holds: a log, a manifest, a table or `CURRENT`, as its name says.
/// Where it is damaged, that is a line, and what can be read after it is printed, too. So is a
/// block of a table that none of the compressors decodes. With `shows_blocks` the parts of a table
/// are lines of their own.
pub fn dump_file<E: Env, O: Sink>(
    alloc: Global,
    env: &mut E,
    compressors: &CompressorList,
    lines: &mut Lines<O>,
    name: &str,
    shows_blocks: bool,
) -> Result<()>
    ensures keeps { KeepsDisk E.Env env.old env.new }
    ensures cause { IfErr result (IsOutputError O.Sink) }
{
    match kind_of(name) {
        Some(FileType::Log) => {
            let report = Report::new(lines, name, Purpose::Dump);
            read_log(alloc, env, name, &mut Batches { report })
        }
        Some(FileType::Descriptor) => {
            let report = Report::new(lines, name, Purpose::Dump);
            read_log(alloc, env, name, &mut Edits { alloc, report })
        }
        Some(FileType::Table) if shows_blocks => {
            print_table(alloc, env, compressors, lines, name, Shown::Blocks)
        }
        Some(FileType::Table) => { print_table(alloc, env, compressors, lines, name, Shown::Pairs) }
        Some(FileType::Current) => print_current(alloc, env, lines, name),
        _ => lines.fault(
            name,
            "not the name of a log, a manifest, a table or CURRENT",
        ),
    }
}

// What a path says that its file holds.
fn kind_of(path: &str) -> Option<FileType> {
    let name = match path.rsplit_once('/') {
        Some((_, name)) => name,
        None => path,
    };
    let (_, kind) = file_name_parts(name)?;
    Some(kind)
}

/// Reads the records of the log in a file.
pub(crate) fn read_log<E: Env, V: Records>(
    alloc: Global,
    env: &mut E,
    name: &str,
    records: &mut V,
) -> Result<()>
    ensures keeps { KeepsDisk E.Env env.old env.new }
    ensures cause { IfErr result (λ status. IsOutOfMemory status ⊎ V.fails status) }
{
    match env.open_random_access_file(name) {
        Ok(file) => read_records(alloc, env, &file, records),
        Err(status) => records.failure(0, &status),
    }
}

// Prints what `CURRENT` holds.
fn print_current<E: Env, O: Sink>(
    alloc: Global,
    env: &mut E,
    lines: &mut Lines<O>,
    name: &str,
) -> Result<()>
    ensures keeps { KeepsDisk E.Env env.old env.new }
    ensures cause { IfErr result (IsOutputError O.Sink) }
{
    let mut buffer = [0; CURRENT_SIZE];
    let count = match read_front(env, name, &mut buffer) {
        Ok(count) => count,
        Err(status) => return lines.failure(name, &status),
    };
    let text = buffer.get(..count).unwrap_or_default();
    match parse_current_text(alloc, text) {
        Ok((manifest, _)) => lines.text(manifest)?,
        Err(status) => {
            lines.quoted(text)?;
            lines.end()?;
            return lines.failure(name, &status);
        }
    }
    lines.end()
}

// Reads the first bytes of a file, and returns how many came.
fn read_front<E: Env>(env: &mut E, name: &str, target: &mut [u8]) -> Result<usize>
    ensures keeps { KeepsDisk E.Env env.old env.new }
{
    let file = env.open_random_access_file(name)?;
    read_full(env, &file, 0, target)
}
