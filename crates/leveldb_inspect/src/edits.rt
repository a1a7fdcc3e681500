//! The edits of a manifest as text.
// LevelDB: db/dumpfile.cc, DumpDescriptor
ghost use Rattle.std.specs.Prelude.{IfErr};
ghost use Rattle.leveldb_inspect.specs.Inspect.{IsOutputError};

use crate::keys::print_key;
use crate::lines::Lines;
use crate::records::Records;
use crate::reports::Report;
use leveldb_base::error::{Result, Status};
use leveldb_base::types::FileMetaData;
use leveldb_env::env::Sink;
use leveldb_version::version_edit::VersionEdit;
use std::alloc::Global;

/// What is done with the records of a manifest: each edit is printed, field by field.
#[derive(Drop)]
pub(crate) struct Edits<'a, O: Sink> {
    pub(crate) alloc: Global,
    pub(crate) report: Report<'a, O>,
}

impl<O: Sink> Records for Edits<'_, O> {
    ghost fails = { IsOutputError O.Sink };

    fn record(&mut self, offset: usize, bytes: &[u8]) -> Result<()> {
        let lines = &mut *self.report.lines;
        lines.text("--- offset ")?;
        lines.number(offset as u64)?;
        lines.text("; ")?;
        match VersionEdit::decode_from(self.alloc, bytes) {
            Ok(edit) => print_edit(lines, &edit),
            Err(status) => {
                lines.set_faulty();
                lines.status(&status)?;
                lines.end()
            }
        }
    }

    fn damage(&mut self, offset: usize, reason: &str, is_torn: bool) -> Result<()> {
        self.report.damage(offset, reason, is_torn)
    }

    fn failure(&mut self, offset: usize, status: &Status) -> Result<()> {
        self.report.failure(offset, status)
    }
}

// Prints an edit.
fn print_edit<O: Sink>(lines: &mut Lines<O>, edit: &VersionEdit) -> Result<()>
    ensures cause { IfErr result (IsOutputError O.Sink) }
{
    lines.text("VersionEdit {")?;
    print_numbers(lines, edit)?;
    print_pointers(lines, edit)?;
    print_deleted(lines, edit)?;
    print_added(lines, edit)?;
    lines.end()?;
    lines.text("}")?;
    lines.end()
}

// Prints the single values that an edit sets.
fn print_numbers<O: Sink>(lines: &mut Lines<O>, edit: &VersionEdit) -> Result<()>
    ensures cause { IfErr result (IsOutputError O.Sink) }
{
    if let Some(name) = &edit.comparator {
        begin_field(lines, "Comparator")?;
        lines.text(name)?;
    }
    print_number(lines, "LogNumber", edit.log_number)?;
    print_number(lines, "PrevLogNumber", edit.prev_log_number)?;
    print_number(lines, "NextFile", edit.next_file_number)?;
    print_number(lines, "LastSeq", edit.last_seq)
}

fn print_number<O: Sink>(lines: &mut Lines<O>, field: &str, number: Option<u64>) -> Result<()>
    ensures cause { IfErr result (IsOutputError O.Sink) }
{
    if let Some(number) = number {
        begin_field(lines, field)?;
        lines.number(number)?;
    }
    Ok(())
}

// Begins the line of a field.
fn begin_field<O: Sink>(lines: &mut Lines<O>, field: &str) -> Result<()>
    ensures cause { IfErr result (IsOutputError O.Sink) }
{
    lines.end()?;
    lines.text("  ")?;
    lines.text(field)?;
    lines.text(": ")
}

fn print_pointers<O: Sink>(lines: &mut Lines<O>, edit: &VersionEdit) -> Result<()>
    ensures cause { IfErr result (IsOutputError O.Sink) }
{
    for pointer in &edit.compaction_ptrs {
        begin_field(lines, "CompactPointer")?;
        lines.number(pointer.level as u64)?;
        lines.text(" ")?;
        print_key(lines, &pointer.key)?;
    }
    Ok(())
}

fn print_deleted<O: Sink>(lines: &mut Lines<O>, edit: &VersionEdit) -> Result<()>
    ensures cause { IfErr result (IsOutputError O.Sink) }
{
    for (level, number) in &edit.deleted {
        begin_field(lines, "RemoveFile")?;
        lines.number(*level as u64)?;
        lines.text(" ")?;
        lines.number(*number)?;
    }
    Ok(())
}

fn print_added<O: Sink>(lines: &mut Lines<O>, edit: &VersionEdit) -> Result<()>
    ensures cause { IfErr result (IsOutputError O.Sink) }
{
    for (level, file) in &edit.new_files {
        begin_field(lines, "AddFile")?;
        lines.number(*level as u64)?;
        lines.text(" ")?;
        print_file(lines, file)?;
    }
    Ok(())
}

/// Prints a table's number, its size and its range of keys, as `7 231 'a' @ 1 : 1 .. 'b' @ 2 : 1`.
pub(crate) fn print_file<O: Sink>(lines: &mut Lines<O>, file: &FileMetaData) -> Result<()>
    ensures cause { IfErr result (IsOutputError O.Sink) }
{
    lines.number(file.num)?;
    lines.text(" ")?;
    lines.number(file.size as u64)?;
    lines.text(" ")?;
    print_key(lines, &file.smallest)?;
    lines.text(" .. ")?;
    print_key(lines, &file.largest)
}
