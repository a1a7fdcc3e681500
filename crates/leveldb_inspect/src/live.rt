//! A store's files, as the edits of its manifest leave them.
ghost use Rattle.std.specs.Prelude.{◌⊎◌, IfErr};
ghost use Rattle.leveldb_base.specs.Error.{IsOutOfMemory};
ghost use Rattle.leveldb_table.specs.TableBlock.{KeepsDisk};
ghost use Rattle.leveldb_inspect.specs.Inspect.{IsOutputError};

use crate::dump::read_log;
use crate::lines::Lines;
use crate::records::Records;
use crate::reports::{Purpose, Report};
use leveldb_base::error::{Result, Status};
use leveldb_base::names::file_name_parts;
use leveldb_base::types::{FileMetaData, FileNum, FileType};
use leveldb_env::env::{Env, Sink};
use leveldb_version::version_edit::VersionEdit;
use leveldb_version_set::version_set::read_current_file;
use std::alloc::Global;
use std::collections::{BTreeMap, BTreeSet};

/// What the edits of a manifest leave.
#[derive(Drop)]
pub(crate) struct Live {
    pub(crate) manifest: FileNum,
    pub(crate) comparator: Option<String>,
    pub(crate) log_number: Option<FileNum>,
    pub(crate) previous_log: Option<FileNum>,
    pub(crate) next_file: Option<FileNum>,
    pub(crate) last_sequence: Option<u64>,
    /// The live tables, by level and number.
    pub(crate) tables: BTreeMap<(usize, FileNum), FileMetaData>,
}

impl Live {
    // What no edit leaves.
    fn new(alloc: Global, manifest: FileNum) -> Live {
        Live {
            manifest,
            comparator: None,
            log_number: None,
            previous_log: None,
            next_file: None,
            last_sequence: None,
            tables: BTreeMap::new(alloc),
        }
    }

    // Applies an edit after those before it.
    fn apply(&mut self, edit: VersionEdit) -> Result<()>
        ensures cause { IfErr result IsOutOfMemory }
    {
        self.comparator = edit.comparator.or(self.comparator.take());
        self.log_number = edit.log_number.or(self.log_number);
        self.previous_log = edit.prev_log_number.or(self.previous_log);
        self.next_file = edit.next_file_number.or(self.next_file);
        self.last_sequence = edit.last_seq.or(self.last_sequence);
        for place in &edit.deleted {
            self.tables.remove(place);
        }
        for (level, file) in edit.new_files {
            self.tables.insert((level, file.num), file)?;
        }
        Ok(())
    }

    // Whether an opening reads the log of this number.
    fn has_log(&self, number: FileNum) -> bool {
        number >= self.log_number.unwrap_or(0) || Some(number) == self.previous_log
    }
}

// What is done with the records of a manifest: each is applied, up to where an opening reads.
#[derive(Drop)]
struct Edits<'a, O: Sink> {
    alloc: Global,
    report: Report<'a, O>,
    live: Live,
}

impl<O: Sink> Records for Edits<'_, O> {
    ghost fails = { IsOutputError O.Sink };

    fn record(&mut self, offset: usize, bytes: &[u8]) -> Result<()> {
        self.report.left_out(offset)?;
        if self.report.is_ended() {
            return Ok(());
        }
        match VersionEdit::decode_from(self.alloc, bytes) {
            Ok(edit) => self.live.apply(edit),
            Err(status) => self.report.failure(offset, &status),
        }
    }

    fn damage(&mut self, offset: usize, reason: &str, is_torn: bool) -> Result<()> {
        self.report.damage(offset, reason, is_torn)
    }

    fn failure(&mut self, offset: usize, status: &Status) -> Result<()> {
        self.report.failure(offset, status)
    }
}

/// What the manifest leaves that `CURRENT` names, up to its first bad end; none where there is
/// none. What is wrong with either is a line.
pub(crate) fn read_live<E: Env, O: Sink>(
    alloc: Global,
    env: &mut E,
    lines: &mut Lines<O>,
    store: &str,
) -> Result<Option<Live>>
    ensures keeps { KeepsDisk E.Env env.old env.new }
    ensures cause { IfErr result (IsOutputError O.Sink) }
{
    let (name, number) = match read_current_file(alloc, env, store) {
        Ok(found) => found,
        Err(status) => {
            lines.failure(store, &status)?;
            return Ok(None);
        }
    };
    let path = format!(in alloc; "{store}/{name}")?;
    let mut edits = Edits {
        alloc,
        report: Report::new(lines, &path, Purpose::Check),
        live: Live::new(alloc, number),
    };
    read_log(alloc, env, &path, &mut edits)?;
    Ok(Some(edits.live))
}

/// The numbers of the logs that an opening of the store reads.
pub(crate) fn live_logs<E: Env>(
    alloc: Global,
    env: &mut E,
    store: &str,
    live: &Live,
) -> Result<BTreeSet<FileNum>>
    ensures keeps { KeepsDisk E.Env env.old env.new }
{
    let names = env.children(alloc, store)?;
    let mut logs = BTreeSet::new(alloc);
    for name in &names {
        if let Some((number, FileType::Log)) = file_name_parts(name) {
            if live.has_log(number) {
                logs.insert(number)?;
            }
        }
    }
    Ok(logs)
}
