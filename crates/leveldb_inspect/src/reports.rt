//! What is said of the damage in a log's file.
// LevelDB: db/dumpfile.cc, CorruptionReporter
ghost use Rattle.std.specs.Prelude.{IfErr};
ghost use Rattle.leveldb_inspect.specs.Inspect.{IsOutputError};

use crate::lines::Lines;
use leveldb_base::error::{Result, Status};
use leveldb_env::env::Sink;

/// What the records of a log are read for.
#[derive(Clone, Copy, Debug, PartialEq, Eq)]
pub(crate) enum Purpose {
    /// To print each.
    Dump,
    /// To find what is wrong. An end that a crash may leave isn't.
    Check,
}

/// What is said of the log of a name, which an opening reads up to its first bad end.
#[derive(Drop)]
pub(crate) struct Report<'a, O: Sink> {
    pub(crate) lines: &'a mut Lines<O>,
    name: &'a str,
    purpose: Purpose,
    // whether an opening doesn't read on
    is_ended: bool,
    // whether a line has said that records are left out
    is_told: bool,
}

impl<'a, O: Sink> Report<'a, O> {
    /// Nothing yet.
    pub(crate) fn new(lines: &'a mut Lines<O>, name: &'a str, purpose: Purpose) -> Report<'a, O> {
        Report {
            lines,
            name,
            purpose,
            is_ended: false,
            is_told: false,
        }
    }

    /// Whether records are printed.
    pub(crate) fn is_dump(&self) -> bool {
        self.purpose == Purpose::Dump
    }

    /// Whether an opening reads no record that comes now.
    pub(crate) fn is_ended(&self) -> bool {
        self.is_ended
    }

    /// Tells of damage at an offset.
    pub(crate) fn damage(&mut self, offset: usize, reason: &str, is_torn: bool) -> Result<()>
        ensures cause { IfErr result (IsOutputError O.Sink) }
    {
        self.is_ended = true;
        if is_torn && !self.is_dump() {
            self.lines.begin_note(self.name, offset)?;
            self.lines.text(reason)?;
            self.lines.text(", as a crash may leave an end")?;
            return self.lines.end();
        }
        self.wrong(offset, reason)
    }

    /// Tells that something is wrong at an offset.
    pub(crate) fn wrong(&mut self, offset: usize, reason: &str) -> Result<()>
        ensures cause { IfErr result (IsOutputError O.Sink) }
    {
        self.lines.begin_fault_at(self.name, offset)?;
        self.lines.text(reason)?;
        self.lines.end()
    }

    /// Tells for which cause nothing is read from an offset on.
    pub(crate) fn failure(&mut self, offset: usize, status: &Status) -> Result<()>
        ensures cause { IfErr result (IsOutputError O.Sink) }
    {
        self.is_ended = true;
        self.lines.begin_fault_at(self.name, offset)?;
        self.lines.status(status)?;
        self.lines.end()
    }

    /// Tells once, in a check, that an opening leaves out the record at this offset and those after
    /// it, if it does.
    pub(crate) fn left_out(&mut self, offset: usize) -> Result<()>
        ensures cause { IfErr result (IsOutputError O.Sink) }
    {
        if !self.is_ended || self.is_told || self.is_dump() {
            return Ok(());
        }
        self.is_told = true;
        self.wrong(
            offset,
            "whole records come after that, which an opening leaves out",
        )
    }
}
