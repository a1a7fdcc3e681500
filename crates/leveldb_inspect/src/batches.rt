//! The batches of a log as text.
// LevelDB: db/dumpfile.cc, WriteBatchPrinter
ghost use Rattle.std.specs.Prelude.{IfErr};
ghost use Rattle.leveldb_inspect.specs.Inspect.{IsOutputError};

use crate::records::Records;
use crate::reports::Report;
use byteorder::{ByteOrder, LittleEndian};
use leveldb_base::error::{Result, Status};
use leveldb_base::varint::get_length_prefixed_slice;
use leveldb_env::env::Sink;

const HEADER_SIZE: usize = 12;

const COUNT_OFFSET: usize = 8;

/// What is done with the records of a log: each batch is printed, or each is only checked.
#[derive(Drop)]
pub(crate) struct Batches<'a, O: Sink> {
    pub(crate) report: Report<'a, O>,
}

/// A change of a batch: its key, and its value where it has one.
type Change<'a> = (&'a [u8], Option<&'a [u8]>);

impl<O: Sink> Records for Batches<'_, O> {
    ghost fails = { IsOutputError O.Sink };

    fn record(&mut self, offset: usize, bytes: &[u8]) -> Result<()> {
        self.report.left_out(offset)?;
        let Some((header, changes)) = bytes.split_at_checked(HEADER_SIZE) else {
            return self.too_small(offset, bytes.len());
        };
        self.begin(offset, LittleEndian::read_u64(header))?;
        let count = LittleEndian::read_u32(&header[COUNT_OFFSET..]);
        match self.changes(changes, count as usize)? {
            None => Ok(()),
            Some(reason) => self.malformed(offset, reason),
        }
    }

    fn damage(&mut self, offset: usize, reason: &str, is_torn: bool) -> Result<()> {
        self.report.damage(offset, reason, is_torn)
    }

    fn failure(&mut self, offset: usize, status: &Status) -> Result<()> {
        self.report.failure(offset, status)
    }
}

impl<O: Sink> Batches<'_, O> {
    // Prints where a batch is, and its number.
    fn begin(&mut self, offset: usize, sequence: u64) -> Result<()>
        ensures cause { IfErr result (IsOutputError O.Sink) }
    {
        if !self.report.is_dump() {
            return Ok(());
        }
        let lines = &mut *self.report.lines;
        lines.text("--- offset ")?;
        lines.number(offset as u64)?;
        lines.text("; sequence ")?;
        lines.number(sequence)?;
        lines.end()
    }

    // Tells of a record that has no header of a batch.
    fn too_small(&mut self, offset: usize, size: usize) -> Result<()>
        ensures cause { IfErr result (IsOutputError O.Sink) }
    {
        if !self.report.is_dump() {
            return self.report.wrong(offset, "a record too small for a batch");
        }
        let lines = &mut *self.report.lines;
        lines.set_faulty();
        lines.text("--- offset ")?;
        lines.number(offset as u64)?;
        lines.text("; log record length ")?;
        lines.number(size as u64)?;
        lines.text(" is too small")?;
        lines.end()
    }

    // Tells why a batch isn't one.
    fn malformed(&mut self, offset: usize, reason: &str) -> Result<()>
        ensures cause { IfErr result (IsOutputError O.Sink) }
    {
        if !self.report.is_dump() {
            return self.report.wrong(offset, reason);
        }
        let lines = &mut *self.report.lines;
        lines.set_faulty();
        lines.text("  error: Corruption: ")?;
        lines.text(reason)?;
        lines.end()
    }

    // Prints changes, as far as the bytes encode them. Returns what is wrong with them, if they
    // aren't `count` changes.
    fn changes(&mut self, bytes: &[u8], count: usize) -> Result<Option<&'static str>>
        ensures cause { IfErr result (IsOutputError O.Sink) }
    {
        let mut rest = bytes;
        // A change has a byte at least.
        for found in 0..=bytes.len() {
            if rest.is_empty() {
                return Ok(wrong_count(found, count));
            }
            let (change, others) = match take_change(rest) {
                Ok(taken) => taken,
                Err(reason) => return Ok(Some(reason)),
            };
            self.change(change)?;
            rest = others;
        }
        Ok(wrong_count(bytes.len(), count))
    }

    // Prints a change.
    fn change(&mut self, change: Change<'_>) -> Result<()>
        ensures cause { IfErr result (IsOutputError O.Sink) }
    {
        if !self.report.is_dump() {
            return Ok(());
        }
        let lines = &mut *self.report.lines;
        let (key, value) = change;
        lines.text(if value.is_some() { "  put " } else { "  del " })?;
        lines.quoted(key)?;
        if let Some(value) = value {
            lines.text(" ")?;
            lines.quoted(value)?;
        }
        lines.end()
    }
}

// What is wrong with a batch that says that it has `count` changes and has these, if something is.
fn wrong_count(found: usize, count: usize) -> Option<&'static str> {
    if found == count {
        None
    } else {
        Some("WriteBatch has wrong count")
    }
}

// The change at the front of these bytes and what follows it, or why there is none.
fn take_change(bytes: &[u8]) -> std::result::Result<(Change<'_>, &[u8]), &'static str> {
    let Some((kind, rest)) = bytes.split_first() else {
        return Err("malformed WriteBatch (too small)");
    };
    match kind {
        0 => take_deletion(rest),
        1 => take_put(rest),
        _ => Err("unknown WriteBatch tag"),
    }
}

// The key of a deletion.
fn take_deletion(bytes: &[u8]) -> std::result::Result<(Change<'_>, &[u8]), &'static str> {
    match get_length_prefixed_slice(bytes) {
        Some((key, rest)) => Ok(((key, None), rest)),
        None => Err("bad WriteBatch Delete"),
    }
}

// The key and the value of a put.
fn take_put(bytes: &[u8]) -> std::result::Result<(Change<'_>, &[u8]), &'static str> {
    let Some((key, rest)) = get_length_prefixed_slice(bytes) else {
        return Err("bad WriteBatch Put");
    };
    match get_length_prefixed_slice(rest) {
        Some((value, rest)) => Ok(((key, Some(value)), rest)),
        None => Err("bad WriteBatch Put"),
    }
}
