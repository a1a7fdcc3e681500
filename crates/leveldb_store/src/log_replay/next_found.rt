//! A log that is read as far as it is found: up to its first bad end, or its first record that is
//! no batch of a store.
ghost use Rattle.std.specs.Prelude.{◌↔◌, IfErr, IfOk, IsTrue};
ghost use Rattle.leveldb_base.specs.Error.{IsOutOfMemory};
ghost use Rattle.leveldb_store.specs.Logs.NextFound.{FindsNextBatch, HasEntryNumbers, TellsNumbered};

use super::{LogReplay, next_record, one_fewer};
use leveldb_base::error::{Result, StatusCode};
use leveldb_base::types::MAX_SEQUENCE_NUMBER;
use leveldb_env::env::Env;
use leveldb_env::env::whole_files::found;
use leveldb_mem::log::Found;
use leveldb_mem::write_batch::WriteBatch;

/// What comes next in a log, as far as it is found.
#[derive(Clone, Copy, Debug, PartialEq, Eq)]
pub enum NextFound {
    /// One more batch.
    More,
    /// The end of the log, between two records.
    CleanEnd,
    /// Bytes that are no whole record: the log ends before them.
    BadEnd,
    /// A record that is no batch of numbers that entries may have: the log is found up to it.
    NoBatch,
}

impl<E: Env> LogReplay<E> {
    /// Reads the next batch into `batch`, as far as the log is found: up to its first bad end, or
    /// its first record that is no batch with numbers from 1 to the greatest that entries have. At
    /// an end that holds any batch, and nothing is to be read then. `Corruption` where the file is
    /// missing.
    pub fn next_found(&mut self, env: &mut E, batch: &mut WriteBatch) -> Result<NextFound>
        ensures { FindsNextBatch E.Env self.old env.old result batch.new self.new env.new }
    {
        let next = next_record(env, &mut self.file, &mut self.core, &mut self.text);
        match found(self.alloc, &self.path, next)? {
            Found::Record => {}
            Found::End => return Ok(NextFound::CleanEnd),
            Found::WrongChecksum => return Ok(NextFound::BadEnd),
            Found::Damage(_) => return Ok(NextFound::BadEnd),
        }
        let fewer = one_fewer(self.alloc, self.left)?;
        if !read_numbered(batch, &self.text)? {
            return Ok(NextFound::NoBatch);
        }
        self.left = fewer;
        Ok(NextFound::More)
    }

    /// How many batches were read by `next_found`.
    pub fn found_count(&self) -> usize {
        self.size.saturating_sub(self.left)
    }
}

// Reads the batch that a record is. Returns whether it is one of numbers that entries may have.
fn read_numbered(batch: &mut WriteBatch, text: &[u8]) -> Result<bool>
    ensures ok { IfOk result (TellsNumbered text.now batch.new) }
    ensures memory { IfErr result IsOutOfMemory }
{
    match batch.set_contents(text) {
        Ok(()) => Ok(has_entry_numbers(batch)),
        Err(status) if status.code == StatusCode::InvalidArgument => Ok(false),
        Err(status) => Err(status),
    }
}

// Whether a batch's numbers are from 1 to the greatest that an entry may have.
fn has_entry_numbers(batch: &WriteBatch) -> bool
    ensures { IsTrue result ↔ HasEntryNumbers batch.now }
{
    let first = batch.sequence();
    if first == 0 {
        return false;
    }
    let count = u64::from(batch.count());
    first <= MAX_SEQUENCE_NUMBER && first + count <= MAX_SEQUENCE_NUMBER + 1
}
