//! A log of a store, read batch by batch: one record and one batch of it are in memory at a time,
//! and its file is borrowed for one call.
// LevelDB: db/db_impl.cc, DBImpl::RecoverLogFile
ghost use Rattle.std.specs.Prelude.{◌≡◌, ◌<◌, ◌+◌, ◌⊎◌, false, true, IfErr, IfOk, IsErrAnd, IsTrue, OnOk, string_bytes};
ghost use Rattle.leveldb_base.specs.Error.{IsOutOfMemory};
ghost use Rattle.leveldb_base.specs.declared.error.StatusCode.TheVariants.{Corruption};
ghost use Rattle.leveldb_env.specs.Env.{FilesUnchanged, HasCause, Run, SameLocks};
ghost use Rattle.leveldb_env.specs.EnvFile.{Reads, opened};
ghost use Rattle.leveldb_env.specs.WholeFiles.{IsLost};
ghost use Rattle.leveldb_mem.specs.Log.Reader.{FindsNext, StopsReading};
ghost use Rattle.leveldb_mem.specs.WriteBatch.{IsBatch};
ghost use Rattle.leveldb_files.specs.Stores.Batches.{IsRecordOf};
ghost use Rattle.leveldb_files.specs.Stores.Paths.{log_path};
ghost use Rattle.leveldb_store.specs.Logs.LogReplay.{IsLogToRead, ReadsBatch};
ghost use Rattle.leveldb_store.specs.Logs.NextFound.{IsFileToRead};

use leveldb_base::error::{Result, StatusCode, err};
use leveldb_base::names::log_file_name;
use leveldb_base::types::FileNum;
use leveldb_env::env::whole_files::found;
use leveldb_env::env::{Env, EnvFile};
use leveldb_mem::log::{Found, ReaderCore};
use leveldb_mem::write_batch::WriteBatch;
use std::alloc::Global;
use std::marker::Model;

mod next_found;

pub use next_found::NextFound;

/// What comes next in a log.
#[derive(Clone, Copy, Debug, PartialEq, Eq)]
pub(crate) enum NextBatch {
    /// One more batch.
    More,
    /// The end of the log, between two records.
    CleanEnd,
    /// Bytes that are no whole record: the log ends before them.
    BadEnd,
}

/// A log that is read batch by batch. Each call is given the environment.
#[derive(Drop)]
pub struct LogReplay<E: Env> {
    alloc: Global,
    number: FileNum,
    // What an error of a call on the file names.
    path: String,
    file: E::File,
    core: ReaderCore,
    // The bytes of the record that was read last.
    text: Vec<u8>,
    size: usize,
    // How many records may follow: each has a byte at least. So the reading of a file that grows
    // meanwhile ends.
    left: usize,
}

impl<E: Env> Model for LogReplay<E> {
    ghost use Rattle.std.specs.Prelude.{◌≡◌, IsTrue, string_bytes};
    ghost use Rattle.leveldb_store.specs.Logs.LogReplay.{LogReplayState};

    ghost Value = { LogReplayState };

    ghost view = { λ log. record {
      number = log.number;
      path = string_bytes log.path;
      size = log.size;
      reader = log.core;
      offset = E.offset_of log.file;
      left = log.left;
    } };

    ghost invariant = { λ log. IsTrue E.models_disk → E.name_of log.file ≡ string_bytes log.path };
}

impl<E: Env> LogReplay<E> {
    /// The log of this number, to be read from its start on. `Corruption` where it is missing.
    pub(crate) fn open(
        alloc: Global,
        env: &mut E,
        store: &str,
        number: FileNum,
    ) -> Result<LogReplay<E>>
        ensures run { IsTrue E.models_disk
            → Run (FilesUnchanged (E.observed env.old).disk.files) (E.observed env.old)
            (E.observed env.new) }
        ensures locks { SameLocks E.models_disk (E.observed env.old) (E.observed env.new) }
        ensures opens { IfOk result
            (IsLogToRead E.models_disk store.now number (E.observed env.old).disk.files) }
        ensures cause { HasCause (IsLost E.models_disk (log_path store.now number)
            (E.observed env.old) (E.failures env.old) (E.failures env.new))
            (E.failures env.old) (E.failures env.new) result }
    {
        let path = log_file_name(alloc, store, number)?;
        LogReplay::open_path(alloc, env, path, number)
    }

    /// The log of this number in the file at this path, whatever its name is, to be read from its
    /// start on. `Corruption` where it is missing.
    pub fn open_path(
        alloc: Global,
        env: &mut E,
        path: String,
        number: FileNum,
    ) -> Result<LogReplay<E>>
        ensures run { IsTrue E.models_disk
            → Run (FilesUnchanged (E.observed env.old).disk.files) (E.observed env.old)
            (E.observed env.new) }
        ensures locks { SameLocks E.models_disk (E.observed env.old) (E.observed env.new) }
        ensures opens { IfOk result (IsFileToRead E.models_disk (string_bytes path) number
            (E.observed env.old).disk.files) }
        ensures cause { HasCause (IsLost E.models_disk (string_bytes path)
            (E.observed env.old) (E.failures env.old) (E.failures env.new))
            (E.failures env.old) (E.failures env.new) result }
    {
        let size = found(alloc, &path, env.size_of(&path))?;
        let file = found(alloc, &path, env.open_sequential_file(&path))?;
        Ok(LogReplay {
            alloc,
            number,
            path,
            file,
            core: ReaderCore::new(alloc, true),
            text: Vec::new(alloc),
            size,
            left: size,
        })
    }

    /// The path of its file.
    pub fn path(&self) -> &str
        ensures { result.now ≡ self.now.path }
    {
        &self.path
    }

    /// How many bytes the log has.
    pub(crate) fn size(&self) -> usize
        ensures { result ≡ self.now.size }
    {
        self.size
    }

    /// Reads the next batch into `batch`. At an end that holds any batch, and nothing is to be read
    /// then. `Corruption` where a record is no batch, or the file is missing.
    pub(crate) fn next_batch(&mut self, env: &mut E, batch: &mut WriteBatch) -> Result<NextBatch>
        ensures { ReadsBatch E.Env self.old env.old result batch.new self.new env.new }
    {
        let next = next_record(env, &mut self.file, &mut self.core, &mut self.text);
        match found(self.alloc, &self.path, next)? {
            Found::Record => {}
            Found::End => return Ok(NextBatch::CleanEnd),
            Found::WrongChecksum => return Ok(NextBatch::BadEnd),
            Found::Damage(_) => return Ok(NextBatch::BadEnd),
        }
        self.left = one_fewer(self.alloc, self.left)?;
        read_batch(self.alloc, batch, &self.text)?;
        Ok(NextBatch::More)
    }
}

// Reads the next record of a log's file.
fn next_record<E: Env>(
    env: &mut E,
    file: &mut E::File,
    core: &mut ReaderCore,
    text: &mut Vec<u8>,
) -> Result<Found>
    ensures found { IfOk result (λ found. FindsNext (Reads E.Env) found core.old
        (opened env.old file.old) text.new.items core.new (opened env.new file.new)) }
    ensures err { core.old.failed ≡ false → IfErr result (λ status.
        StopsReading (Reads E.Env) (opened env.old file.old) status (opened env.new file.new)) }
    ensures failed { core.old.failed ≡ true → IsErrAnd result (λ status. status.code ≡ Corruption)
        × (env.new ≡ env.old) × (file.new ≡ file.old) }
    ensures name { IsTrue E.models_disk → E.name_of file.new ≡ E.name_of file.old }
{
    core.next_record(&mut EnvFile { env, file }, text)
}

// How many records may follow after one of `left`.
fn one_fewer(alloc: Global, left: usize) -> Result<usize>
    ensures ok { IfOk result (λ fewer. fewer + 1 ≡ left) }
    ensures cause { IfErr result (λ status. (status.code ≡ Corruption) × (left ≡ 0)) }
{
    if left == 0 {
        return err(
            alloc,
            StatusCode::Corruption,
            "a log has more records than bytes",
        );
    }
    Ok(left - 1)
}

// The batch that a record is.
fn read_batch(alloc: Global, batch: &mut WriteBatch, text: &[u8]) -> Result<()>
    ensures ok { OnOk result (IsRecordOf text.now batch.new) }
    ensures cause { IfErr result (λ status. IsOutOfMemory status
        ⊎ ((status.code ≡ Corruption) × (IsBatch text.now → ⊥))) }
{
    match batch.set_contents(text) {
        Err(status) if status.code == StatusCode::InvalidArgument => err(
            alloc,
            StatusCode::Corruption,
            "a record of the log is no batch",
        ),
        other => other,
    }
}
