//! A log that is open: its file beside the writer of its records.
// LevelDB: db/db_impl.h, logfile_ and log_ of DBImpl
ghost use Rattle.std.specs.Prelude.{◌≡◌, ◌≢◌, ◌%◌, ◌↔◌, [], true, false, IfErr, IfOk, IsErrAnd, IsTrue, string_bytes};
ghost use Rattle.leveldb_base.specs.Error.{IsOutOfMemory};
ghost use Rattle.leveldb_env.specs.Env.{BeforeOrAfter, ChangesFiles, HasCause, SameLocks, created, emptied};
ghost use Rattle.leveldb_env.specs.EnvFile.{Appends, Syncs, opened};
ghost use Rattle.leveldb_mem.specs.Log.{log_block_size};
ghost use Rattle.leveldb_mem.specs.Log.LogFile.{AppendsRecord, SyncsRecords};
ghost use Rattle.leveldb_mem.specs.Log.Writer.{AddsRecord, FailsToAdd, Flushes, IsWriterBroken, broken_writer, new_writer};

use super::WriterCore;
use super::writer::refuse_write;
use leveldb_base::error::Result;
use leveldb_env::env::whole_files::found;
use leveldb_env::env::{Env, EnvFile};
use std::alloc::Global;
use std::marker::Model;

/// A log's file, its path, and the writer of its records. Each call is given the environment.
#[derive(Drop)]
pub struct LogFile<E: Env> {
    alloc: Global,
    // What an error of a call on the file names.
    path: String,
    // None of a log that is never written: its writer is broken.
    file: Option<E::File>,
    writer: WriterCore,
}

impl<E: Env> Model for LogFile<E> {
    ghost use Rattle.std.specs.Prelude.{◌≡◌, true, IfNone, IfSome, IsTrue, string_bytes};
    ghost use Rattle.leveldb_mem.specs.Log.LogFile.{LogFileState};

    ghost Value = { LogFileState };

    ghost view = { λ it. record { path = string_bytes it.path; writer = it.writer } };

    ghost invariant = { λ it.
        IfSome it.file (λ file. IsTrue E.models_disk → E.name_of file ≡ string_bytes it.path)
        × IfNone it.file (it.writer.broken ≡ true) };
}

impl<E: Env> LogFile<E> {
    /// The log of a file that is open under this path, with the writer of what comes next.
    pub fn new(alloc: Global, path: String, file: E::File, writer: WriterCore) -> LogFile<E>
        requires { IsTrue E.models_disk → E.name_of file ≡ string_bytes path }
        ensures { result ≡ record { path = string_bytes path; writer = writer } }
    {
        LogFile {
            alloc,
            path,
            file: Some(file),
            writer,
        }
    }

    /// A log under this path that is broken from the start. Its file isn't opened, and may be
    /// missing.
    pub fn unopened(alloc: Global, path: String) -> LogFile<E>
        ensures { result ≡ record {
          path = string_bytes path;
          writer = broken_writer (new_writer log_block_size 0);
        } }
    {
        LogFile {
            alloc,
            path,
            file: None,
            writer: WriterCore::broken(alloc),
        }
    }

    /// Makes an empty log under this path, or empties the one that is there.
    pub fn make(alloc: Global, env: &mut E, path: String) -> Result<LogFile<E>>
        ensures does { ChangesFiles E.models_disk (emptied (string_bytes path))
            (BeforeOrAfter (emptied (string_bytes path)))
            (E.observed env.old) (E.observed env.new) result }
        ensures locks { SameLocks E.models_disk (E.observed env.old) (E.observed env.new) }
        ensures log { IfOk result (λ log. log ≡ record {
          path = string_bytes path;
          writer = new_writer log_block_size 0;
        }) }
        ensures cause { HasCause IsOutOfMemory (E.failures env.old) (E.failures env.new) result }
    {
        let file = env.open_writable_file(&path)?;
        Ok(LogFile::new(alloc, path, file, WriterCore::new(alloc)))
    }

    /// Opens the log under this path, which has `size` bytes; it is made where there is none.
    pub fn open(alloc: Global, env: &mut E, path: String, size: usize) -> Result<LogFile<E>>
        ensures does { ChangesFiles E.models_disk (created (string_bytes path))
            (BeforeOrAfter (created (string_bytes path)))
            (E.observed env.old) (E.observed env.new) result }
        ensures locks { SameLocks E.models_disk (E.observed env.old) (E.observed env.new) }
        ensures log { IfOk result (λ log. log ≡ record {
          path = string_bytes path;
          writer = new_writer log_block_size (size % log_block_size);
        }) }
        ensures cause { HasCause IsOutOfMemory (E.failures env.old) (E.failures env.new) result }
    {
        let file = env.open_appendable_file(&path)?;
        Ok(LogFile::new(alloc, path, file, WriterCore::new_with_off(alloc, size)))
    }

    /// Returns whether a call on the file has failed.
    pub fn is_broken(&self) -> bool
        ensures { result ≡ self.now.writer.broken }
    {
        self.writer.is_broken()
    }

    /// Appends a record, which is not empty. If that fails once it has begun, the log is broken:
    /// from then on every call is `IOError`. `Corruption` where the file is missing.
    pub fn append(&mut self, env: &mut E, text: &[u8]) -> Result<()>
        requires { text.now ≢ [] }
        ensures { AppendsRecord E.Env self.old env.old text.now result self.new env.new }
    {
        let Some(file) = &mut self.file else {
            return refuse_write(self.alloc);
        };
        let added = put_record(&mut self.writer, env, file, text);
        found(self.alloc, &self.path, added)?;
        Ok(())
    }

    /// Makes a crash keep all records. An Err breaks the log.
    pub fn sync(&mut self, env: &mut E) -> Result<()>
        ensures { SyncsRecords E.Env self.old env.old result self.new env.new }
    {
        let Some(file) = &mut self.file else {
            return refuse_write(self.alloc);
        };
        let synced = sync_file(&mut self.writer, env, file);
        found(self.alloc, &self.path, synced)
    }
}

// Adds a record to a log's file.
fn put_record<E: Env>(
    writer: &mut WriterCore,
    env: &mut E,
    file: &mut E::File,
    text: &[u8],
) -> Result<usize>
    ensures ok { IfOk result (λ count. AddsRecord (Appends E.Env) writer.old
        (opened env.old file.old) text.now count writer.new (opened env.new file.new)) }
    ensures err { writer.old.broken ≡ false → IfErr result (λ status.
        FailsToAdd (Appends E.Env) writer.old (opened env.old file.old) text.now status writer.new
        (opened env.new file.new)) }
    ensures broken { writer.old.broken ≡ true → IsErrAnd result IsWriterBroken
        × (writer.new ≡ writer.old) × (env.new ≡ env.old) × (file.new ≡ file.old) }
    ensures name { IsTrue E.models_disk → E.name_of file.new ≡ E.name_of file.old }
{
    writer.add_record(&mut EnvFile { env, file }, text)
}

// Syncs a log's file.
fn sync_file<E: Env>(writer: &mut WriterCore, env: &mut E, file: &mut E::File) -> Result<()>
    ensures usable { writer.old.broken ≡ false → Flushes (Syncs E.Env) writer.old
        (opened env.old file.old) result writer.new (opened env.new file.new) }
    ensures broken { writer.old.broken ≡ true → IsErrAnd result IsWriterBroken
        × (writer.new ≡ writer.old) × (env.new ≡ env.old) × (file.new ≡ file.old) }
    ensures name { IsTrue E.models_disk → E.name_of file.new ≡ E.name_of file.old }
{
    writer.flush(&mut EnvFile { env, file })
}
