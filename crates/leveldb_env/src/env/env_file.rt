//! An open file as a sink and as a source.
// LevelDB: include/leveldb/env.h, WritableFile and RandomAccessFile
ghost use Rattle.leveldb_env.specs.EnvFile.{AppendsBorrowed, SyncsBorrowed, ReadsBorrowed};

use crate::env::{Env, Sink, Source};
use leveldb_base::error::Result;

/// A file and its environment, borrowed. A put is one `append`, a flush one `sync`, a read one
/// `read`.
#[derive(Drop)]
pub struct EnvFile<'a, E: Env> {
    pub env: &'a mut E,
    pub file: &'a mut E::File,
}

impl<E: Env> Sink for EnvFile<'_, E> {
    ghost puts = { AppendsBorrowed E.Env };

    ghost flushes = { SyncsBorrowed E.Env };

    fn put_all(&mut self, bytes: &[u8]) -> Result<()> {
        self.env.append(self.file, bytes)
    }

    fn flush(&mut self) -> Result<()> {
        self.env.sync(self.file)
    }
}

impl<E: Env> Source for EnvFile<'_, E> {
    ghost gives = { ReadsBorrowed E.Env };

    fn read_some(&mut self, target: &mut [u8]) -> Result<usize> {
        self.env.read(self.file, target)
    }
}
