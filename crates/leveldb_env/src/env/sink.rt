//! Where bytes go: what a log or a table is written to.
// LevelDB: include/leveldb/env.h, WritableFile
ghost use Rattle.std.specs.Prelude.{ℕ, List, Result};
ghost use Rattle.leveldb_base.specs.declared.error.Status.{Status};
ghost use Rattle.leveldb_env.specs.Sink.{AppendsBytes, FlushesNothing, ChangesBorrowed};

use leveldb_base::error::Result;

/// What takes bytes in order. An error passes its `Status` on unchanged.
pub trait Sink {
    /// What a sink is after these bytes were put, by the result.
    ghost puts: { Self → List ℕ → Result (Unit {0}) Status → Self → Type 0 };

    /// What a sink is after it was flushed, by the result.
    ghost flushes: { Self → Result (Unit {0}) Status → Self → Type 0 };

    /// Puts all the bytes. After an Err any prefix of them may have been put.
    fn put_all(&mut self, bytes: &[u8]) -> Result<()>
        ensures { puts self.old bytes.now result self.new };

    /// Makes what was put safe.
    fn flush(&mut self) -> Result<()>
        ensures { flushes self.old result self.new };
}

/// Bytes in memory. A put that fails leaves them as they were.
impl Sink for Vec<u8> {
    ghost puts = { λ old bytes result new. AppendsBytes old.items bytes result new.items };

    ghost flushes = { λ old result new. FlushesNothing old.items result new.items };

    fn put_all(&mut self, bytes: &[u8]) -> Result<()> {
        self.extend_from_slice(bytes)?;
        Ok(())
    }

    fn flush(&mut self) -> Result<()> {
        Ok(())
    }
}

/// A sink that is borrowed.
impl<S: Sink> Sink for &mut S {
    ghost puts = { λ old bytes result new. ChangesBorrowed
        (λ s t. S.puts s bytes result t) old new };

    ghost flushes = { λ old result new. ChangesBorrowed (λ s t. S.flushes s result t) old new };

    fn put_all(&mut self, bytes: &[u8]) -> Result<()> {
        (**self).put_all(bytes)
    }

    fn flush(&mut self) -> Result<()> {
        (**self).flush()
    }
}
