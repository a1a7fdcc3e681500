//! Where bytes come from: what a log is read from.
// LevelDB: include/leveldb/env.h, SequentialFile
ghost use Rattle.std.specs.Prelude.{ℕ, ◌≤◌, List, Result, IfOk, IfErr, length};
ghost use Rattle.leveldb_base.specs.declared.error.Status.{Status};
ghost use Rattle.leveldb_env.specs.Source.{given, GivesAll, GivesFirst, GivesUp};
ghost use Rattle.leveldb_env.specs.Sink.{ChangesBorrowed};

use leveldb_base::error::Result;
use std::alloc::Global;

/// How many bytes are asked for at once where all are wanted.
const PIECE_SIZE: usize = 4096;

/// What gives bytes in order. An error passes its `Status` on unchanged.
pub trait Source {
    /// What a source gives for so much room, and what it is then.
    ghost gives: { Self → ℕ → Result (List ℕ) Status → Self → Type 0 };

    /// Reads some of the bytes that come next to the front of the target. Returns how many came:
    /// 0 only at the end or for an empty target.
    fn read_some(&mut self, target: &mut [u8]) -> Result<usize>
        ensures fits { IfOk result (λ n. n ≤ length target.new) }
        ensures gives { gives self.old (length target.old) (given result target.new) self.new };
}

/// Bytes in memory, of which those that were read are gone. A read never fails.
impl Source for &[u8] {
    ghost gives = { λ old room result new. GivesFirst old.now room result new.now };

    fn read_some(&mut self, target: &mut [u8]) -> Result<usize> {
        let count = self.len().min(target.len());
        let (first, others) = self.split_at(count);
        target[..count].copy_from_slice(first);
        *self = others;
        Ok(count)
    }
}

/// A source that is borrowed.
impl<S: Source> Source for &mut S {
    ghost gives = { λ old room result new. ChangesBorrowed
        (λ s t. S.gives s room result t) old new };

    fn read_some(&mut self, target: &mut [u8]) -> Result<usize> {
        (**self).read_some(target)
    }
}

/// All that a source still gives. After an Err what was read is dropped.
pub fn read_to_end<S: Source>(alloc: Global, source: &mut S) -> Result<Vec<u8>>
    ensures ok { IfOk result (λ all. GivesAll S.gives source.old all.items source.new) }
    ensures err { IfErr result (λ status. GivesUp S.gives source.old status source.new) }
{
    let mut all = Vec::new(alloc);
    let mut target = [0u8; PIECE_SIZE];
    loop {
        let count = source.read_some(&mut target)?;
        if count == 0 {
            return Ok(all);
        }
        all.extend_from_slice(&target[..count])?;
    }
}
