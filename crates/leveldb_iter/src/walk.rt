//! A walk over pairs whose moves borrow what the pairs are read from.
// LevelDB: include/leveldb/iterator.h
ghost use Rattle.std.specs.Prelude.{◌≡◌, List, ℕ, Option, IfOk, is_some};
ghost use Rattle.leveldb_base.specs.declared.error.Status.{Status};
ghost use Rattle.leveldb_base.specs.Types.{Pair, pair_of};
ghost use Rattle.leveldb_iter.specs.Walk.{KeyOrder, WalkLaws, Advances, StepsBack, SeeksKey, SeeksFirst, SeeksLast, Resets};

use leveldb_base::error::Result;

/// A walk over a sorted list of pairs of a key and a value. The pairs are read from an environment
/// `E` and tables `T`, which each move borrows, so that many walks can read from the same. A walk
/// is at one of the pairs or at no position. A move leaves each other walk of this type that reads
/// from the same environment and tables where it was. A move that fails leaves no position,
/// whatever it was to lead to, and the walk can go on from there. Over which list a walk is, is
/// said where it is made.
pub trait Walk<E, T> {
    // in this world it is over this list, which is in this order
    ghost over: { E × T → Self → KeyOrder → List Pair → Type 0 };

    // and at this position of it
    ghost is_at: { E × T → Self → KeyOrder → List Pair → Option ℕ → Type 0 };

    // the pair that it is at
    ghost here: { Self → Option Pair };

    // the errors that a move may have that begins in the first world and ends in the second
    ghost fails: { E × T → Self → E × T → Status → Type 0 };

    // what the move leaves of the first world, which walks read from
    ghost keeps: { E × T → E × T → Type 0 };

    /// Moves to the next pair, from no position to the first, and from the last to no position.
    /// Returns whether it is at a pair.
    fn advance(&mut self, env: &mut E, tables: &mut T) -> Result<bool>
        ensures moves { Advances over is_at here fails keeps (env.old, tables.old) self.old result
            (env.new, tables.new) self.new }
        ensures valid { IfOk result (λ is_valid. is_valid ≡ is_some (here self.new)) };

    /// Moves to the pair before, and from the first or from no position to no position.
    /// Returns whether it is at a pair.
    fn prev(&mut self, env: &mut E, tables: &mut T) -> Result<bool>
        ensures moves { StepsBack over is_at here fails keeps (env.old, tables.old) self.old result
            (env.new, tables.new) self.new }
        ensures valid { IfOk result (λ is_valid. is_valid ≡ is_some (here self.new)) };

    /// Moves to the first pair whose key is at or after `key`, or to no position where all are
    /// before it. The key is to be one that the order accepts; where another leads isn't said.
    fn seek(&mut self, env: &mut E, tables: &mut T, key: &[u8]) -> Result<()>
        ensures moves { SeeksKey over is_at here fails keeps key.now (env.old, tables.old) self.old
            result (env.new, tables.new) self.new };

    /// Moves to the first pair, or to no position in an empty list.
    fn seek_to_first(&mut self, env: &mut E, tables: &mut T) -> Result<()>
        ensures moves { SeeksFirst over is_at here fails keeps (env.old, tables.old) self.old
            result (env.new, tables.new) self.new };

    /// Moves to the last pair, or to no position in an empty list.
    fn seek_to_last(&mut self, env: &mut E, tables: &mut T) -> Result<()>
        ensures moves { SeeksLast over is_at here fails keeps (env.old, tables.old) self.old
            result (env.new, tables.new) self.new };

    /// Moves to no position.
    fn reset(&mut self)
        ensures { Resets over is_at here fails keeps self.old self.new };

    /// The key and the value of the pair that it is at, borrowed until it moves or ends.
    fn current(&self) -> Option<(&[u8], &[u8])>
        ensures { pair_of result ≡ here self.now };

    /// Whether it is at a pair.
    fn valid(&self) -> bool
        ensures { result ≡ is_some (here self.now) };

    // what holds of these
    ghost laws: { WalkLaws over is_at here fails keeps };
}

/// What counts the bytes that it reads.
pub trait CountsBytes {
    // how many it has read, as far as 64 bits count
    ghost counted: { Self → ℕ };

    /// How many bytes the entries had that it has read since it was made, keys with their tags, and
    /// values. At its greatest the count stays.
    fn bytes_read(&self) -> u64
        ensures { result ≡ counted self.now };
}
