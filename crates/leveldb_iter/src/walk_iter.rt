//! A walk beside borrows of what its moves need.
ghost use Rattle.std.specs.Prelude.{◌≡◌, IfOk, IfErr, is_some};
ghost use Rattle.leveldb_base.specs.Types.{pair_of, copied_pair};
ghost use Rattle.leveldb_base.specs.Error.{IsOutOfMemory};
ghost use Rattle.leveldb_iter.specs.Walk.{Advances, StepsBack, SeeksKey, SeeksFirst, SeeksLast, Resets};

use crate::walk::Walk;
use leveldb_base::error::Result;
use leveldb_base::types::copy_pair;
use std::alloc::Global;

/// A walk beside borrows of the environment and the tables that it reads from, so that its moves
/// need nothing else. They are those of the walk inside.
#[derive(Drop)]
pub struct WalkIter<'a, E, T, W> {
    /// The walk.
    pub walk: W,
    /// The environment that it reads from.
    pub env: &'a mut E,
    /// The tables that it reads from.
    pub tables: &'a mut T,
}

impl<'a, E, T, W: Walk<E, T>> WalkIter<'a, E, T, W> {
    ghost use Rattle.leveldb_iter.specs.WalkIter.{IsBeside, MakesMove, OrOutOfMemory};

    /// This walk, beside these borrows.
    pub fn new(walk: W, env: &'a mut E, tables: &'a mut T) -> WalkIter<'a, E, T, W>
        ensures { IsBeside walk env.entry tables.entry result }
    {
        WalkIter { walk, env, tables }
    }

    /// Moves to the next pair, from no position to the first, and from the last to no position.
    /// Returns whether it is at a pair.
    pub fn advance(&mut self) -> Result<bool>
        ensures moves { MakesMove (Advances W.over W.is_at W.here W.fails W.keeps)
            self.old result self.new }
        ensures valid { IfOk result (λ is_valid. is_valid ≡ is_some (W.here self.new.walk)) }
    {
        self.walk.advance(self.env, self.tables)
    }

    /// Moves to the pair before, and from the first or from no position to no position.
    /// Returns whether it is at a pair.
    pub fn prev(&mut self) -> Result<bool>
        ensures moves { MakesMove (StepsBack W.over W.is_at W.here W.fails W.keeps)
            self.old result self.new }
        ensures valid { IfOk result (λ is_valid. is_valid ≡ is_some (W.here self.new.walk)) }
    {
        self.walk.prev(self.env, self.tables)
    }

    /// Moves to the first pair whose key is at or after `key`, or to no position where all are
    /// before it. The key is to be one that the order accepts.
    pub fn seek(&mut self, key: &[u8]) -> Result<()>
        ensures moves { MakesMove (SeeksKey W.over W.is_at W.here W.fails W.keeps key.now)
            self.old result self.new }
    {
        self.walk.seek(self.env, self.tables, key)
    }

    /// Moves to the first pair, or to no position in an empty list.
    pub fn seek_to_first(&mut self) -> Result<()>
        ensures moves { MakesMove (SeeksFirst W.over W.is_at W.here W.fails W.keeps)
            self.old result self.new }
    {
        self.walk.seek_to_first(self.env, self.tables)
    }

    /// Moves to the last pair, or to no position in an empty list.
    pub fn seek_to_last(&mut self) -> Result<()>
        ensures moves { MakesMove (SeeksLast W.over W.is_at W.here W.fails W.keeps)
            self.old result self.new }
    {
        self.walk.seek_to_last(self.env, self.tables)
    }

    /// Moves as `advance` does, and returns a copy of the pair that it is then at. Where there is
    /// no memory for the copy, it is at no position.
    pub fn next(&mut self, alloc: Global) -> Result<Option<(Vec<u8>, Vec<u8>)>>
        ensures moves { MakesMove
            (Advances W.over W.is_at W.here (OrOutOfMemory W.fails) W.keeps)
            self.old result self.new }
        ensures pair { IfOk result (λ copied. copied_pair copied ≡ W.here self.new.walk) }
    {
        if !self.walk.advance(self.env, self.tables)? {
            return Ok(None);
        }
        let pair = copy_pair(alloc, self.walk.current());
        if pair.is_err() {
            self.walk.reset();
        }
        pair
    }

    /// Moves to no position.
    pub fn reset(&mut self)
        ensures walk { Resets W.over W.is_at W.here W.fails W.keeps self.old.walk self.new.walk }
        ensures env { self.new.env ≡ self.old.env }
        ensures tables { self.new.tables ≡ self.old.tables }
    {
        self.walk.reset();
    }

    /// The key and the value of the pair that it is at, borrowed until it moves or ends.
    pub fn current(&self) -> Option<(&[u8], &[u8])>
        ensures { pair_of result ≡ W.here self.now.walk }
    {
        self.walk.current()
    }

    /// Whether it is at a pair.
    pub fn valid(&self) -> bool
        ensures { result ≡ is_some (W.here self.now.walk) }
    {
        self.walk.valid()
    }
}
