//! Iterators that need no environment, as walks.
ghost use Rattle.std.specs.Prelude.{◌≡◌};

use crate::walk::Walk;
use leveldb_base::error::Result;
use leveldb_base::types::LdbIterator;

/// An iterator that borrows what it reads from once, or owns it, as a walk whose moves need nothing
/// of the environment and the tables that they borrow.
#[derive(Drop)]
pub struct InMemory<M>(pub M);

impl<E, T, M: LdbIterator> Walk<E, T> for InMemory<M> {
    ghost use Rattle.leveldb_iter.specs.InMemory.{IsAloneOver, IsAloneAt, FailsAlone, alone_here};
    ghost use Rattle.leveldb_iter.specs.InMemoryLaws.{alone_laws};

    ghost over = { IsAloneOver M.LdbIterator };

    ghost is_at = { IsAloneAt M.LdbIterator };

    ghost here = { alone_here M.LdbIterator };

    ghost fails = { FailsAlone M.LdbIterator };

    ghost keeps = { λ first second. second ≡ first };

    fn advance(&mut self, _env: &mut E, _tables: &mut T) -> Result<bool> {
        self.0.advance()
    }

    fn prev(&mut self, _env: &mut E, _tables: &mut T) -> Result<bool> {
        self.0.prev()
    }

    fn seek(&mut self, _env: &mut E, _tables: &mut T, key: &[u8]) -> Result<()> {
        self.0.seek(key)
    }

    fn seek_to_first(&mut self, _env: &mut E, _tables: &mut T) -> Result<()> {
        self.0.seek_to_first()
    }

    fn seek_to_last(&mut self, _env: &mut E, _tables: &mut T) -> Result<()> {
        self.0.seek_to_last()
    }

    fn reset(&mut self) {
        self.0.reset();
    }

    fn current(&self) -> Option<(&[u8], &[u8])> {
        self.0.current()
    }

    fn valid(&self) -> bool {
        self.0.valid()
    }

    ghost laws = { alone_laws M.in_range };
}
