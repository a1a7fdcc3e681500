//! The children of a repair's merge: walks over memtables, and walks over tables that are found in
//! the store's folder.
// LevelDB: db/repair.cc, Repairer::NewTableIterator
ghost use Rattle.std.specs.Prelude.{◌≡◌};

use leveldb_base::cmp::{Cmp, InternalKeyCmp, UserCmp};
use leveldb_base::error::Result;
use leveldb_base::types::LdbIterator;
use leveldb_env::env::Env;
use leveldb_iter::in_memory::InMemory;
use leveldb_iter::walk::Walk;

mod files;
mod moves;
mod open;
mod table;

pub use files::{ReadFiles, ReadsFound};
pub use open::open_found;
pub use table::{FoundMove, FoundTable};

/// A child of a repair's merge: over memory, or over a table by a walk of this type, `FoundTable`.
/// All children of a merge are of one type.
#[derive(Drop)]
pub enum FoundWalk<T, M> {
    /// Over a memtable.
    Memory(InMemory<M>),
    /// Over a table.
    Table(T),
}

impl<'b, E: Env, C: UserCmp + Copy + Drop, K: ReadsFound<E, C>, M: LdbIterator> Walk<
    E,
    ReadFiles<'b, K>,
> for FoundWalk<FoundTable<E, C>, M> {
    ghost use Rattle.leveldb_repair.specs.FoundWalk.{IsWalkOver, IsWalkAt, FailsInWalk, walk_here};
    ghost use Rattle.leveldb_repair.specs.FoundWalkLaws.{walk_laws};
    ghost use Rattle.leveldb_repair.specs.FoundWalkTable.{KeepsFound};

    ghost over = { IsWalkOver ⟦<InternalKeyCmp<C> as Cmp>⟧ E.Env K.codings M.LdbIterator };

    ghost is_at = { IsWalkAt ⟦<InternalKeyCmp<C> as Cmp>⟧ E.Env K.codings M.LdbIterator };

    ghost here = { walk_here M.LdbIterator };

    ghost fails = { FailsInWalk ⟦<InternalKeyCmp<C> as Cmp>⟧ E.Env K.codings M.LdbIterator };

    ghost keeps = { KeepsFound E.Env };

    fn advance(&mut self, env: &mut E, files: &mut ReadFiles<'b, K>) -> Result<bool> {
        match self {
            FoundWalk::Memory(walk) => walk.advance(env, files),
            FoundWalk::Table(walk) => walk.advance(env, files),
        }
    }

    fn prev(&mut self, env: &mut E, files: &mut ReadFiles<'b, K>) -> Result<bool> {
        match self {
            FoundWalk::Memory(walk) => walk.prev(env, files),
            FoundWalk::Table(walk) => walk.prev(env, files),
        }
    }

    fn seek(&mut self, env: &mut E, files: &mut ReadFiles<'b, K>, key: &[u8]) -> Result<()> {
        match self {
            FoundWalk::Memory(walk) => walk.seek(env, files, key),
            FoundWalk::Table(walk) => walk.seek(env, files, key),
        }
    }

    fn seek_to_first(&mut self, env: &mut E, files: &mut ReadFiles<'b, K>) -> Result<()> {
        match self {
            FoundWalk::Memory(walk) => walk.seek_to_first(env, files),
            FoundWalk::Table(walk) => walk.seek_to_first(env, files),
        }
    }

    fn seek_to_last(&mut self, env: &mut E, files: &mut ReadFiles<'b, K>) -> Result<()> {
        match self {
            FoundWalk::Memory(walk) => walk.seek_to_last(env, files),
            FoundWalk::Table(walk) => walk.seek_to_last(env, files),
        }
    }

    fn reset(&mut self) {
        match self {
            FoundWalk::Memory(walk) => walk.0.reset(),
            FoundWalk::Table(walk) => walk.leave(),
        }
    }

    fn current(&self) -> Option<(&[u8], &[u8])> {
        match self {
            FoundWalk::Memory(walk) => walk.0.current(),
            FoundWalk::Table(walk) => walk.pair(),
        }
    }

    fn valid(&self) -> bool {
        match self {
            FoundWalk::Memory(walk) => walk.0.valid(),
            FoundWalk::Table(walk) => walk.is_at_pair(),
        }
    }

    ghost laws = { walk_laws M.in_range };
}
