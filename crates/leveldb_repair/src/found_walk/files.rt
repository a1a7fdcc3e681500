//! What walks over found tables are read with.
ghost use Rattle.leveldb_repair.specs.FoundWalkTable.{MovesInFound};

use super::table::{FoundMove, FoundTable};
use leveldb_base::cmp::{Cmp, InternalKeyCmp, UserCmp};
use leveldb_base::error::Result;
use leveldb_base::types::FileNum;
use leveldb_env::compressor::{CompressorList, Compressors};
use leveldb_env::env::Env;

/// Compressors by which found tables are read. A type that holds a borrow of such names it by a
/// type parameter: the checker states no type that has the tables beside the boxes of compressors.
pub trait ReadsFound<E: Env, C: UserCmp + Copy + Drop>: Compressors
where
    InternalKeyCmp<C>: Cmp,
{
    /// Makes a move in a found table. Returns whether it is at a pair then.
    fn move_in_found(&self, env: &mut E, walk: &mut FoundTable<E, C>, to: FoundMove) -> Result<bool>
        ensures { MovesInFound ⟦<InternalKeyCmp<C> as Cmp>⟧ E.Env (Self.codings self.now) to.entry
            env.old walk.old result env.new walk.new };
}

/// What found tables are read with: the compressors. And which files may be made meanwhile: the
/// store's tables of numbers from `below` on.
#[derive(Drop)]
pub struct ReadFiles<'a, K> {
    /// The compressors.
    pub compressors: &'a K,
    /// The store's path.
    pub store: &'a str,
    /// No found table is the store's table of this number or of a greater one.
    pub below: FileNum,
}

impl<E: Env, C: UserCmp + Copy + Drop> ReadsFound<E, C> for CompressorList {
    fn move_in_found(
        &self,
        env: &mut E,
        walk: &mut FoundTable<E, C>,
        to: FoundMove,
    ) -> Result<bool> {
        walk.go(env, self, to)
    }
}
