//! Laws of a store's open tables.
ghost use Rattle.leveldb_version.specs.Tables.TableCache.{StayMatched, TablesCloseInTurn};

use leveldb_base::cmp::{Cmp, InternalKeyCmp, UserCmp};
use leveldb_env::env::Env;

/// Open tables go on to match files that change, if each of their files keeps its bytes or is
/// deleted, and those that are left do when some are closed. A table may stay open when its file is
/// deleted, and is to be evicted before a file of its number is made again.
pub fn open_tables_stay_matched<E: Env, C: UserCmp, FP>()
    ensures { StayMatched E.Env FP ⟦<InternalKeyCmp<C> as Cmp>⟧ }
{}

/// Files that stay or are deleted, and calls that only close tables, may come one after another.
pub fn tables_close_in_turn<E: Env, C: UserCmp, FP>()
    ensures { TablesCloseInTurn E C FP E.File }
{}
