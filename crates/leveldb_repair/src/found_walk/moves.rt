//! Moves of a walk over an open table without filters.
ghost use Rattle.std.specs.Prelude.{IfOk, is_some, ◌≡◌};
ghost use Rattle.leveldb_table.specs.TableReaderWalk.{inner_position};
ghost use Rattle.leveldb_repair.specs.FoundWalkTable.{MovesInOpen};

use super::table::FoundMove;
use leveldb_base::cmp::Cmp;
use leveldb_base::error::Result;
use leveldb_env::compressor::{CompressorList, Compressors};
use leveldb_env::env::Env;
use leveldb_env::filter::NoFilterPolicy;
use leveldb_table::block_cache::BlockCache;
use leveldb_table::table_reader::{Table, TableCore, TableReader};

/// Makes a move in an open table. Returns whether the walk is at a pair then.
pub(crate) fn move_in<E: Env, C: Cmp + Copy + Drop>(
    core: &mut TableCore<C>,
    table: &Table<E, C, NoFilterPolicy>,
    env: &mut E,
    blocks: &mut BlockCache<C>,
    compressors: &CompressorList,
    to: FoundMove,
) -> Result<bool>
    ensures moves { let codings = ⟦<CompressorList as Compressors>⟧.codings compressors.now in
        MovesInOpen C.Cmp E.Env codings table.now to.entry env.old blocks.old core.old result
        env.new blocks.new core.new }
    ensures there { IfOk result (λ there. there ≡ is_some (inner_position core.new.inner)) }
{
    let mut reader = TableReader {
        table,
        env: &mut *env,
        cache: &mut *blocks,
        compressors,
    };
    match to {
        FoundMove::Next => core.advance(&mut reader),
        FoundMove::Before => core.prev(&mut reader),
        FoundMove::Seek(key) => {
            core.seek(&mut reader, key)?;
            Ok(core.valid())
        }
        FoundMove::First => {
            core.seek_to_first(&mut reader)?;
            Ok(core.valid())
        }
        FoundMove::Last => {
            core.seek_to_last(&mut reader)?;
            Ok(core.valid())
        }
    }
}
