//! A look over all pairs that were found, which changes nothing.
ghost use Rattle.leveldb_repair.specs.LookOver.{LooksOver};

use leveldb_base::error::{Result, Status, StatusCode, err};
use leveldb_base::key_types::{TAG_LEN, parse_internal_key};
use leveldb_base::types::SequenceNumber;
use leveldb_iter::walk::Walk;
use std::alloc::{AllocError, Global};

/// What a look over pairs of internal keys and values finds.
#[derive(Clone, Copy, Debug)]
pub struct LookedOver {
    /// The greatest sequence number of their entries, or 0 where there is none.
    pub last: SequenceNumber,
    /// Whether there is one.
    pub any: bool,
}

/// Goes once over all pairs of a walk, from the first on, and changes nothing. The keys are
/// internal keys; `Corruption` where one has no tag. A walk that merges lists comes to its end only
/// where these have one pair of each key: else it fails.
pub fn look_over<E, T, W: Walk<E, T>>(
    alloc: Global,
    env: &mut E,
    tables: &mut T,
    walk: &mut W,
) -> Result<LookedOver>
    ensures { LooksOver W.Walk (env.old, tables.old) walk.old result (env.new, tables.new)
        walk.new }
{
    let mut found = LookedOver {
        last: 0,
        any: false,
    };
    walk.seek_to_first(env, tables)?;
    for _ in 0..u128::MAX {
        let Some((key, _)) = walk.current() else {
            return Ok(found);
        };
        if key.len() < TAG_LEN {
            return err(alloc, StatusCode::Corruption, "a key has no tag");
        }
        let (_, sequence, _) = parse_internal_key(key);
        found = LookedOver {
            last: found.last.max(sequence),
            any: true,
        };
        walk.advance(env, tables)?;
    }
    Err(Status::from(AllocError))
}
