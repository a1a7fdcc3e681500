//! The name of a store.
// LevelDB: db/filename.cc, LockFileName
ghost use Rattle.std.specs.Prelude.{◌≡◌, OnOk, IfErr};
ghost use Rattle.rusty_leveldb.specs.Engines.Engine.{IsStoreName};

use leveldb_base::error::{Result, StatusCode, err};
use std::alloc::Global;

/// A store's name isn't empty and doesn't end in a slash.
pub(crate) fn check_name(alloc: Global, name: &str) -> Result<()>
    ensures ok { OnOk result (IsStoreName name.now) }
    ensures cause { IfErr result
        (λ status. (status.code ≡ StatusCode.InvalidArgument) × (IsStoreName name.now → ⊥)) }
{
    match name.as_bytes() {
        [] | [.., b'/'] => err(alloc, StatusCode::InvalidArgument, "not a store's name"),
        _ => Ok(()),
    }
}
