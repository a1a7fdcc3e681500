//! The files of a folder.
// LevelDB: db/repair.cc, Repairer::FindFiles
ghost use Rattle.std.specs.Prelude.{◌≡◌, IfErr, IfOk, string_bytes};
ghost use Rattle.leveldb_base.specs.Error.{IsOutOfMemory};
ghost use Rattle.leveldb_env.specs.Env.{in_folder};

use leveldb_base::error::Result;
use std::alloc::Global;

/// The path of the file of this name in a folder.
pub(crate) fn path_in(alloc: Global, folder: &str, name: &str) -> Result<String>
    ensures ok { IfOk result (λ path. string_bytes path ≡ in_folder folder.now name.now) }
    ensures memory { IfErr result IsOutOfMemory }
{
    Ok(format!(in alloc; "{folder}/{name}")?)
}
