//! Damaged files that are set aside, under names that no opening reads.
ghost use Rattle.std.specs.Prelude.{◌≡◌, ℕ, List, Contains, IsTrue, map, string_bytes};
ghost use Rattle.leveldb_files.specs.Stores.Paths.{IsJournal};
ghost use Rattle.leveldb_store.specs.Keeping.SetAside.{SetsAside, SetsOneAside};

use super::OpenStore;
use super::obsolete::first_error;
use leveldb_base::cmp::UserCmp;
use leveldb_base::error::{Result, StatusCode, err};
use leveldb_env::env::Env;
use std::alloc::Global;

impl<E: Env, C: UserCmp + Copy + Drop> OpenStore<E, C> {
    /// Sets logs and manifests of these paths aside: each gets its name with `.damaged` after it.
    /// One that can't be stays as it is, with `AlreadyExists` where a file has that name, and the
    /// others are set aside. Returns the first error, or `OutOfMemory` if memory was out for one.
    pub(super) fn set_aside(&self, env: &mut E, paths: &[String]) -> Result<()>
        requires own { IsTrue E.models_disk → (path : List ℕ)
            → Contains (map string_bytes paths.now) path → IsJournal self.now.set.store path }
        ensures { SetsAside E.Env (Contains (map string_bytes paths.now)) env.old result env.new }
    {
        let mut first = Ok(());
        for path in paths {
            first = first_error(first, set_one_aside(self.alloc, env, path));
        }
        first
    }
}

// The same for the file of this path.
fn set_one_aside<E: Env>(alloc: Global, env: &mut E, path: &str) -> Result<()>
    ensures { SetsOneAside E.Env path.now env.old result env.new }
{
    let other = format!(in alloc; "{path}.damaged")?;
    if env.exists(&other)? {
        return err(alloc, StatusCode::AlreadyExists, &other);
    }
    env.rename(path, &other)
}
