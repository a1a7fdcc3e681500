//! The walks over a version's tables.
// LevelDB: db/version_set.cc, Version::AddIterators
ghost use Rattle.std.specs.Prelude.{◌≡◌, IfErr, IfOk, OnOk};
ghost use Rattle.std.specs.List.Sorted.{IsNonDecreasingBy};
ghost use Rattle.leveldb_base.specs.Error.{IsOutOfMemory};
ghost use Rattle.leveldb_version.specs.Versions.Version.{AreInVersionOrder, new_files_of};
ghost use Rattle.leveldb_version.specs.Walks.VersionIters.{AreVersionIters, AreWalksOf, each_alone, levels_of_walks};

use super::Version;
use super::order::part_of_level;
use crate::version_iter::{VersionIter, new_version_iter};
use leveldb_base::cmp::UserCmp;
use leveldb_base::error::Result;
use leveldb_base::types::FileMetaData;
use std::alloc::Global;

impl<C: UserCmp + Copy + Drop> Version<C> {
    /// Walks over the version's tables, which have not begun: one for each file of level 0, the
    /// newest first, and then one for each deeper level that has files. This reads nothing.
    pub fn new_iters(&self, alloc: Global) -> Result<Vec<VersionIter<'_, C>>>
        ensures ok { IfOk result (λ iters. AreVersionIters self.now iters.items) }
        ensures in_order { AreInVersionOrder (C.cmp self.now.cmp) (new_files_of self.now) }
        ensures memory { IfErr result IsOutOfMemory }
    {
        let files = self.files.as_slice();
        let mut iters = Vec::new(alloc);
        push_alone(alloc, part_of_level(files, 0), &mut iters)?;
        push_levels(alloc, files, &mut iters)?;
        Ok(iters)
    }
}

// Appends a walk for each file, the last first.
fn push_alone<'a, C: UserCmp + Copy + Drop>(
    alloc: Global,
    files: &'a [(usize, FileMetaData)],
    iters: &mut Vec<VersionIter<'a, C>>,
) -> Result<()>
    ensures ok { OnOk result (AreWalksOf iters.old.items (each_alone files.now) iters.new.items) }
    ensures memory { IfErr result IsOutOfMemory }
{
    let mut left = files;
    while let Some((_, rest)) = left.split_last() {
        iters.push(new_version_iter(alloc, &left[rest.len()..]))?;
        left = rest;
    }
    Ok(())
}

// Appends a walk for each level from 1 on that has files.
fn push_levels<'a, C: UserCmp + Copy + Drop>(
    alloc: Global,
    files: &'a [(usize, FileMetaData)],
    iters: &mut Vec<VersionIter<'a, C>>,
) -> Result<()>
    requires { IsNonDecreasingBy (λ file. file.0) files.now }
    ensures ok { OnOk result
        (AreWalksOf iters.old.items (levels_of_walks files.now) iters.new.items) }
    ensures memory { IfErr result IsOutOfMemory }
{
    for level in 1..7 {
        let part = part_of_level(files, level);
        if !part.is_empty() {
            iters.push(new_version_iter(alloc, part))?;
        }
    }
    Ok(())
}
