//! The law of files in levels that are apart.
ghost use Rattle.leveldb_version_set.specs.Sets.DisjointLevels.{StayDisjoint};

/// The files of each level from 1 on are apart where a store may begin with them, and stay so when
/// some are left out, when they are put in another order, and when a file is added to the level
/// that `pick_memtable_output_level` returns for its first and last user keys.
pub fn levels_stay_disjoint()
    ensures { StayDisjoint }
{}
