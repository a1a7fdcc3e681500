//! The level whose score asks for a compaction.
// LevelDB: db/version_set.cc, VersionSet::Finalize
ghost use Rattle.std.specs.Prelude.{◌≡◌, ◌<◌, ◌*◌, if◌then◌else◌};
ghost use Rattle.leveldb_version.specs.Versions.Scores.{fullest_level, is_fuller, level_by_score, level_limit, level_load};
ghost use Rattle.leveldb_version.specs.Versions.Version.{new_files_of};

use super::Version;
use leveldb_base::cmp::UserCmp;

impl<C: UserCmp> Version<C> {
    /// The level whose score asks for a compaction: the first of those of greatest score, if that
    /// is 1 or more. Level 6 has no score.
    pub fn level_by_score(&self) -> Option<usize>
        ensures { result ≡ level_by_score (new_files_of self.now) }
    {
        let fullest = self.fullest_level();
        if level_limit(fullest) <= self.level_load(fullest) {
            Some(fullest)
        } else {
            None
        }
    }

    // Of levels 0 to 5 the first of greatest score.
    fn fullest_level(&self) -> usize
        ensures level { result ≡ fullest_level (new_files_of self.now) }
        ensures known { result < 6 }
    {
        let mut fullest = 0;
        for level in 1..6 {
            fullest = self.fuller(level, fullest);
        }
        fullest
    }

    // The first level if its score is greater, else the other.
    fn fuller(&self, level: usize, other: usize) -> usize
        requires level { level < 6 }
        requires other { other < 6 }
        ensures level { result
            ≡ (if is_fuller (new_files_of self.now) level other then level else other) }
        ensures known { result < 6 }
    {
        if self.is_fuller(level, other) {
            level
        } else {
            other
        }
    }

    // Whether the first level's score is greater. The fractions are compared crosswise.
    fn is_fuller(&self, level: usize, other: usize) -> bool
        requires level { level < 6 }
        requires other { other < 6 }
        ensures { result ≡ is_fuller (new_files_of self.now) level other }
    {
        product(self.level_load(other), level_limit(level))
            < product(self.level_load(level), level_limit(other))
    }

    // What a level has: level 0 files, each other one bytes.
    fn level_load(&self, level: usize) -> usize
        requires { level < 6 }
        ensures { result ≡ level_load (new_files_of self.now) level }
    {
        if level == 0 {
            self.num_level_files(0)
        } else {
            self.num_level_bytes(level)
        }
    }
}

/// The product of two numbers, which may be past 64 bits.
pub fn product(a: usize, b: usize) -> u128
    ensures { result ≡ a * b }
{
    a as u128 * b as u128
}

// What a level is to have: four files, or 10 MiB in level 1 and ten times more in each next level.
fn level_limit(level: usize) -> usize
    requires { level < 6 }
    ensures { result ≡ level_limit level }
{
    match level {
        0 => 4,
        1 => 10 << 20,
        2 => 100 << 20,
        3 => 1000 << 20,
        4 => 10_000 << 20,
        _ => 100_000 << 20,
    }
}
