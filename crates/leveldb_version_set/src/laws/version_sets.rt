//! Laws of version sets: what edits leave of one, and that logging them, recovering and making a
//! new store's manifest keep what the disk holds.
ghost use Rattle.std.specs.Prelude.{ℕ, List};
ghost use Rattle.leveldb_version_set.specs.Sets.VersionSetLaws.{AppendedEditsAreTracked, AppendedEditsKeep, BegunEditsAreTracked, BegunEditsKeep, FullEditsStayFull, GoingOnIsTracked, NewStoresAreKept, SetsStayTracked, StartingAnewIsTracked};

use leveldb_files::laws::stores::StoreFormat;

/// One edit of all that there is, changed by another, is one of what that leaves.
#[tactic(auto, using(leveldb_version::proofs::Edits::FullEditLemmas::full_stays_full))]
pub fn full_edits_stay_full()
    ensures { FullEditsStayFull }
{}

/// A set that was recovered from a kept `CURRENT` and usable edits tracks the manifest, whether it
/// goes on with it or begins a new one.
pub fn recovered_sets_are_tracked()
    ensures going_on { GoingOnIsTracked }
    ensures anew { StartingAnewIsTracked }
{}

/// After an edit is logged the set tracks the manifest that has it, and it goes on to do so while
/// numbers are given and other files change.
pub fn logged_edits_are_tracked()
    ensures appended { AppendedEditsAreTracked }
    ensures begun { BegunEditsAreTracked }
    ensures stay { SetsStayTracked }
{}

/// An edit that changes nothing that is shown keeps each history at every moment of its logging,
/// whether it is appended to the manifest or begins a new one.
pub fn logged_edits_keep_histories<F: StoreFormat>()
    ensures appended { (store : List ℕ) → AppendedEditsKeep store F.cmp F.is_table F.allowed }
    ensures begun { (store : List ℕ) → BegunEditsKeep store F.cmp F.is_table F.allowed }
{}

/// Each history is kept at every moment while a new store's manifest is made, and then all of that
/// store is kept.
pub fn new_stores_are_kept<F: StoreFormat>()
    ensures { (store : List ℕ) → NewStoresAreKept store F.cmp F.is_table F.allowed }
{}
