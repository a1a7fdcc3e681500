//! Laws of an opening: what each step of it makes of the files, and that each history is kept at
//! every moment of it.
ghost use Rattle.std.specs.Prelude.{ℕ, List};
ghost use Rattle.leveldb_version_set.specs.Engines.OpeningLaws.{OpeningsEnd, OpeningsGoOn, RecoveredAfterGiving, RecoveredAfterNewLogs, RecoveredAfterNumbering, RecoveredAfterSyncs, RecoveredAfterUnread, RecoveredSetsTrack, SafeStoresKeepTables, StoresAreRecovered};

use leveldb_files::laws::stores::StoreFormat;

/// A set that was recovered tracks its store. Once the live tables are kept, which they are in a
/// safe store, syncs of the logs that are replayed make the store recovered.
pub fn stores_are_recovered<F: StoreFormat>()
    ensures tracked { (store : List ℕ) → RecoveredSetsTrack store F.cmp F.is_table }
    ensures tables { (store : List ℕ) → SafeStoresKeepTables store F.cmp F.is_table F.allowed }
    ensures synced { (store : List ℕ) → StoresAreRecovered store F.cmp F.is_table }
{}

/// A store stays recovered while numbers are given, logs are made and synced, and files change that
/// aren't read.
pub fn stores_stay_recovered<F: StoreFormat>()
    ensures given { (store : List ℕ) → RecoveredAfterGiving store F.cmp F.is_table }
    ensures numbered { (store : List ℕ) → RecoveredAfterNumbering store F.cmp F.is_table }
    ensures synced { (store : List ℕ) → RecoveredAfterSyncs store F.cmp F.is_table }
    ensures log { (store : List ℕ) → RecoveredAfterNewLogs store F.cmp F.is_table }
    ensures unread { (store : List ℕ) → RecoveredAfterUnread store F.cmp F.is_table }
{}

/// An opening ends without an edit where a manifest is in use and no log is below the one to write.
pub fn openings_go_on<F: StoreFormat>()
    ensures { (store : List ℕ) → OpeningsGoOn store F.cmp F.is_table F.allowed }
{}

/// An opening ends with the edit that has tables in place of the logs below the one to write, in
/// the manifest in use or in a new one: each history is kept at each moment of it, and then the
/// store is one that an engine writes, and holds what was found, all of it durable.
pub fn openings_end<F: StoreFormat>()
    ensures { (store : List ℕ) → OpeningsEnd store F.cmp F.is_table F.allowed }
{}
