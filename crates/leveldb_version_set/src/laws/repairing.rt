//! Laws of a repair: what it leaves is a store with the set of its tables' entries, each history is
//! kept while `CURRENT` is as it was, and the same is found meanwhile if no cut table is readable.
ghost use Rattle.std.specs.Prelude.{ℕ, List};
ghost use Rattle.leveldb_version_set.specs.Repairs.Repairing.{CrashesLeaveFound, FiltersAreIgnored, FoundGoesByBytes, FoundShowsTheSame, FoundStays, ManifestsGoOn, ManifestsRepair, OneFoundLog, OneFoundSet, OneReadableTable, RepairedHolds, RepairedIsKept, RepairsHold, RepairsKeep, StoresAreFound, TablesAreReadable};

use leveldb_files::laws::stores::StoreFormat;

/// All that is read of what a repair left is kept, and it holds the set of its tables' entries.
pub fn repaired_stores_hold_a_set<F: StoreFormat>()
    ensures kept { (store : List ℕ) → RepairedIsKept store F.cmp F.is_table }
    ensures holds { (store : List ℕ) → RepairedHolds store F.cmp F.is_table F.allowed }
{}

/// A manifest of the one edit makes such a store of its tables, once `CURRENT` names it; making it
/// is a part of the repair.
pub fn manifests_make_repaired_stores<F: StoreFormat>()
    ensures made { (store : List ℕ) → ManifestsRepair store F.cmp F.is_table }
    ensures part { (store : List ℕ) → ManifestsGoOn store }
{}

/// While `CURRENT` is as it was each history is kept, where a table or a log was there. So at each
/// moment the files hold what they held, or the set of the entries of the repair's tables.
pub fn repairs_keep_histories<F: StoreFormat>()
    ensures keeps { (store : List ℕ) → RepairsKeep store F.cmp F.is_table F.allowed }
    ensures holds { (store : List ℕ) → RepairsHold store F.cmp F.is_table F.allowed }
{}

/// What is found stays the same while a repair is made, if the bytes that are meant for its tables
/// have no other entry, and none of these is readable with other bytes. So it does after a crash,
/// where all bytes were kept before.
pub fn found_entries_stay<F: StoreFormat>()
    ensures meanwhile { (store : List ℕ) → FoundStays store F.is_table }
    ensures crash { (store : List ℕ) → CrashesLeaveFound store F.is_table }
{}

/// What is found is one set, which goes by the bytes of tables and logs alone: those of a log are
/// one list of batches, and those of a readable table one list of entries.
pub fn found_entries_are_a_set<F: StoreFormat>()
    ensures log { OneFoundLog }
    ensures table { OneReadableTable }
    ensures one { (store : List ℕ) → OneFoundSet store F.is_table }
    ensures bytes { (store : List ℕ) → FoundGoesByBytes store F.is_table }
{}

/// Of a store with no table and no log beside those that it reads exactly its entries are found, so
/// what is found shows what it shows. A table is readable, whatever its filters are, exactly as its
/// entries, if these have numbers from 1 on.
pub fn stores_are_found()
    ensures contents { (store : List ℕ) → StoresAreFound store }
    ensures shows { (store : List ℕ) → FoundShowsTheSame store }
    ensures tables { (store : List ℕ) → TablesAreReadable store }
    ensures filters { FiltersAreIgnored }
{}
