//! Laws of a store that an engine has open: what each step of the engine makes of the files, and
//! that each history is kept at every moment of it.
ghost use Rattle.std.specs.Prelude.{ℕ, List};
ghost use Rattle.leveldb_version_set.specs.Engines.WritingLaws.{BatchesAreWritten, LiveNumbersAreBelow, NamesAreNumbered, NewLogsAreWritten, NewTablesAreUnread, NextNumbersAreFree, ObsoleteFilesAreUnread, SameMemoryShows, SyncedLogsAreDurable, NewTableIsShown, TrackedAfterGiving, TrackedAfterNewLogs, TrackedAfterSyncs, TrackedAfterUnread, ImmBecomesTableByEdits, ImmMayGoToLevelZero, WrittenAfterGiving, WrittenAfterSyncs, WrittenAfterUnread, WrittenIsShown};

use leveldb_files::laws::stores::StoreFormat;

/// No file has a number that wasn't given yet, and a file has the number of its name alone.
pub fn new_numbers_are_free<F: StoreFormat>()
    ensures next { (store : List ℕ) → NextNumbersAreFree store F.cmp F.is_table }
    ensures live { (store : List ℕ) → LiveNumbersAreBelow store F.cmp F.is_table }
    ensures names { (store : List ℕ) → NamesAreNumbered store F.cmp F.is_table }
{}

/// A version set goes on to track its store while numbers are given, logs are synced, and files
/// change that aren't read.
pub fn stores_stay_tracked<F: StoreFormat>()
    ensures given { (store : List ℕ) → TrackedAfterGiving store F.cmp F.is_table }
    ensures synced { (store : List ℕ) → TrackedAfterSyncs store F.cmp F.is_table }
    ensures unread { (store : List ℕ) → TrackedAfterUnread store F.cmp F.is_table }
{}

/// So it does when a log of the next number is made.
pub fn new_logs_are_tracked<F: StoreFormat>()
    ensures { (store : List ℕ) → TrackedAfterNewLogs store F.cmp F.is_table }
{}

/// An engine goes on to write its store meanwhile.
pub fn stores_stay_written<F: StoreFormat>()
    ensures given { (store : List ℕ) → WrittenAfterGiving store F.cmp F.is_table }
    ensures synced { (store : List ℕ) → WrittenAfterSyncs store F.cmp F.is_table }
    ensures unread { (store : List ℕ) → WrittenAfterUnread store F.cmp F.is_table }
{}

/// Of an open store new tables and obsolete files aren't read.
pub fn files_beside_an_open_store<F: StoreFormat>()
    ensures tables { (store : List ℕ) → NewTablesAreUnread store F.cmp F.is_table }
    ensures obsolete { (store : List ℕ) → ObsoleteFilesAreUnread store F.cmp F.is_table }
{}

/// A log is switched: the next one is made, and the memtable of the one before is immutable.
pub fn logs_may_be_switched<F: StoreFormat>()
    ensures { (store : List ℕ) → NewLogsAreWritten store F.cmp F.is_table F.allowed }
{}

/// The entries of the immutable memtable go into a table, whose edit takes their logs away.
pub fn imm_entries_become_a_table<F: StoreFormat>()
    ensures edit { (store : List ℕ) → ImmBecomesTableByEdits store F.cmp F.is_table F.allowed }
    ensures level { (store : List ℕ) → ImmMayGoToLevelZero store F.cmp F.is_table }
{}

/// A batch is appended to the log, and a sync of it makes all durable.
pub fn batches_are_written<F: StoreFormat>()
    ensures append { (store : List ℕ) → BatchesAreWritten store F.cmp F.is_table F.allowed }
    ensures sync { (store : List ℕ) → SyncedLogsAreDurable store F.cmp F.is_table F.allowed }
{}

/// Memory and tables of an open store show its history.
pub fn open_stores_show_their_history<F: StoreFormat>()
    ensures { (store : List ℕ) → WrittenIsShown store F.cmp F.is_table F.allowed }
{}

/// What was shown is shown with a table in place of the immutable memtable, and by other memory of
/// the same entries.
pub fn tables_show_what_waited<F: StoreFormat>()
    ensures table { NewTableIsShown F.cmp }
    ensures same { SameMemoryShows F.cmp }
{}
