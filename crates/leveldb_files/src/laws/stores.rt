//! Laws of a store's files: they have one reading, an honest crash leaves a prefix of their
//! history, and each step of an engine keeps that.
ghost use Rattle.std.specs.Prelude.{ℕ, List};
ghost use Rattle.std.specs.declared.cmp.Ordering.{Ordering};
ghost use Rattle.leveldb_base.specs.Types.{Pair};
ghost use Rattle.leveldb_env.specs.Compressor.{Codings, Decodes};
ghost use Rattle.leveldb_env.specs.Env.{Files};
ghost use Rattle.leveldb_files.specs.Stores.Contents.{Contents, Store};
ghost use Rattle.leveldb_files.specs.Histories.HoldsLaws.{CrashesHold, NarrowerHolds, WiderHolds};
ghost use Rattle.leveldb_files.specs.Stores.Store.{IsStore};
ghost use Rattle.leveldb_files.specs.Steps.StoreLaws.{BatchesAppend, BatchesStayWritable, CrashesCutStores, EditAppendsKeep, EditsLeaveTables, EditsRefineOnwards, EditsStayOpen, EmptyBatchesMatch, FirstCurrentKeeps, KeepingHolds, KeptHolds, KeptIsSafe, ManifestsAreUnread, MissingIsUnread, NewLogsKeep, NoStoreIsSafe, NothingMatches, ObsoleteIsUnread, OneStoreReading, OneStoreTable, OthersAreUnread, PartsAreSafe, RenamesKeep, SafeCurrentIsKept, SafeTablesAreKept, SetsMatch, FullEditsRefine, StepsCompose, SwapsRefine, SwitchesRefine, SyncMakesDurable, SyncsKeep, SyncsStayWritable, TablesAreBounded, UnreadKeeps, UnreadStays};
ghost use Rattle.leveldb_files.specs.Stores.StoreTables.{HeldTablesByMore, StoreTablesByMore};
ghost use Rattle.leveldb_files.specs.Steps.StoreStays.{BytesStay, FirstCurrentIsKept, ReadByEdits, RenamesOpen, SameAfterNewLogs, SameAfterSyncs, SameAfterUnread};

use leveldb_env::env::Env;

/// What the laws leave open: the order of user keys, which bytes are a table of which pairs, and
/// which store may be there.
pub trait StoreFormat {
    ghost cmp: { List ℕ → List ℕ → Ordering };

    ghost is_table: { List ℕ → List Pair → Type 0 };

    ghost allowed: { Store → Type 0 };
}

/// What the laws of any reading leave open: which contents are read of files, and two choices of
/// the stores that may be there.
pub trait Reading {
    ghost reads: { Files → Contents → Type 0 };

    ghost allowed: { Store → Type 0 };

    ghost others: { Store → Type 0 };
}

/// Files are a store with one contents, as a set.
pub fn files_have_one_reading<F: StoreFormat>()
    ensures { (store : List ℕ) → OneStoreReading store F.cmp F.is_table }
{}

/// The bytes of a table have one list of pairs, and its keys are in the range that its edit says.
pub fn tables_are_bounded()
    ensures list { (codings : Codings) → OneStoreTable (Decodes codings) }
    ensures range { (codings : Codings) → TablesAreBounded (Decodes codings) }
{}

/// A table by some compressors is one by compressors that decode more, in files too.
pub fn more_compressors_keep_tables()
    ensures bytes { (codings more : Codings)
        → StoreTablesByMore (Decodes codings) (Decodes more) }
    ensures files { (codings more : Codings)
        → HeldTablesByMore (Decodes codings) (Decodes more) }
{}

/// Histories that contents match: none where no store is, the same with an empty batch more, and
/// any set of entries as one batch.
pub fn which_histories_match<F: StoreFormat>()
    ensures none { NothingMatches F.allowed }
    ensures empty { EmptyBatchesMatch F.allowed }
    ensures set { SetsMatch F.allowed }
{}

/// A crash that cuts the manifest and the last log, both perhaps, leaves a store by the first edits
/// with the first batches: whole ones only, and all that were kept.
pub fn crashes_cut_edits_and_batches<F: StoreFormat>()
    ensures { (store : List ℕ) → CrashesCutStores store F.cmp F.is_table }
{}

/// Where all that is read is kept, or no store is there, a crash takes nothing away. Kept files
/// hold each history that their contents match, up to the contents' own last number.
pub fn what_is_kept_is_safe<F: StoreFormat>()
    ensures kept { (store : List ℕ) → KeptIsSafe store F.cmp F.is_table F.allowed }
    ensures holds { (store : List ℕ) → KeptHolds store F.cmp F.is_table F.allowed }
    ensures none { (store : List ℕ) → NoStoreIsSafe store F.cmp F.is_table F.allowed }
{}

/// However files are read: an honest crash leaves files that hold a prefix of the history, all of
/// it durable. What is held where some stores are allowed is held where more are, and where only
/// those are that can be read.
pub fn held_histories_carry_over<R: Reading>()
    ensures crash { (store : List ℕ) → CrashesHold store R.reads R.allowed }
    ensures wider { (store : List ℕ) → WiderHolds store R.reads R.allowed R.others }
    ensures narrower { (store : List ℕ) → NarrowerHolds store R.reads R.allowed R.others }
{}

/// A step that keeps each history keeps what the files hold, whatever that is.
pub fn keeping_steps_hold<F: StoreFormat>()
    ensures { (store : List ℕ) → KeepingHolds store F.cmp F.is_table F.allowed }
{}

/// While a batch is appended to the last log it is pending, and then the history has it. After a
/// sync of that log the whole history is durable.
pub fn batches_are_appended_and_synced<F: StoreFormat>()
    ensures append { (store : List ℕ) → BatchesAppend store F.cmp F.is_table F.allowed }
    ensures sync { (store : List ℕ) → SyncMakesDurable store F.cmp F.is_table F.allowed }
{}

/// After a batch is appended or the last log is synced, the next batch may be appended; after an
/// edit is appended the manifest has it, and the next one may be.
pub fn logs_and_manifests_stay_open<F: StoreFormat>()
    ensures batch { (store : List ℕ) → BatchesStayWritable store F.cmp F.is_table }
    ensures sync { (store : List ℕ) → SyncsStayWritable store F.cmp F.is_table }
    ensures edit { (store : List ℕ) → EditsStayOpen store F.cmp F.is_table }
{}

/// A store is read by the edits of its manifest. A sync of any file, a new log and any change of a
/// file that isn't read leave the same store, by the same edits.
pub fn steps_leave_the_same_store<F: StoreFormat>()
    ensures read { (store : List ℕ) → ReadByEdits store F.cmp F.is_table }
    ensures sync { (store : List ℕ) → SameAfterSyncs store F.cmp F.is_table }
    ensures log { (store : List ℕ) → SameAfterNewLogs store F.cmp F.is_table }
    ensures unread { (store : List ℕ) → SameAfterUnread store F.cmp F.is_table }
{}

/// After the rename onto `CURRENT` the new manifest is kept, and open where it ends cleanly; where
/// it is the first one, all that is read of the new store is kept.
pub fn renames_open_manifests<F: StoreFormat>()
    ensures opened { (store : List ℕ) → RenamesOpen store F.cmp F.is_table }
    ensures first { (store : List ℕ) → FirstCurrentIsKept store F.cmp F.is_table }
{}

/// After each call that changes files, what was appended to each file are bytes as before.
pub fn files_stay_bytes()
    ensures { BytesStay }
{}

/// A sync of any file and a new log keep each history, at every moment.
pub fn syncs_and_new_logs_keep_histories<F: StoreFormat>()
    ensures sync { (store : List ℕ) → SyncsKeep store F.cmp F.is_table F.allowed }
    ensures log { (store : List ℕ) → NewLogsKeep store F.cmp F.is_table F.allowed }
{}

/// So does all that is done to a file that isn't read.
pub fn unread_files_may_change<F: StoreFormat>()
    ensures keeps { (store : List ℕ) → UnreadKeeps store F.cmp F.is_table F.allowed }
    ensures stays { (store : List ℕ) → UnreadStays store F.cmp F.is_table }
{}

/// Files that aren't read: a temporary one, a manifest where `CURRENT` is missing, a file that is
/// missing itself, one that no edit names any more.
pub fn which_files_are_unread<F: StoreFormat>()
    ensures others { (store : List ℕ) → OthersAreUnread store F.cmp F.is_table }
    ensures manifests { (store : List ℕ) → ManifestsAreUnread store F.cmp F.is_table }
    ensures missing { (store : List ℕ) → MissingIsUnread store F.cmp F.is_table F.allowed }
    ensures obsolete { (store : List ℕ) → ObsoleteIsUnread store F.cmp F.is_table }
{}

/// An edit that comes to the manifest keeps each history, at every moment, if it changes nothing
/// that is shown.
pub fn edits_keep_histories<F: StoreFormat>()
    ensures { (store : List ℕ) → EditAppendsKeep store F.cmp F.is_table F.allowed }
{}

/// Which edits change nothing that is shown: one that swaps tables for others, one that has tables
/// in place of logs, and a snapshot in place of all before it. What refines other edits refines all
/// that those refine.
pub fn edits_that_change_nothing_shown<F: StoreFormat>()
    ensures swap { (store : List ℕ) → SwapsRefine store F.cmp F.is_table }
    ensures switch { (store : List ℕ) → SwitchesRefine store F.cmp F.is_table }
    ensures snapshot { (store : List ℕ) → FullEditsRefine store F.cmp F.is_table }
    ensures onwards { (store : List ℕ) → EditsRefineOnwards store F.cmp F.is_table }
    ensures tables { (store : List ℕ) → EditsLeaveTables store F.cmp F.is_table }
{}

/// The rename onto `CURRENT` keeps each history on either side, where another manifest takes the
/// place of the one in use and where it is the first.
pub fn renames_keep_histories<F: StoreFormat>()
    ensures next { (store : List ℕ) → RenamesKeep store F.cmp F.is_table F.allowed }
    ensures first { (store : List ℕ) → FirstCurrentKeeps store F.cmp F.is_table F.allowed }
{}

/// In a safe store `CURRENT` and all live tables are kept, since a crash could spoil them.
pub fn safe_stores_keep_what_they_read<F: StoreFormat>()
    ensures tables { (store : List ℕ) → SafeTablesAreKept store F.cmp F.is_table F.allowed }
    ensures current { (store : List ℕ) → SafeCurrentIsKept store F.cmp F.is_table F.allowed }
{}

/// Steps after one another are as safe as each is for its part.
pub fn steps_compose<F: StoreFormat, E: Env>()
    ensures part { (store : List ℕ)
        → PartsAreSafe store (IsStore store F.cmp F.is_table) F.allowed }
    ensures both { (store : List ℕ)
        → StepsCompose E.Env store (IsStore store F.cmp F.is_table) F.allowed }
{}
