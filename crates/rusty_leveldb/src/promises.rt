//! The laws of the store's machine, as contracts of functions that do nothing.

ghost use Rattle.rusty_leveldb.specs.Compactions.CompactionLaws.{AreViewsInTables};
ghost use Rattle.rusty_leveldb.specs.Engines.CallLaws.{RefusalsAreExplained};
ghost use Rattle.rusty_leveldb.specs.Engines.Witness.{AreShownBy, EachOpeningSays, shown_by, stored};
ghost use Rattle.rusty_leveldb.specs.Says.{IsShowing};
ghost use Rattle.rusty_leveldb.specs.HeadlineLaws.{AbandonedIsWhole, BatchIsLeftWhole, BatchesAreReadWhole, DurableIsKept, ForwardWalkGivesMap, LaterEntryWins, PrevLeadsBack, SnapshotReadsTheSame};
ghost use Rattle.rusty_leveldb.specs.Walks.Iterator.{ScanGivesPairs};
ghost use Rattle.rusty_leveldb.specs.Walks.IteratorLaws.{PrevUndoesNext};
ghost use Rattle.rusty_leveldb.specs.Machines.Laws.{OneReading, NothingStands, CrashBetween, CrashInside, CrashSince, RefusalHasCause, StepFits, CrashFits, CrashInsideFits, LivesFit, DurableStays, SyncedStays, EachAnswerParts, HistoryIsAsked, HistoryIsPlaced, MoreIsAsked, LongItemMakesLongBatch, SyncedIsRead, ViewsStay, HeldStays, SnapshotIsRead, ForwardWalkGivesView, PrevUndoesAdvance, SyncedCanBeFound};
ghost use Rattle.rusty_leveldb.specs.Machines.Shown.{StepsAreRows, LivesAreStories, RunsAreStories, RepairsAreShown};
ghost use Rattle.leveldb_store.specs.Tables.BuildTable.{choices_of};
ghost use Rattle.rusty_leveldb.specs.Openings.ReadAloneLaws.{ReadingKeepsStates, ReadsWhatOpens};
ghost use Rattle.rusty_leveldb.specs.Repairs.RepairLaws.{AnotherRepairFindsTheSame, CrashSinceRepair, CrashesOfRepairsLoseNothing, OpensWhatRepairFound, RepairFindsWhatOpens, RepairsLoseNothing};

use leveldb_base::cmp::{Cmp, InternalKeyCmp, UserCmp};
use leveldb_env::compressor::{CompressorList, Compressors};
use leveldb_env::env::Env;
use leveldb_env::filter::{FilterPolicy, InternalFilterPolicy};
use leveldb_env::options::Options;
use leveldb_iter::walk::Walk;
use leveldb_version::table_cache::{ReadTables, ReadsTables};

/// The machine is maps. Each step of it is a row of the headline (`specs/Headline.antt`) between
/// stores that its states show. So lives, with their crashes, are told by a story, from any state
/// that shows a store, and from where no store is yet. A store that was repaired shows one of one
/// batch, from which lives go on.
pub fn machines_are_maps()
    ensures steps { StepsAreRows }
    ensures lives { LivesAreStories }
    ensures runs { RunsAreStories }
    ensures repaired { RepairsAreShown }
{}

/// The relations by which each call of `DB` says what it does have their laws: an empty folder
/// holds the store of no batch, what a disk holds is closed, and a crash between two calls leaves a
/// crash row of what is shown or held. So have those by which runs and lives say it; of disks and
/// crashes they are the same. And `Engine::open` says what `DB::open` does, of the environment that
/// it is given.
pub fn stores_are_shown<E: Env, C: UserCmp + Copy, FP: FilterPolicy + Copy>(
    options: &Options<C, FP>,
)
    ensures laws { AreShownBy options.now (shown_by ⟦<InternalKeyCmp<C> as Cmp>⟧ E.Env C.Cmp
        FP.FilterPolicy ⟦<CompressorList as Compressors>⟧.codings) }
    ensures disks { IsShowing stored }
    ensures opens { let codings = ⟦<CompressorList as Compressors>⟧.codings in
        EachOpeningSays E.Env (choices_of C.Cmp FP.FilterPolicy ⟦<InternalKeyCmp<C> as Cmp>⟧
        ⟦<InternalFilterPolicy<FP> as FilterPolicy>⟧ codings) options.now
        (shown_by ⟦<InternalKeyCmp<C> as Cmp>⟧ E.Env C.Cmp FP.FilterPolicy codings) }
{}

/// A batch is atomic: all look-ups and walks, now or at one snapshot, see the same first batches,
/// each of them whole; and one whose write a crash cuts short is there whole afterwards, or not at
/// all. In a batch the later entry of a key wins.
pub fn batches_are_atomic()
    ensures reads { BatchesAreReadWhole }
    ensures recovery { BatchIsLeftWhole }
    ensures later { LaterEntryWins }
{}

/// What is durable stays, whatever calls and crashes come. After an open store is abandoned and
/// opened again, all of its batches are there.
pub fn durable_maps_are_kept()
    ensures durable { DurableIsKept }
    ensures abandoned { AbandonedIsWhole }
{}

/// A look-up at a snapshot that is held finds the same before and after writes and compactions.
pub fn held_snapshots_read_the_same()
    ensures { SnapshotReadsTheSame }
{}

/// A walk that goes forward gives each pair of the map, each key once, and ends. A move back after
/// one forward leads to where the walk was.
pub fn walks_give_the_map()
    ensures forward { ForwardWalkGivesMap }
    ensures back { PrevLeadsBack }
{}

/// What a store's files hold is determined, so a store can't choose what it recovers. And a disk
/// on which no store is yet is one from which a store's life may begin.
pub fn files_have_one_reading()
    ensures one { OneReading }
    ensures none { NothingStands }
{}

/// What a store shows that is read alone is what an opening finds then, in the history and in the
/// last number, if it is opened with these options; and after it the disk represents what it did.
pub fn what_is_read_alone_is_what_an_opening_finds<
    E: Env,
    C: UserCmp + Copy,
    FP: FilterPolicy + Copy,
>(options: &Options<C, FP>)
    ensures shows { ReadsWhatOpens E.Env (choices_of C.Cmp FP.FilterPolicy
        ⟦<InternalKeyCmp<C> as Cmp>⟧ ⟦<InternalFilterPolicy<FP> as FilterPolicy>⟧
        ⟦<CompressorList as Compressors>⟧.codings) options.now }
    ensures keeps { ReadingKeepsStates E.Env }
{}

/// Wherever an honest crash comes since a repair began, what is left represents a state that a
/// crash leaves of the one that the disk represented, or of the set of entries that was found; if
/// the repair has these options.
pub fn crashes_of_repairs_leave_the_old_or_the_found<
    E: Env,
    C: UserCmp + Copy,
    FP: FilterPolicy + Copy,
>(options: &Options<C, FP>)
    ensures { CrashSinceRepair E.Env (choices_of C.Cmp FP.FilterPolicy
        ⟦<InternalKeyCmp<C> as Cmp>⟧ ⟦<InternalFilterPolicy<FP> as FilterPolicy>⟧
        ⟦<CompressorList as Compressors>⟧.codings options.now) }
{}

/// An opening after a repair that was Ok finds the set of entries that was found of the files: it
/// is the whole history, and the last number is its greatest. And of a store with no table and no
/// log beside those that it reads, what a repair finds shows what an opening finds.
pub fn what_a_repair_finds_is_opened<E: Env, C: UserCmp + Copy, FP: FilterPolicy + Copy>(
    options: &Options<C, FP>,
)
    ensures opens { OpensWhatRepairFound E.Env (choices_of C.Cmp FP.FilterPolicy
        ⟦<InternalKeyCmp<C> as Cmp>⟧ ⟦<InternalFilterPolicy<FP> as FilterPolicy>⟧
        ⟦<CompressorList as Compressors>⟧.codings) options.now }
    ensures whole { RepairFindsWhatOpens E.Env (choices_of C.Cmp FP.FilterPolicy
        ⟦<InternalKeyCmp<C> as Cmp>⟧ ⟦<InternalFilterPolicy<FP> as FilterPolicy>⟧
        ⟦<CompressorList as Compressors>⟧.codings) options.now }
{}

/// Another repair with these options, of what one that was Ok left, finds what that one found:
/// after it the disk represents what it did, so that no map changes.
pub fn another_repair_finds_the_same<E: Env, C: UserCmp + Copy, FP: FilterPolicy + Copy>(
    options: &Options<C, FP>,
)
    ensures { AnotherRepairFindsTheSame E.Env (choices_of C.Cmp FP.FilterPolicy
        ⟦<InternalKeyCmp<C> as Cmp>⟧ ⟦<InternalFilterPolicy<FP> as FilterPolicy>⟧
        ⟦<CompressorList as Compressors>⟧.codings options.now) }
{}

/// So does another repair after one with these options that failed, and after a crash that came
/// since one began, where all bytes of the files before it were kept: the same entries are found as
/// before it, if no table is readable of which only a part is there, and the crash made up none.
pub fn repairs_lose_nothing<E: Env, C: UserCmp + Copy, FP: FilterPolicy + Copy>(
    options: &Options<C, FP>,
)
    ensures after { RepairsLoseNothing E.Env (choices_of C.Cmp FP.FilterPolicy
        ⟦<InternalKeyCmp<C> as Cmp>⟧ ⟦<InternalFilterPolicy<FP> as FilterPolicy>⟧
        ⟦<CompressorList as Compressors>⟧.codings options.now) }
    ensures crash { CrashesOfRepairsLoseNothing E.Env (choices_of C.Cmp FP.FilterPolicy
        ⟦<InternalKeyCmp<C> as Cmp>⟧ ⟦<InternalFilterPolicy<FP> as FilterPolicy>⟧
        ⟦<CompressorList as Compressors>⟧.codings options.now) }
{}

/// Wherever an honest crash comes, between two requests or at a safe moment inside one, it leaves
/// a store from which the next life begins: a prefix of the batches handed on, whole ones only,
/// with all that was durable; and so again if the next life is cut short.
pub fn crashes_leave_a_prefix()
    ensures between { CrashBetween }
    ensures inside { CrashInside }
{}

/// What the moments of a call say, which are part of each call's contract, over any environment:
/// wherever an honest crash comes since the call began, inside it or at its end, what is left
/// carries a prefix of the history and the call's pending batch, whole batches only, with all
/// that was durable as the call began.
pub fn crashes_since_entry_leave_a_prefix<E: Env>()
    ensures { CrashSince E.Env }
{}

/// A refused request has one of the causes, each with its condition, or the store was closed, or
/// it broke earlier. What was too large no state of the machine shows: where that is the cause of a
/// refused write, compaction, or opening with these options, the call's own record has the reason.
pub fn refusals_have_causes<E: Env, C: UserCmp + Copy, FP: FilterPolicy + Copy>(
    options: &Options<C, FP>,
)
    ensures machine { RefusalHasCause }
    ensures calls { RefusalsAreExplained E.Env (choices_of C.Cmp FP.FilterPolicy
        ⟦<InternalKeyCmp<C> as Cmp>⟧ ⟦<InternalFilterPolicy<FP> as FilterPolicy>⟧
        ⟦<CompressorList as Compressors>⟧.codings) options.now }
{}

/// A batch is too long where a key or a value of one of its items is: so a write of such an item is
/// refused before anything is done for it (the field `misfit` of `EngineWrites`).
pub fn long_items_make_long_batches()
    ensures { LongItemMakesLongBatch }
{}

/// Every step, every crash and so every list of lives leads from a state whose numbers fit
/// together to one.
pub fn numbers_always_fit()
    ensures steps { StepFits }
    ensures crashes { CrashFits }
    ensures crashes_inside { CrashInsideFits }
    ensures lives { LivesFit }
{}

/// No life loses what was durable: whatever requests and crashes come after a synced write, a
/// flush or a close that was done, every later history begins with the one as of that answer. And
/// in a list of lives there is such a state at each answer that came before the crash.
pub fn durable_batches_stay()
    ensures durable { DurableStays }
    ensures synced { SyncedStays }
    ensures answers { EachAnswerParts }
{}

/// Nothing is in a history but batches that writes asked for, whole and in the order in which
/// they were asked for. They are placed at numbers that rise strictly, from 1 on.
pub fn histories_are_made_of_writes()
    ensures all { HistoryIsAsked }
    ensures placed { HistoryIsPlaced }
    ensures since { MoreIsAsked }
{}

/// After a synced write of a value that was done, and no later write of its key, no look-up of
/// the key, in this life or after any crashes, finds anything but that value.
pub fn synced_value_is_found()
    ensures { SyncedIsRead }
{}

/// Until the store is opened again, whatever is written: the view at each number up to the last one
/// stays, and a look-up at a snapshot finds what a look-up found when it was given out. A snapshot
/// stays held until it is released, or the store is closed.
pub fn snapshots_keep_their_view()
    ensures views { ViewsStay }
    ensures held { HeldStays }
    ensures reads { SnapshotIsRead }
{}

/// Where no entry is in memory, as after each `compact_range` that returned Ok, live tables alone
/// show the history: as it is now, and as it was at each snapshot that is held (the field
/// `by_tables` of `EngineCompacts`).
pub fn compacted_stores_show_by_tables_alone<C: UserCmp>()
    ensures { AreViewsInTables C }
{}

/// A walk that goes forward from no position on, until it is at none again, gives the view: each
/// key once, and in order. A move back after one forward leads to where the walk was.
pub fn walks_give_the_view()
    ensures forward { ForwardWalkGivesView }
    ensures back { PrevUndoesAdvance }
{}

/// A scan of an iterator that goes forward from no position, until it is at none again, is at each
/// of the pairs that it is over, in their order.
pub fn scans_give_the_pairs<
    'a,
    E: Env + 'a,
    C: UserCmp + Copy + Drop + 'a,
    FP: FilterPolicy + Copy + Drop + 'a,
    K: ReadsTables<E, C, FP> + 'a,
    V: Walk<E, ReadTables<'a, E, C, FP, K>>,
>()
    ensures { ScanGivesPairs ⟦<InternalKeyCmp<C> as Cmp>⟧ E.Env C.Cmp FP.FilterPolicy K.codings
        V.Walk }
{}

/// A move of an iterator forward and then one back lead to where it was.
pub fn moves_back_undo_moves_forward<
    'a,
    E: Env + 'a,
    C: UserCmp + Copy + Drop + 'a,
    FP: FilterPolicy + Copy + Drop + 'a,
    K: ReadsTables<E, C, FP> + 'a,
    V: Walk<E, ReadTables<'a, E, C, FP, K>>,
>()
    ensures { PrevUndoesNext ⟦<InternalKeyCmp<C> as Cmp>⟧ E.Env C.Cmp FP.FilterPolicy K.codings
        V.Walk }
{}

/// The machine's rows can be met: there are lives in which a value that was written with a sync
/// before a crash is found after it.
pub fn a_synced_write_can_be_found()
    ensures { SyncedCanBeFound }
{}
