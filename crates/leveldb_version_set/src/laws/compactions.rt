//! Laws of compactions: which files they may take, what they keep of levels and views, that their
//! edits may be logged, and what they do about inputs that contradict their edits.
ghost use Rattle.std.specs.Prelude.{ℕ, List};
ghost use Rattle.leveldb_env.specs.Compressor.{Codings};
ghost use Rattle.leveldb_version_set.specs.Compactions.Choosing.{ChoicesGoBySets, ChosenMayBeCompacted, EditedFilesStayApart, FilesAreEdited, WidenedAreClosed};
ghost use Rattle.leveldb_version_set.specs.Compactions.CompactionEdit.{CompactionEditsFit, CompactionsAreLogged, EditsAreLogged, LiveTablesAreKnown, MadeOutputsCompact, MovesCompact};
ghost use Rattle.leveldb_version_set.specs.Compactions.CompactionLaws.{CompactedFilesStayApart, CompactionsKeepViews, CutsAreApart, CutsGrow, DropsGoBySets, FewerTablesFit, InputsAreTables, KeysAreCut, OneMergeIsLeft, OutputsLieWithin, RangesTellBaseLevel, ReplacedTablesExist, ThinnedTablesDropAll};
ghost use Rattle.leveldb_version.specs.Versions.DeeperLevels.{TestTellsBaseLevel};
ghost use Rattle.leveldb_version_set.specs.Compactions.Contradictions.{AgreeOrContradict, AgreedFilesLieWithin, CutFilesAreApart, TablesAgreeWithEdits};
ghost use Rattle.leveldb_version_set.specs.Compactions.Replacing.{ReplacingRefines, SwapsReplace, SwitchesReplace};
ghost use Rattle.leveldb_version.specs.Versions.Scores.{ScoresTellLevel};
ghost use Rattle.leveldb_version_set.specs.Compactions.ShownFrom.{CompactionsKeepShown, ShownIsKept};
ghost use Rattle.leveldb_version.specs.Walks.WalksBeside.{WalksStayBeside};

use leveldb_base::cmp::{Cmp, InternalKeyCmp, UserCmp};
use leveldb_env::env::Env;
use leveldb_env::filter::FilterPolicy;
use leveldb_files::laws::stores::StoreFormat;

/// A compaction keeps the order of levels, and all entries show the same after it, from the
/// smallest held number on. So does a table that is moved to the next level.
pub fn compactions_keep_levels_and_views()
    ensures { CompactionsKeepViews }
{}

/// A key that is in the range of no deeper file is in no deeper table, and a test finds that out.
pub fn ranges_tell_base_levels()
    ensures tables { RangesTellBaseLevel }
    ensures test { TestTellsBaseLevel }
{}

/// Outputs with what the rule leaves of merged inputs have dropped exactly what may go, and no
/// other set of entries has.
pub fn merged_tables_drop_what_may_go()
    ensures sets { DropsGoBySets }
    ensures all { ThinnedTablesDropAll }
    ensures one { OneMergeIsLeft }
{}

/// The files of each level stay apart where outputs are apart and lie within the inputs, and over
/// tables they lie there.
pub fn compacted_files_stay_apart()
    ensures within { OutputsLieWithin }
    ensures apart { CompactedFilesStayApart }
    ensures edited { EditedFilesStayApart }
    ensures files { FilesAreEdited }
{}

/// Outputs that are cut where the user key changes are apart.
pub fn outputs_are_cut_between_keys()
    ensures apart { CutsAreApart }
    ensures grow { CutsGrow }
    ensures keys { KeysAreCut }
{}

/// The tables of which the laws of compactions speak exist, and some of them fit as all do.
pub fn compacted_tables_exist()
    ensures inputs { InputsAreTables }
    ensures after { ReplacedTablesExist }
    ensures fewer { FewerTablesFit }
{}

/// An edit that has tables in the place of tables and logs changes nothing that is shown. One that
/// swaps tables is such an edit, and so is one that has tables in the place of logs.
pub fn replaced_tables_show_the_same<F: StoreFormat>()
    ensures refines { (store : List ℕ) → ReplacingRefines store F.cmp F.is_table }
    ensures swaps { (store : List ℕ) → SwapsReplace store F.cmp F.is_table }
    ensures switches { (store : List ℕ) → SwitchesReplace store F.cmp F.is_table }
{}

/// A compaction's edit may be logged once its outputs are kept, where `imm` has no entries: every
/// history is kept at each moment, and the store is written on with the same memory. So may the
/// edit that moves a table.
pub fn compactions_are_logged<F: StoreFormat>()
    ensures edits { (store : List ℕ) → EditsAreLogged store F.cmp F.is_table F.allowed }
    ensures outputs { (store : List ℕ) → MadeOutputsCompact store F.cmp F.is_table }
    ensures moved { (store : List ℕ) → MovesCompact store F.cmp F.is_table }
    ensures logged { (store : List ℕ) → CompactionsAreLogged store F.cmp F.is_table F.allowed }
    ensures known { (store : List ℕ) → LiveTablesAreKnown store F.cmp F.is_table }
{}

/// A compaction's edit can be written where its numbers and levels fit.
pub fn compaction_edits_fit()
    ensures { CompactionEditsFit }
{}

/// What is shown before a compaction is shown after it, from the smallest held number on; and calls
/// that keep that can follow one another.
pub fn compacted_tables_show_the_same<F: StoreFormat>()
    ensures keeps { CompactionsKeepShown F.cmp }
    ensures kept { ShownIsKept F.cmp }
{}

/// Files may be compacted that are chosen so: of one level, closed if it is level 0, with those
/// that overlap them in the next.
pub fn chosen_files_may_be_compacted()
    ensures chosen { ChosenMayBeCompacted }
    ensures widened { WidenedAreClosed }
    ensures sets { ChoicesGoBySets }
{}

/// The level that asks for a compaction is the first of greatest score, where that is 1 or more.
pub fn scores_tell_the_level()
    ensures { ScoresTellLevel }
{}

/// Walks over tables stay where they are while files change that they can't open.
pub fn walks_stay_beside_new_tables<E: Env, C: UserCmp, FP: FilterPolicy, K>()
    ensures { (codings : K → Codings) → WalksStayBeside ⟦<InternalKeyCmp<C> as Cmp>⟧ E.Env C.Cmp
        FP.FilterPolicy codings }
{}

/// What is read of a compaction's inputs agrees with the edits that added them, or a key
/// contradicts these. Tables always agree; and files that are made of what agrees, and cut between
/// user keys, lie within the inputs and are apart, whatever is in them.
pub fn inputs_agree_with_their_edits()
    ensures one { AgreeOrContradict }
    ensures tables { TablesAgreeWithEdits }
    ensures within { AgreedFilesLieWithin }
    ensures apart { CutFilesAreApart }
{}
