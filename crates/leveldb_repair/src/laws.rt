//! Laws of repairs of a store's files.
ghost use Rattle.std.specs.Prelude.{ℕ, List};
ghost use Rattle.leveldb_repair.specs.RepairLaws.{AnotherRepairChangesNothing, CrashLeavesFound, CrashesInsideLeaveFound, MomentsLeaveFound, RepairLeavesFound};
ghost use Rattle.leveldb_store.specs.Tables.BuildTable.{choices_of};

use leveldb_base::cmp::{Cmp, InternalKeyCmp, UserCmp};
use leveldb_env::compressor::{CompressorList, Compressors};
use leveldb_env::filter::{FilterPolicy, InternalFilterPolicy};
use leveldb_env::options::Options;

/// Of the files that a repair left the same entries are found as of the files before it, and of
/// what a crash leaves of them, too. So another repair makes a store of the same entries, which
/// shows the same at every number.
pub fn repairs_find_the_same()
    ensures found { (store : List ℕ) → RepairLeavesFound store }
    ensures crash { (store : List ℕ) → CrashLeavesFound store }
    ensures again { (store : List ℕ) → AnotherRepairChangesNothing store }
{}

/// At each moment of a repair with these options, and after one that failed, the same entries are
/// found as of the files before it, if no table is readable of which only a part is there. So they
/// are of what a crash leaves, where all bytes of these files were kept, if it makes up no table.
pub fn repairs_lose_nothing_on_the_way<C: UserCmp + Copy, FP: FilterPolicy + Copy>(
    options: &Options<C, FP>,
)
    ensures meanwhile { (store : List ℕ) → MomentsLeaveFound (choices_of C.Cmp FP.FilterPolicy
        ⟦<InternalKeyCmp<C> as Cmp>⟧ ⟦<InternalFilterPolicy<FP> as FilterPolicy>⟧
        ⟦<CompressorList as Compressors>⟧.codings options.now) store }
    ensures crash { (store : List ℕ) → CrashesInsideLeaveFound (choices_of C.Cmp FP.FilterPolicy
        ⟦<InternalKeyCmp<C> as Cmp>⟧ ⟦<InternalFilterPolicy<FP> as FilterPolicy>⟧
        ⟦<CompressorList as Compressors>⟧.codings options.now) store }
{}
