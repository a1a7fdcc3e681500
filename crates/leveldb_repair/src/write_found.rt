//! What was found goes to new tables, all of it.
// LevelDB: db/repair.cc, Repairer::RepairTable
ghost use Rattle.std.specs.Prelude.{◌≡◌, ◌+◌, ◌<◌, ◌^◌, ◌⊎◌, IfErr, IfOk, OnOk, true, false};
ghost use Rattle.leveldb_base.specs.Error.{IsOutOfMemory};
ghost use Rattle.leveldb_repair.specs.WriteFound.{WritesFound, versions_above};
ghost use Rattle.leveldb_store.specs.Tables.BuildTable.{choices_of};
ghost use Rattle.leveldb_store.specs.Compactions.Merging.{MovesLeaveFiles};
ghost use Rattle.leveldb_store.specs.Openings.Opening.{GivesNumbers};
ghost use Rattle.leveldb_store.specs.Writing.Switch.{AreFileNumbersTooFew};

use leveldb_base::cmp::{Cmp, InternalKeyCmp, UserCmp};
use leveldb_base::error::{Result, StatusCode, err};
use leveldb_base::types::{FileMetaData, FileNum};
use leveldb_env::compressor::{CompressorList, Compressors};
use leveldb_env::env::Env;
use leveldb_env::filter::{FilterPolicy, InternalFilterPolicy};
use leveldb_env::options::Options;
use leveldb_iter::walk::Walk;
use leveldb_store::merge_tables::{Cuts, MergePlan, merge_tables};
use leveldb_store::passing::MergeLevels;
use leveldb_version_set::version_set::VersionSet;
use std::alloc::Global;

/// A version set of no files for a store under this path, whose next number is the second one above
/// `greatest`: the first above it is left to a manifest. `NotSupported` where 64 bits don't have
/// both and one more, which the manifest has as the next number if the second is the next log's.
pub fn set_above<E: Env, C: UserCmp + Copy + Drop>(
    alloc: Global,
    store: &str,
    cmp: &C,
    greatest: FileNum,
) -> Result<VersionSet<E, C>>
    ensures ok { IfOk result
        (λ it. it ≡ versions_above store.now (C.name cmp.now) cmp.now greatest) }
    ensures fits { OnOk result (greatest + 3 < 2 ^ 64) }
    ensures cause { IfErr result (λ status. IsOutOfMemory status
        ⊎ AreFileNumbersTooFew greatest 3 status) }
{
    let mut versions = VersionSet::new(alloc, store, cmp)?;
    if greatest.checked_add(3).is_none() {
        return err(
            alloc,
            StatusCode::NotSupported,
            "the numbers of files are used up",
        );
    }
    versions.mark_file_number_used(greatest + 1)?;
    Ok(versions)
}

// Each user key is among what is written, and none is known to be in no deeper level.
#[derive(Clone, Copy)]
struct EachKey;

impl MergeLevels for EachKey {
    ghost is_base = { λ it user. false };

    ghost is_among = { λ it user. true };

    fn is_base_level_for(&self, _user: &[u8]) -> bool {
        false
    }

    fn is_among_inputs(&self, _user: &[u8]) -> bool {
        true
    }
}

// No table ends but past its size.
#[derive(Clone, Copy)]
struct NoCuts;

impl Cuts for NoCuts {
    ghost stops_before = { λ old key told new. told ≡ false };

    fn should_stop_before(&mut self, _key: &[u8]) -> bool {
        false
    }
}

/// Writes all pairs of a walk over internal keys to new tables, each as it is: these are cut
/// between user keys, past the options' `max_file_size`, and take the next numbers of `versions`.
/// Without a pair there is no table. `Corruption` where a key has no tag or isn't after the one
/// before it. After an Err some of the tables may be there, which nothing names.
pub fn write_found<
    E: Env,
    T,
    W: Walk<E, T>,
    C: UserCmp + Copy + Drop,
    FP: FilterPolicy + Copy + Drop,
>(
    alloc: Global,
    env: &mut E,
    tables: &mut T,
    walk: &mut W,
    versions: &mut VersionSet<E, C>,
    store: &str,
    options: &Options<C, FP>,
) -> Result<Vec<FileMetaData>>
    ensures writes { let choices = choices_of C.Cmp FP.FilterPolicy
        ⟦<InternalKeyCmp<C> as Cmp>⟧ ⟦<InternalFilterPolicy<FP> as FilterPolicy>⟧
        ⟦<CompressorList as Compressors>⟧.codings options.now in
        MovesLeaveFiles E.Env W.Walk
        → WritesFound choices E.Env store.now versions.old.set.next_file W.Walk
        (λ files. files.items) (env.old, tables.old) walk.old result versions.new.set.next_file
        (env.new, tables.new) }
    ensures numbers { GivesNumbers versions.old.set versions.new.set }
    ensures fits { versions.new.set.next_file < 2 ^ 64 }
{
    let levels = EachKey;
    let plan = MergePlan {
        alloc,
        store,
        options,
        levels: &levels,
        smallest: 0,
    };
    let written = merge_tables(env, tables, walk, versions, &plan, &mut NoCuts);
    // The next number has 64 bits, whatever was written.
    let _ = versions.next_file_num();
    written
}
