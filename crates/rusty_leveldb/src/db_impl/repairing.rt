//! Repairing a store whose files are lost or damaged.
// LevelDB: db/repair.cc, RepairDB
ghost use Rattle.leveldb_store.specs.Tables.BuildTable.{choices_of};
ghost use Rattle.rusty_leveldb.specs.Engines.Engine.{opening_of};
ghost use Rattle.rusty_leveldb.specs.Repairs.Repair.{Repairs};

use super::close::give_back;
use super::names::check_name;
use leveldb_base::cmp::{Cmp, InternalKeyCmp, UserCmp};
use leveldb_base::error::Result;
use leveldb_base::names::lock_file_name;
use leveldb_env::compressor::{CompressorList, Compressors};
use leveldb_env::env::Env;
use leveldb_env::filter::{FilterPolicy, InternalFilterPolicy};
use leveldb_env::options::Options;
use leveldb_repair::repair_store::repair_store;
use std::alloc::Global;

/// Makes a store of all that is found in the folder of this name, which isn't empty and doesn't end
/// in a slash: the entries of every table that is readable, and of every log as far as it is read,
/// named by a manifest or not. No version of a key is added or left out. They are in new tables of
/// level 1, which a new manifest names, and `CURRENT` names that. Nothing is deleted: the next
/// opening does that.
///
/// The store's lock is held meanwhile, and given back however the call ends. The folder is made
/// where it is missing. Whether a store must be there, or may be, the options don't say to a
/// repair.
///
/// | Code | When |
/// |---|---|
/// | `OutOfMemory` | memory ran out |
/// | that of the environment | a call of the device failed; so too where all was repaired, and then the lock wasn't given back |
/// | `LockError` | the lock is held |
/// | `InvalidArgument` | the name or an option doesn't fit; or neither a table nor a log is there |
/// | `NotSupported` | numbers of files are used up, what is found is too great, or a block's or new tables' compressor isn't set |
/// | that of a compressor | it failed for a block |
/// | `Corruption` | two entries that are found have one key and number, and differ |
///
/// Where the lock is held, or what was looked at isn't repaired for a cause of this table, no file
/// has changed, but that the lock's may be made; after numbers or a compressor that fail while
/// tables are written, some of these may be there. After any other error, and wherever a crash
/// came, the files hold what they held, or what was found. Another repair finds the same after an
/// Ok; so it does after an error, where no table is readable of which only a part was written, and
/// after a crash, if that made up no table either, and all bytes of the files had been synced.
pub fn repair<E: Env, C: UserCmp + Copy, FP: FilterPolicy + Copy>(
    alloc: Global,
    name: &str,
    env: &mut E,
    opt: Options<C, FP>,
) -> Result<()>
    ensures { let codings = ⟦<CompressorList as Compressors>⟧.codings in
        Repairs E.Env name.now (opening_of C.Cmp FP.FilterPolicy codings opt) env.old
        (choices_of C.Cmp FP.FilterPolicy ⟦<InternalKeyCmp<C> as Cmp>⟧
        ⟦<InternalFilterPolicy<FP> as FilterPolicy>⟧ codings opt) result env.new }
{
    check_name(alloc, name)?;
    opt.check(alloc)?;
    let lock = lock_file_name(alloc, name)?;
    env.mkdir(name)?;
    env.lock(&lock)?;
    let mut options = opt;
    let mut log = options.log.take();
    let repaired = repair_store(alloc, env, name, &options, &mut log);
    let given_back = give_back(env, &lock);
    repaired?;
    given_back
}
