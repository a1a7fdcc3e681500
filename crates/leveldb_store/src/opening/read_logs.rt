//! Reading the logs of a store that is read alone: all their entries come to one memtable.
ghost use Rattle.std.specs.Prelude.{◌≡◌};
ghost use Rattle.leveldb_base.specs.History.{AreUpTo};
ghost use Rattle.leveldb_store.specs.Logs.ReadLogs.{ReadsLog, ReadsLogs};

use super::replay_log::{ReplayedLog, check_empty_if_torn, check_follows};
use crate::log_replay::{LogReplay, NextBatch};
use leveldb_base::cmp::UserCmp;
use leveldb_base::error::Result;
use leveldb_base::types::FileNum;
use leveldb_env::env::Env;
use leveldb_mem::write_batch::WriteBatch;
use std::alloc::Global;
use std::collections::BTreeSet;

// Reads the logs of these numbers in rising order, each up to its first bad end. No table is made
// of them. `Corruption` if they are no logs of one store.
pub(super) fn read_logs<E: Env, C: UserCmp + Copy + Drop>(
    alloc: Global,
    env: &mut E,
    store: &str,
    cmp: C,
    numbers: BTreeSet<FileNum>,
) -> Result<ReplayedLog<C>>
    ensures { ReadsLogs E.Env store.now cmp numbers.keys env.old result env.new }
{
    let mut numbers = numbers;
    let mut logs = ReplayedLog::begun(alloc, cmp, 0, 0);
    logs.is_clean = true;
    while let Some(number) = numbers.pop_first() {
        read_log(alloc, env, store, number, &mut logs)?;
    }
    Ok(logs)
}

// Reads the next log. After one with a bad end it is empty.
fn read_log<E: Env, C: UserCmp + Copy + Drop>(
    alloc: Global,
    env: &mut E,
    store: &str,
    number: FileNum,
    logs: &mut ReplayedLog<C>,
) -> Result<()>
    requires up_to { AreUpTo logs.old.last logs.old.rest.kept.entries }
    ensures { ReadsLog E.Env store.now number logs.old env.old result logs.new env.new }
{
    let mut log = LogReplay::open(alloc, env, store, number)?;
    check_empty_if_torn(alloc, logs.is_clean, log.size())?;
    let mut batch = WriteBatch::new(alloc)?;
    'batches: loop {
        match log.next_batch(env, &mut batch)? {
            NextBatch::More => {}
            NextBatch::CleanEnd => return Ok(()),
            NextBatch::BadEnd => {
                logs.is_clean = false;
                return Ok(());
            }
        }
        check_follows(alloc, logs.last, &batch)?;
        logs.add_batch(&batch)?;
    }
}
