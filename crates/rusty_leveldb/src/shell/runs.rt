//! Runs of commands.
ghost use Rattle.std.specs.Prelude.{◌≡◌, ◌⊎◌, ◌++◌, List, length, drop, map, IfOk, OnOk, IfErr};
ghost use Rattle.leveldb_base.specs.Error.{IsOutOfMemory};
ghost use Rattle.leveldb_mem.specs.WriteBatch.{with_item, IsTooLong};
ghost use Rattle.rusty_leveldb.specs.Machines.Causes.{IsLongBatch};
ghost use Rattle.rusty_leveldb.specs.Engines.Calls.{EngineWrites};
ghost use Rattle.rusty_leveldb.specs.Engines.Engine.{opening_of};
ghost use Rattle.rusty_leveldb.specs.Openings.Unopened.{OpenExcused};
ghost use Rattle.leveldb_store.specs.Tables.BuildTable.{choices_of};
ghost use Rattle.leveldb_store.specs.Writing.Room.{FailsFor};
ghost use Rattle.leveldb_store.specs.Keeping.SoundCall.{TimeGoesOn};
ghost use Rattle.rusty_leveldb.specs.Programs.RunCalls.{CallsEngine, RunsByCalls};
ghost use Rattle.rusty_leveldb.specs.Engines.Serves.{done_or, found_or};
ghost use Rattle.rusty_leveldb.specs.Machines.State as machine;
ghost use Rattle.rusty_leveldb.specs.Programs.Story.{SaysRun};
ghost use Rattle.rusty_leveldb.specs.Engines.Witness.{stored};
ghost use Rattle.leveldb_files.specs.Stores.Format.{format_of};
ghost use Rattle.rusty_leveldb.specs.Programs.Shell.{HasRun, IsReplyOf, change_of};

use super::commands::{Command, Item, Reply};
use super::views::{get_at, release, take, walk};
use crate::db_impl::Engine;
use bytes::Bytes;
use leveldb_base::cmp::{Cmp, InternalKeyCmp, UserCmp};
use leveldb_base::error::{Result, StatusCode};
use leveldb_env::compressor::{CompressorList, Compressors};
use leveldb_env::env::Env;
use leveldb_env::filter::{FilterPolicy, InternalFilterPolicy};
use leveldb_env::options::Options;
use leveldb_iter::snapshot::Snapshot;
use leveldb_mem::write_batch::WriteBatch;
use std::alloc::Global;

/// Opens a store, replies to the commands one after another, and gives back its lock if no command
/// did. A command that fails has a reply, and the run goes on. The replies come after those that
/// are there, also if the run fails: out of memory before it begins, or since the store isn't
/// opened or its lock isn't given back. A store that is locked, or is missing and isn't to be made,
/// or that has tables or logs and no `CURRENT`, or a manifest whose edits can't be used, is never
/// opened.
pub fn run<E: Env, C: UserCmp + Copy, FP: FilterPolicy + Copy>(
    env: &mut E,
    name: &str,
    opt: Options<C, FP>,
    commands: &[Command],
    replies: &mut Vec<Reply>,
) -> Result<()>
    ensures story { SaysRun E.Env stored name.now
        (format_of C.Cmp FP.FilterPolicy ⟦<CompressorList as Compressors>⟧.codings opt) commands.now
        env.old (drop (length replies.old.items) replies.new.items) result env.new }
    ensures runs { HasRun E.Env name.now (opening_of C.Cmp FP.FilterPolicy
        ⟦<CompressorList as Compressors>⟧.codings opt) commands.now env.old
        (drop (length replies.old.items) replies.new.items) result env.new }
    ensures calls { let codings = ⟦<CompressorList as Compressors>⟧.codings in
        RunsByCalls E.Env (choices_of C.Cmp FP.FilterPolicy ⟦<InternalKeyCmp<C> as Cmp>⟧
        ⟦<InternalFilterPolicy<FP> as FilterPolicy>⟧ codings) name.now opt
        (opening_of C.Cmp FP.FilterPolicy codings opt) commands.now env.old
        (drop (length replies.old.items) replies.new.items) result env.new }
    ensures after { (given : List Reply) × (replies.new.items ≡ replies.old.items ++ given)
        × OnOk result (length given ≡ length commands.now) }
    ensures time { TimeGoesOn E.Env env.old env.new }
    ensures cause { let codings = ⟦<CompressorList as Compressors>⟧.codings in
        FailsFor (OpenExcused E.Env name.now (choices_of C.Cmp FP.FilterPolicy
        ⟦<InternalKeyCmp<C> as Cmp>⟧ ⟦<InternalFilterPolicy<FP> as FilterPolicy>⟧ codings opt)
        (opening_of C.Cmp FP.FilterPolicy codings opt) env.old) (E.failures env.old)
        (E.failures env.new) result }
{
    let alloc = *replies.allocator();
    replies.reserve(commands.len())?;
    let mut engine = Engine::open(alloc, name, env, opt)?;
    let mut taken = Vec::new(alloc);
    for command in commands {
        replies
            .push(answer(alloc, &mut engine, env, &mut taken, command))
            .unwrap();
    }
    engine.abandon(env)
}

// The reply to a command, after these snapshots were taken: it tells a call of the engine.
pub(super) fn answer<E: Env, C: UserCmp + Copy, FP: FilterPolicy + Copy>(
    alloc: Global,
    engine: &mut Engine<E, C, FP>,
    env: &mut E,
    taken: &mut Vec<Snapshot>,
    command: &Command,
) -> Reply
    ensures { let choices = choices_of C.Cmp FP.FilterPolicy
        ⟦<InternalKeyCmp<C> as Cmp>⟧ ⟦<InternalFilterPolicy<FP> as FilterPolicy>⟧
        ⟦<CompressorList as Compressors>⟧.codings in
        CallsEngine E.Env choices engine.old env.old taken.old.items command.now result engine.new
        env.new taken.new.items }
{
    match command {
        Command::Put(key, value) => reply_of(engine.put(env, key, value)),
        Command::Delete(key) => reply_of(engine.delete(env, key)),
        Command::Write { sync, items } => reply_of(write(alloc, engine, env, items, *sync)),
        Command::Get(key) => looked_up(engine.get(env, key)),
        Command::Snap => match take(engine, taken) {
            Ok(number) => Reply::Snapshot(number),
            Err(status) => Reply::Refused(status),
        },
        Command::GetAt(number, key) => looked_up(get_at(engine, env, taken, *number, key)),
        Command::Release(number) => reply_of(release(engine, taken, *number)),
        Command::Walk(at, moves) => match walk(alloc, engine, env, taken, *at, moves) {
            Ok(steps) => Reply::Walk(steps),
            Err(status) => Reply::Refused(status),
        },
        Command::Compact(from, to) => reply_of(engine.compact_range(env, from, to)),
        Command::Flush => reply_of(engine.flush(env)),
        Command::Close => reply_of(engine.close(env)),
    }
}

// Done, or refused.
fn reply_of(answer: Result<()>) -> Reply
    ensures { (taken : List machine.Snapshot) → IsReplyOf taken result (done_or answer) }
{
    match answer {
        Ok(()) => Reply::Done,
        Err(status) => Reply::Refused(status),
    }
}

// What was found, or refused.
pub(super) fn looked_up(answer: Result<Option<Bytes>>) -> Reply
    ensures { (taken : List machine.Snapshot) → IsReplyOf taken result (found_or answer) }
{
    match answer {
        Ok(Some(value)) => Reply::Value(value),
        Ok(None) => Reply::Nothing,
        Err(status) => Reply::Refused(status),
    }
}

// Makes these changes together.
fn write<E: Env, C: UserCmp + Copy, FP: FilterPolicy + Copy>(
    alloc: Global,
    engine: &mut Engine<E, C, FP>,
    env: &mut E,
    items: &[Item],
    sync: bool,
) -> Result<()>
    ensures { let choices = choices_of C.Cmp FP.FilterPolicy
        ⟦<InternalKeyCmp<C> as Cmp>⟧ ⟦<InternalFilterPolicy<FP> as FilterPolicy>⟧
        ⟦<CompressorList as Compressors>⟧.codings in
        EngineWrites E.Env choices engine.old env.old (map change_of items.now) sync result
        engine.new env.new }
{
    engine.check_writable()?;
    let batch = batch_of(alloc, items)?;
    engine.write(env, batch, sync)
}

// These changes as a batch.
fn batch_of(alloc: Global, items: &[Item]) -> Result<WriteBatch>
    ensures ok { IfOk result (λ batch. batch.items ≡ map change_of items.now) }
    ensures cause { IfErr result
        (λ status. IsOutOfMemory status
        ⊎ ((status.code ≡ StatusCode.InvalidArgument) × IsLongBatch (map change_of items.now))) }
{
    let mut batch = WriteBatch::new(alloc)?;
    for item in items {
        add(&mut batch, item)?;
    }
    Ok(batch)
}

// Adds one change.
fn add(batch: &mut WriteBatch, item: &Item) -> Result<()>
    ensures ok { OnOk result (batch.new ≡ with_item batch.old (change_of item.now)) }
    ensures cause { IfErr result
        (λ status. IsOutOfMemory status
        ⊎ ((status.code ≡ StatusCode.InvalidArgument)
        × IsTooLong (with_item batch.old (change_of item.now)))) }
{
    match item {
        Item::Put(key, value) => batch.put(key, value),
        Item::Delete(key) => batch.delete(key),
    }
}
