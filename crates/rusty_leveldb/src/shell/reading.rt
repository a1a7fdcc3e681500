//! Runs of commands over a store that is read alone.
ghost use Rattle.std.specs.Prelude.{◌≡◌, ◌≤◌, ◌++◌, List, None, OnOk, drop, length};
ghost use Rattle.leveldb_files.specs.Stores.Format.{format_of};
ghost use Rattle.leveldb_store.specs.Writing.Room.{FailsFor};
ghost use Rattle.rusty_leveldb.specs.Engines.Engine.{opening_of};
ghost use Rattle.rusty_leveldb.specs.Openings.ReadAlone.{AnswersAlone, ReadOpenExcused, ReadsOnly};
ghost use Rattle.rusty_leveldb.specs.Programs.RunAlone.{HasReadAlone, IsRefusedAlone, ReaderAnswers};
ghost use Rattle.rusty_leveldb.specs.Programs.Shell.{IsReplyOf};
ghost use Rattle.rusty_leveldb.specs.Machines.State as machine;
ghost use Rattle.rusty_leveldb.specs.Programs.Views.{steps_or};
ghost use Rattle.rusty_leveldb.specs.Walks.Walks.{walk_of};

use super::commands::{Command, Reply};
use super::runs::looked_up;
use crate::db_impl::ReadOnlyEngine;
use leveldb_base::cmp::{Cmp, InternalKeyCmp, UserCmp};
use leveldb_base::error::{Result, Status, StatusCode};
use leveldb_env::compressor::{CompressorList, Compressors};
use leveldb_env::env::Env;
use leveldb_env::filter::FilterPolicy;
use leveldb_env::options::Options;
use leveldb_iter::moves::{Move, Step};
use std::alloc::Global;

/// Opens a store to be read alone, and replies to the commands one after another: look-ups, and
/// walks over the store as it is now. Each other command is `InvalidArgument`. No file is made or
/// changed, and no lock is asked for. The replies come after those that are there. It fails out of
/// memory before it begins, or since the store isn't opened: a missing one is `InvalidArgument`,
/// whatever the options say.
pub fn run_read_only<E: Env, C: UserCmp + Copy, FP: FilterPolicy + Copy>(
    env: &mut E,
    name: &str,
    opt: Options<C, FP>,
    commands: &[Command],
    replies: &mut Vec<Reply>,
) -> Result<()>
    ensures reads { HasReadAlone E.Env name.now (opening_of C.Cmp FP.FilterPolicy
        ⟦<CompressorList as Compressors>⟧.codings opt) commands.now env.old
        (drop (length replies.old.items) replies.new.items) result env.new }
    ensures after { (given : List Reply) × (replies.new.items ≡ replies.old.items ++ given)
        × OnOk result (length given ≡ length commands.now) }
    ensures cause { FailsFor (ReadOpenExcused E.Env name.now (opening_of C.Cmp FP.FilterPolicy
        ⟦<CompressorList as Compressors>⟧.codings opt) env.old) (E.failures env.old)
        (E.failures env.new) result }
{
    let alloc = *replies.allocator();
    replies.reserve(commands.len())?;
    let mut engine = ReadOnlyEngine::open(alloc, name, env, opt)?;
    for command in commands {
        replies
            .push(answer(alloc, &mut engine, env, command))
            .unwrap();
    }
    drop(engine);
    Ok(())
}

// The reply of an engine that only reads to a command.
fn answer<E: Env, C: UserCmp + Copy, FP: FilterPolicy + Copy>(
    alloc: Global,
    engine: &mut ReadOnlyEngine<E, C, FP>,
    env: &mut E,
    command: &Command,
) -> Reply
    ensures { let formats = format_of C.Cmp FP.FilterPolicy
        ⟦<CompressorList as Compressors>⟧.codings in
        ReaderAnswers ⟦<InternalKeyCmp<C> as Cmp>⟧ E.Env formats engine.old env.old command.now
        result engine.new env.new }
{
    match command {
        Command::Get(key) => looked_up(engine.get(env, key)),
        Command::Walk(at, moves) => match at {
            None => walked(walk_over(alloc, engine, env, moves)),
            Some(_) => refused(alloc),
        },
        _ => refused(alloc),
    }
}

// Where the moves led, or refused.
fn walked(answer: Result<Vec<Step>>) -> Reply
    ensures { (taken : List machine.Snapshot) → IsReplyOf taken result (steps_or answer) }
{
    match answer {
        Ok(steps) => Reply::Walk(steps),
        Err(status) => Reply::Refused(status),
    }
}

// The reply to a command that isn't one for a store that is read alone.
fn refused(alloc: Global) -> Reply
    ensures { IsRefusedAlone result }
{
    Reply::Refused(Status::new(
        alloc,
        StatusCode::InvalidArgument,
        "the store is read alone",
    ))
}

// Where each of these moves leads.
fn walk_over<E: Env, C: UserCmp + Copy, FP: FilterPolicy + Copy>(
    alloc: Global,
    engine: &mut ReadOnlyEngine<E, C, FP>,
    env: &mut E,
    moves: &[Move],
) -> Result<Vec<Step>>
    ensures answers { let formats = format_of C.Cmp FP.FilterPolicy
        ⟦<CompressorList as Compressors>⟧.codings in
        AnswersAlone ⟦<InternalKeyCmp<C> as Cmp>⟧ E.Env formats engine.old env.old
        (walk_of None moves.now) (steps_or result) env.new }
    ensures rest { let formats = format_of C.Cmp FP.FilterPolicy
        ⟦<CompressorList as Compressors>⟧.codings in
        ReadsOnly ⟦<InternalKeyCmp<C> as Cmp>⟧ E.Env formats engine.old env.old engine.new env.new }
    ensures later { E.failures env.old ≤ E.failures env.new }
{
    let mut steps = Vec::new(alloc);
    engine.walk(env, moves, &mut steps)?;
    Ok(steps)
}
