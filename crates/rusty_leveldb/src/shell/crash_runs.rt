//! Runs of commands on a device that records its calls, with crashes between them.
ghost use Rattle.std.specs.Prelude.{◌≡◌, ◌≤◌, ◌+◌, ◌⊎◌, IfOk, IfErr};
ghost use Rattle.leveldb_base.specs.Error.{IsOutOfMemory};
ghost use Rattle.leveldb_env.specs.Picks.{tails_of};
ghost use Rattle.leveldb_disks.specs.Record.{moment_of, CanCrashTo};
ghost use Rattle.rusty_leveldb.specs.Engines.Engine.{opening_of};
ghost use Rattle.leveldb_store.specs.Tables.BuildTable.{choices_of};
ghost use Rattle.rusty_leveldb.specs.Programs.Lives.{IsAlwaysLife, IsCrash, ReportsLives};
ghost use Rattle.rusty_leveldb.specs.Programs.RunCalls.{LivesByCalls};
ghost use Rattle.rusty_leveldb.specs.Programs.Story.{SaysLived, SaysLives};
ghost use Rattle.rusty_leveldb.specs.Engines.Witness.{stored};
ghost use Rattle.leveldb_files.specs.Stores.Format.{format_of};

use super::commands::{Command, Reply};
use super::runs::answer;
use crate::db_impl::Engine;
use leveldb_base::cmp::{Cmp, InternalKeyCmp, UserCmp};
use leveldb_base::error::{Result, StatusCode, err};
use leveldb_disks::mem_env::{Pick, RecordEnv};
use leveldb_env::compressor::{CompressorList, Compressors};
use leveldb_env::env::Env;
use leveldb_env::filter::{FilterPolicy, InternalFilterPolicy};
use leveldb_env::options::Options;
use std::alloc::Global;

/// A life of a store: how it is opened, its commands, and the crash that ends it, if one does.
#[derive(Drop)]
pub struct Life<C, FP> {
    pub options: Options<C, FP>,
    pub commands: Vec<Command>,
    /// The moment of the crash, counted from the life's start.
    pub moment: Option<u64>,
    /// What the crash leaves.
    pub pick: Pick,
    /// The call that fails, 1 being the life's first, and whether its change is made.
    pub fail: Option<(u64, bool)>,
}

/// What a life returned.
#[derive(Drop)]
pub struct Report {
    pub opened: Result<()>,
    /// Each reply with the moment at which it was given, counted from the life's start.
    pub replies: Vec<(u64, Reply)>,
}

/// Opens a store, runs the commands one after another and abandons the store. A command that fails
/// is a reply, and so is an opening that fails a report; only the memory of the replies can be
/// missing.
pub fn live<C: UserCmp + Copy, FP: FilterPolicy + Copy>(
    alloc: Global,
    env: &mut RecordEnv,
    name: &str,
    options: Options<C, FP>,
    commands: &[Command],
) -> Result<Report>
    ensures story { IfOk result (λ report. SaysLived ⟦<RecordEnv as Env>⟧ stored name.now
        (format_of C.Cmp FP.FilterPolicy ⟦<CompressorList as Compressors>⟧.codings options)
        commands.now env.old report env.new) }
    ensures life { IfOk result (λ report. IsAlwaysLife ⟦<RecordEnv as Env>⟧ name.now env.old
        (opening_of C.Cmp FP.FilterPolicy ⟦<CompressorList as Compressors>⟧.codings options)
        commands.now report env.new) }
    ensures calls { let codings = ⟦<CompressorList as Compressors>⟧.codings in
        IfOk result (λ report. LivesByCalls ⟦<RecordEnv as Env>⟧ (choices_of C.Cmp FP.FilterPolicy
        ⟦<InternalKeyCmp<C> as Cmp>⟧ ⟦<InternalFilterPolicy<FP> as FilterPolicy>⟧ codings) name.now
        options (opening_of C.Cmp FP.FilterPolicy codings options) commands.now env.old report
        env.new) }
    ensures time { moment_of env.old ≤ moment_of env.new }
    ensures error { IfErr result (λ e. IsOutOfMemory e × (env.new ≡ env.old)) }
{
    let start = env.moment();
    let mut replies = Vec::new(alloc);
    replies.reserve(commands.len())?;
    let mut engine = match Engine::open(alloc, name, env, options) {
        Ok(engine) => engine,
        Err(status) => {
            return Ok(Report {
                opened: Err(status),
                replies,
            });
        }
    };
    let mut taken = Vec::new(alloc);
    for command in commands {
        let reply = answer(alloc, &mut engine, env, &mut taken, command);
        replies.push((env.moment() - start, reply)).unwrap();
    }
    let _ = engine.abandon(env);
    Ok(Report {
        opened: Ok(()),
        replies,
    })
}

/// Runs lives of the store under this name, from an empty device on. Each runs to its end; the next
/// begins on the device as it is then, or on what the life's crash at its moment leaves.
///
/// `InvalidArgument` where a crash can't be: its moment is still to come, or no crash leaves what
/// its pick says.
pub fn lives<C: UserCmp + Copy, FP: FilterPolicy + Copy>(
    alloc: Global,
    name: &str,
    lives: Vec<Life<C, FP>>,
) -> Result<Vec<Report>>
    ensures story { IfOk result (λ reports. SaysLives ⟦<RecordEnv as Env>⟧ stored
        (format_of C.Cmp FP.FilterPolicy ⟦<CompressorList as Compressors>⟧.codings) name.now
        lives.items reports.items) }
    ensures reports { ReportsLives ⟦<RecordEnv as Env>⟧ C.Cmp FP.FilterPolicy
        ⟦<CompressorList as Compressors>⟧.codings ⟦<InternalKeyCmp<C> as Cmp>⟧
        ⟦<InternalFilterPolicy<FP> as FilterPolicy>⟧ name.now lives.items result }
{
    let mut env = RecordEnv::new(alloc);
    let mut reports = Vec::new(alloc);
    reports.reserve(lives.len())?;
    for life in lives {
        let Life {
            options,
            commands,
            moment,
            pick,
            fail,
        } = life;
        let start = env.moment();
        let (nth, done) = fail.unwrap_or((0, false));
        env.fail(nth, done);
        let report = live(alloc, &mut env, name, options, &commands)?;
        if let Some(moment) = moment {
            env = left_at(alloc, &env, start, moment, &pick)?;
        }
        reports.push(report).unwrap();
    }
    Ok(reports)
}

// What a crash leaves at a moment of a life.
fn left_at(
    alloc: Global,
    env: &RecordEnv,
    start: u64,
    moment: u64,
    pick: &Pick,
) -> Result<RecordEnv>
    ensures crash { IfOk result (λ left. IsCrash env.now (start + moment) pick.now left) }
    ensures error { IfErr result (λ e. IsOutOfMemory e ⊎ ((e.code ≡ StatusCode.InvalidArgument)
        × (CanCrashTo env.now (start + moment) pick.now.after (tails_of pick.now.tails.items)
        → ⊥))) }
{
    match start.checked_add(moment) {
        Some(at) => env.disk_at(alloc, at, pick),
        None => err(
            alloc,
            StatusCode::InvalidArgument,
            "that moment is still to come",
        ),
    }
}
