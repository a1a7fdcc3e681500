//! The program: commands in, their replies out.
ghost use Rattle.std.specs.Prelude.{◌≡◌, ◌≤◌, ◌^◌, ◌++◌, List, Result, drop, length, IfOk, IfErr, IfSome, MatchOption, OnOk, OnErr, IsErrAnd};
ghost use Rattle.leveldb_base.specs.declared.error.Status.{Status};
ghost use Rattle.std.specs.Io.KnownBytes.{Appends};
ghost use Rattle.leveldb_store.specs.Tables.BuildTable.{choices_of};
ghost use Rattle.rusty_leveldb.specs.Programs.Language.{reply_lines};
ghost use Rattle.rusty_leveldb.specs.Engines.Engine.{opening_of};
ghost use Rattle.rusty_leveldb.specs.Programs.Program.{status_of, AskForRepair, AskForRun, ChecksInput, EndsProgram, HasPlayed, HasRepaired, HasRunBy, IsBadInput, IsInputFault, IsRepairAnswered, IsInput, IsPlayed, IsAnswered, IsStopped, NamesFolder, NamesNoFolder, OnWhole, StopsFor, ldb_opening};
ghost use Rattle.rusty_leveldb.specs.Programs.RunCalls.{RunsByCalls};
ghost use Rattle.rusty_leveldb.specs.declared.shell.commands.Reply.{Reply};
ghost use Rattle.rusty_leveldb.specs.declared.shell.program.Fault.TheVariants.{Usage};

use super::commands::{Command, Reply};
use super::language::{Script, parse};
use super::reading::run_read_only;
use super::replies::put_replies;
use super::runs::run;
use crate::db_impl::repair;
use leveldb_base::cmp::{Cmp, InternalKeyCmp, UserCmp};
use leveldb_base::error::Status;
use leveldb_env::compressor::{CompressorList, Compressors};
use leveldb_env::env::Env;
use leveldb_env::filter::{FilterPolicy, InternalFilterPolicy};
use leveldb_env::infolog::Logger;
use leveldb_env::options::Options;
use std::alloc::{AllocError, Global};
use std::fmt;
use std::io::{self, Read, Write};

/// How many bytes of commands are read at most.
const MOST_INPUT: u64 = 1 << 26;

// How the program opens a store.
#[derive(Clone, Copy, Debug)]
enum Way {
    /// To be read and written to.
    Whole,
    /// To be read alone.
    Alone,
}

// What the program does in a folder.
#[derive(Clone, Copy, Debug)]
enum Task {
    /// It runs the commands of its input over the store, which it opens this way.
    Run(Way),
    /// It repairs the store.
    Repair,
}

// Why the program stopped.
#[derive(Drop)]
enum Fault {
    /// It was not given one folder, or that and what is done there.
    Usage,
    /// The line of this number, from 1, is no command.
    BadLine(usize),
    /// There were more bytes of commands than are read.
    TooLong,
    /// The input was not read, or the memory for it was refused.
    Unread(Status),
    /// A call was refused.
    Refused(Status),
}

impl fmt::Display for Fault {
    fn fmt<W: fmt::Write>(&self, f: &mut fmt::Formatter<W>) -> fmt::Result {
        match self {
            Fault::Usage => f.write_str("usage: ldb [--repair | --read-only] DIR"),
            Fault::BadLine(number) => write!(f, "bad command in line {number}"),
            Fault::TooLong => f.write_str("input too long"),
            Fault::Unread(status) | Fault::Refused(status) => match &status.err {
                None => write!(f, "ldb: {}", status.code),
                Some(text) => write!(f, "ldb: {text}"),
            },
        }
    }
}

/// Runs the commands of `input` over the store in the folder that is the last argument, and writes
/// their replies to `out`. After `--read-only` the store is read alone (`run_read_only`). After
/// `--repair` it is repaired (`repair`): no input is read, and `repaired` is written. Else a folder
/// is the only argument. A fault is a line on `err`, and what the store says of its files is a line
/// for `log`. The status is 0 if all was answered and written, 2 if the arguments, a line or the
/// length of the input is wrong, and 1 if a call failed.
pub fn ldb_main<E: Env, I: Read, O: Write, F: Write>(
    alloc: Global,
    env: &mut E,
    args: &[String],
    log: Option<Logger>,
    input: &mut I,
    out: &mut O,
    err: &mut F,
) -> u8
    ensures ends { EndsProgram E.Env log I.Read O.Write args.now env.old input.old out.old result
        env.new input.new out.new }
    ensures checks { ChecksInput E.Env I.Read args.now env.old input.old out.old result env.new
        input.new out.new }
{
    match serve(alloc, env, args, log, input, out) {
        Ok(()) => 0,
        Err(fault) => tell_fault(err, fault),
    }
}

// Writes a fault in a line, as far as that can be written, and returns its status.
fn tell_fault<F: Write>(err: &mut F, fault: Fault) -> u8
    ensures { result ≡ status_of fault }
{
    let _ = writeln!(err, "{fault}");
    let _ = err.flush();
    match fault {
        Fault::Unread(_) | Fault::Refused(_) => 1,
        _ => 2,
    }
}

// Does what the arguments and the input ask for.
fn serve<E: Env, I: Read, O: Write>(
    alloc: Global,
    env: &mut E,
    args: &[String],
    log: Option<Logger>,
    input: &mut I,
    out: &mut O,
) -> Result<(), Fault>
    ensures answered { OnOk result
        (IsAnswered E.Env log args.now env.old env.new (I.remaining input.old)
        (O.contents out.old) (O.contents out.new)) }
    ensures stopped { OnErr result
        (IsStopped E.Env log args.now env.old env.new (I.remaining input.old)) }
    ensures fault { IfErr result
        (StopsFor args.now (I.remaining input.old) env.old out.old env.new out.new) }
    ensures usage { NamesNoFolder args.now → IsErrAnd result (λ fault. fault ≡ Usage) }
    ensures bad { AskForRun args.now → IsBadInput (I.remaining input.old) → IsErrAnd result
        (λ fault. IsInputFault (I.remaining input.old) fault × (env.new ≡ env.old)
        × (out.new ≡ out.old)) }
    ensures unread { AskForRepair args.now → input.new ≡ input.old }
{
    let Some((task, folder)) = task_of(args) else {
        return Err(Fault::Usage);
    };
    match task {
        Task::Repair => Ok(repair_folder(alloc, env, folder, log, out)?),
        Task::Run(way) => {
            let commands = read_commands(alloc, input)?;
            Ok(play(alloc, env, way, folder, log, &commands, out)?)
        }
    }
}

// The folder that the arguments name, and what is done there.
fn task_of(args: &[String]) -> Option<(Task, &str)>
    ensures { MatchOption result (NamesNoFolder args.now)
        (λ task. NamesFolder args.now task.0 task.1.now) }
{
    match args {
        [folder] => Some((Task::Run(Way::Whole), folder.as_str())),
        [option, folder] => match option.as_str() {
            "--read-only" => Some((Task::Run(Way::Alone), folder.as_str())),
            "--repair" => Some((Task::Repair, folder.as_str())),
            _ => None,
        },
        _ => None,
    }
}

// Repairs the store in a folder, and writes that it did.
fn repair_folder<E: Env, O: Write>(
    alloc: Global,
    env: &mut E,
    folder: &str,
    log: Option<Logger>,
    out: &mut O,
) -> Result<(), Status>
    ensures answered { OnOk result (IsRepairAnswered E.Env folder.now env.old env.new
        (O.contents out.old) (O.contents out.new)) }
    ensures repaired { (ended : Result (Unit {0}) Status)
        × HasRepaired E.Env folder.now ldb_opening env.old ended env.new }
{
    let mut options = Options::default();
    options.log = log;
    repair(alloc, folder, env, options)?;
    out.write_all(b"repaired\n")?;
    Ok(out.flush()?)
}

// Runs the commands, and writes the replies that were given.
fn play<E: Env, O: Write>(
    alloc: Global,
    env: &mut E,
    way: Way,
    folder: &str,
    log: Option<Logger>,
    commands: &[Command],
    out: &mut O,
) -> Result<(), Status>
    ensures played { OnOk result (IsPlayed E.Env log way folder.now commands.now env.old env.new
        (O.contents out.old) (O.contents out.new)) }
    ensures run { (given : List Reply) × (ended : Result (Unit {0}) Status)
        × HasPlayed E.Env log way folder.now commands.now env.old given ended env.new }
{
    let mut replies = Vec::new(alloc);
    let mut options = Options::default();
    options.log = log;
    let played = run_by(way, env, folder, options, commands, &mut replies);
    let printed = print(alloc, out, &replies);
    played?;
    printed
}

// Runs the commands over a store that is opened this way.
fn run_by<E: Env, C: UserCmp + Copy, FP: FilterPolicy + Copy>(
    way: Way,
    env: &mut E,
    folder: &str,
    options: Options<C, FP>,
    commands: &[Command],
    replies: &mut Vec<Reply>,
) -> Result<(), Status>
    ensures runs { HasRunBy E.Env way folder.now (opening_of C.Cmp FP.FilterPolicy
        ⟦<CompressorList as Compressors>⟧.codings options) commands.now env.old
        (drop (length replies.old.items) replies.new.items) result env.new }
    ensures calls { let codings = ⟦<CompressorList as Compressors>⟧.codings in
        OnWhole way (RunsByCalls E.Env (choices_of C.Cmp FP.FilterPolicy
        ⟦<InternalKeyCmp<C> as Cmp>⟧ ⟦<InternalFilterPolicy<FP> as FilterPolicy>⟧ codings)
        folder.now options (opening_of C.Cmp FP.FilterPolicy codings options) commands.now env.old
        (drop (length replies.old.items) replies.new.items) result env.new) }
    ensures after { (given : List Reply) × (replies.new.items ≡ replies.old.items ++ given)
        × OnOk result (length given ≡ length commands.now) }
{
    match way {
        Way::Whole => run(env, folder, options, commands, replies),
        Way::Alone => run_read_only(env, folder, options, commands, replies),
    }
}

// Writes the lines of these replies; out of memory, those that it has.
fn print<O: Write>(alloc: Global, out: &mut O, replies: &[Reply]) -> Result<(), Status>
    ensures { OnOk result
        (Appends (O.contents out.old) (O.contents out.new) (reply_lines replies.now)) }
{
    let mut text = Vec::new(alloc);
    let told = put_replies(&mut text, replies);
    out.write_all(&text)?;
    out.flush()?;
    Ok(told?)
}

// The commands that the input encodes.
fn read_commands<I: Read>(alloc: Global, input: &mut I) -> Result<Vec<Command>, Fault>
    ensures ok { IfOk result (λ commands. IsInput (I.remaining input.old) commands.items) }
    ensures fault { IfErr result (IsInputFault (I.remaining input.old)) }
{
    let text = read_input(alloc, input)?;
    match parse(alloc, &text)? {
        Script::Commands(commands) => Ok(commands),
        Script::BadLine(number) => Err(Fault::BadLine(number)),
    }
}

// All bytes of the input, where there aren't too many.
fn read_input<I: Read>(alloc: Global, input: &mut I) -> Result<Vec<u8>, Fault>
    ensures ok { IfOk result
        (λ text. IfSome (I.remaining input.old) (λ known. text.items ≡ known)) }
    ensures most { IfOk result (λ text. length text.items ≤ 2 ^ 26) }
    ensures fault { IfErr result (IsInputFault (I.remaining input.old)) }
{
    let mut text = Vec::new(alloc);
    input.take(MOST_INPUT + 1).read_to_end(&mut text)?;
    if text.len() as u64 > MOST_INPUT {
        return Err(Fault::TooLong);
    }
    Ok(text)
}

impl From<Status> for Fault {
    ghost use Rattle.rusty_leveldb.specs.declared.shell.program.Fault.TheVariants.{Refused};

    ghost from_gives = { λ status fault. fault ≡ Refused status };

    fn from(status: Status) -> Fault {
        Fault::Refused(status)
    }
}

impl From<AllocError> for Fault {
    ghost use Rattle.rusty_leveldb.specs.Programs.Program.{IsReadingFault};

    ghost from_gives = { λ _ fault. IsReadingFault fault };

    fn from(error: AllocError) -> Fault {
        Fault::Unread(error.into())
    }
}

impl From<io::Error> for Fault {
    ghost use Rattle.rusty_leveldb.specs.Programs.Program.{IsReadingFault};

    ghost from_gives = { λ _ fault. IsReadingFault fault };

    fn from(error: io::Error) -> Fault {
        Fault::Unread(error.into())
    }
}
