//! Texts of commands.
ghost use Rattle.std.specs.Prelude.{◌≡◌, ◌⊎◌, ◌∷◌, ◌++◌, [], Contains, IfOk};
ghost use Rattle.rusty_leveldb.specs.Programs.Language.{IsReading};

use super::commands::Command;
use super::lines::read_line;
use super::words::split_once;
use std::alloc::{AllocError, Global};

/// What a text was read as.
#[derive(Debug, Drop)]
pub enum Script {
    /// Its commands, one a line.
    Commands(Vec<Command>),
    /// The number, from 1, of its first line that is no command.
    BadLine(usize),
}

/// Reads a text of commands, one a line; the last newline may be missing. Fails out of memory.
pub fn parse(alloc: Global, text: &[u8]) -> Result<Script, AllocError>
    ensures { IfOk result (IsReading text.now) }
{
    let mut commands = Vec::new(alloc);
    let mut rest = text;
    while !rest.is_empty() {
        let (line, more) = next_line(rest);
        let Some(command) = read_line(alloc, line)? else {
            return Ok(Script::BadLine(commands.len() + 1));
        };
        commands.push(command)?;
        rest = more;
    }
    Ok(Script::Commands(commands))
}

// The first line of a text, without its newline, and what comes after that.
fn next_line(text: &[u8]) -> (&[u8], &[u8])
    ensures one_line { Contains result.0.now 10 → ⊥ }
    ensures parts { (text.now ≡ result.0.now ++ 10 ∷ result.1.now)
        ⊎ ((text.now ≡ result.0.now) × (result.1.now ≡ [])) }
{
    match split_once(text, b'\n') {
        (line, Some(more)) => (line, more),
        (line, None) => (line, &[]),
    }
}
