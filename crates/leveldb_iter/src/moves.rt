//! Lists of moves of a walk, and where each of them leads.
ghost use Rattle.std.specs.Prelude.{◌≡◌, ◌≤◌, ◌+◌, ◌++◌, IfErr, List, OnOk, length, vec_len, vec_capacity};
ghost use Rattle.leveldb_base.specs.declared.error.StatusCode.TheVariants.{InvalidArgument};
ghost use Rattle.leveldb_iter.specs.Moves.{SeeksLongKey, AcceptsKeyOf, position_moved, MovesTo, MovesAll};
ghost use Rattle.leveldb_iter.specs.Walk.{MovesWalk};

use crate::walk::Walk;
use leveldb_base::error::{Result, Status};
use leveldb_base::key_types::check_key_size;
use leveldb_base::types::copy_pair;
use std::alloc::Global;

/// A move of a walk.
#[derive(Debug, Drop)]
pub enum Move {
    /// To the first pair.
    First,
    /// To the next pair, from no position to the first, and from the last to no position.
    Next,
    /// To the pair before, and from the first or from no position to no position.
    Prev,
    /// To the first pair whose key is at or after this one.
    Seek(Vec<u8>),
}

/// Where a move led.
#[derive(Debug, Drop)]
pub enum Step {
    /// To this key, with its value.
    At(Vec<u8>, Vec<u8>),
    /// To no position.
    Invalid,
    /// The move failed, and left no position.
    Refused(Status),
}

impl Move {
    // Checks the length of the key that it seeks, if it does.
    fn check_key(&self, alloc: Global) -> Result<()>
        ensures ok { OnOk result (SeeksLongKey self.now → ⊥) }
        ensures long { IfErr result
            (λ status. (status.code ≡ InvalidArgument) × SeeksLongKey self.now) }
    {
        match self {
            Move::Seek(key) => check_key_size(alloc, key),
            _ => Ok(()),
        }
    }

    // Makes this move of a walk.
    fn apply<E, T, W: Walk<E, T>>(&self, walk: &mut W, env: &mut E, tables: &mut T) -> Result<()>
        ensures { MovesWalk W.over W.is_at W.here W.fails W.keeps
            (λ world it order pairs position. W.is_at world it order pairs position
            × AcceptsKeyOf order self.now) (position_moved self.now) (env.old, tables.old) walk.old
            result (env.new, tables.new) walk.new }
    {
        match self {
            Move::First => walk.seek_to_first(env, tables),
            Move::Next => {
                walk.advance(env, tables)?;
                Ok(())
            }
            Move::Prev => {
                walk.prev(env, tables)?;
                Ok(())
            }
            Move::Seek(key) => walk.seek(env, tables, key),
        }
    }
}

/// Makes these moves one after another. `steps`, which has room for them, gains where each led.
pub fn make_moves<E, T, W: Walk<E, T>>(
    alloc: Global,
    walk: &mut W,
    env: &mut E,
    tables: &mut T,
    moves: &[Move],
    steps: &mut Vec<Step>,
)
    requires { vec_len steps.old + length moves.now ≤ vec_capacity steps.old }
    ensures { (given : List Step) × (steps.new.items ≡ steps.old.items ++ given)
        × MovesAll W.Walk (env.old, tables.old) walk.old moves.now given (env.new, tables.new)
        walk.new }
{
    for one in moves {
        let step = make_move(alloc, walk, env, tables, one);
        steps.push(step).unwrap();
    }
}

/// Makes a move, and copies the pair that it leads to. Without memory for the copy the move is
/// refused and leaves no position, and so it is where the key that it seeks is too long.
pub fn make_move<E, T, W: Walk<E, T>>(
    alloc: Global,
    walk: &mut W,
    env: &mut E,
    tables: &mut T,
    one: &Move,
) -> Step
    ensures { MovesTo W.Walk one.now (env.old, tables.old) walk.old result (env.new, tables.new)
        walk.new }
{
    if let Err(status) = one.check_key(alloc) {
        walk.reset();
        return Step::Refused(status);
    }
    if let Err(status) = one.apply(walk, env, tables) {
        return Step::Refused(status);
    }
    match copy_pair(alloc, walk.current()) {
        Ok(Some((key, value))) => Step::At(key, value),
        Ok(None) => Step::Invalid,
        Err(status) => {
            walk.reset();
            Step::Refused(status)
        }
    }
}
