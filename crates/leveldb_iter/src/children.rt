//! The children of a merge: the steps that they make, and which of them is at the first pair.
// LevelDB: table/merger.cc, the children of MergingIterator
ghost use Rattle.std.specs.Prelude.{◌≡◌, ◌<◌, ◌⊎◌, true, length, List, ℕ, Some};
ghost use Rattle.std.specs.Option.{ForSome};
ghost use Rattle.leveldb_base.specs.Types.{Pair, pair_of};
ghost use Rattle.leveldb_iter.specs.Children.{step_from, step_to, previous_or_last, same_key, MovesChild, StepsOne, StepsEach, StepsAtKey, IsJoined, IsBetter, IsBest, head_of, order_in};
ghost use Rattle.leveldb_iter.specs.declared.children.ChildStep.TheVariants.{Next, Prev};

use crate::walk::Walk;
use leveldb_base::cmp::Cmp;
use leveldb_base::error::Result;
use leveldb_base::types::Direction;
use std::cmp::Ordering;

// A step that every child makes.
#[derive(Clone, Copy)]
pub(crate) enum ChildStep<'k> {
    First,
    Last,
    Next,
    Prev,
    // To the pair before, and from no position to the last.
    PrevOrLast,
    Seek(&'k [u8]),
}

// How the pair of one child is to those of the others.
#[derive(Clone, Copy)]
pub(crate) enum Tie {
    // No other is at a pair of its key.
    Alone,
    // Others are at the same pair.
    Shared,
    // Another is at a different pair of its key.
    Clash,
}

// The best child found so far: its number, its pair, and how the others found are to that.
#[derive(Clone, Copy)]
pub(crate) struct Best<'x> {
    index: usize,
    pair: (&'x [u8], &'x [u8]),
    tie: Tie,
}

// Every child makes a step, up to the first that fails.
pub(crate) fn step_each<E, T, I: Walk<E, T>>(
    children: &mut Vec<I>,
    env: &mut E,
    tables: &mut T,
    step: ChildStep,
) -> Result<()>
    ensures { StepsEach I.Walk (step_from I.Walk step.entry) (step_to step.entry)
        (env.old, tables.old) children.old.items result (env.new, tables.new) children.new.items }
{
    for i in 0..children.len() {
        step_one(children, env, tables, i, step)?;
    }
    Ok(())
}

// One child makes a step.
#[inline(always)]
pub(crate) fn step_one<E, T, I: Walk<E, T>>(
    children: &mut Vec<I>,
    env: &mut E,
    tables: &mut T,
    i: usize,
    step: ChildStep,
) -> Result<()>
    requires { i < length children.old.items }
    ensures { StepsOne I.Walk (step_from I.Walk step.entry) (step_to step.entry) i
        (env.old, tables.old) children.old.items result (env.new, tables.new) children.new.items }
{
    step_child(&mut children[i], env, tables, step)
}

#[inline(always)]
fn step_child<E, T, I: Walk<E, T>>(
    child: &mut I,
    env: &mut E,
    tables: &mut T,
    step: ChildStep,
) -> Result<()>
    ensures { MovesChild I.Walk (step_from I.Walk step.entry) (step_to step.entry)
        (env.old, tables.old) child.old result (env.new, tables.new) child.new }
{
    match step {
        ChildStep::First => child.seek_to_first(env, tables),
        ChildStep::Last => child.seek_to_last(env, tables),
        ChildStep::Next => {
            child.advance(env, tables)?;
            Ok(())
        }
        ChildStep::Prev => {
            child.prev(env, tables)?;
            Ok(())
        }
        ChildStep::PrevOrLast => step_back(child, env, tables),
        ChildStep::Seek(key) => child.seek(env, tables, key),
    }
}

// Moves to the pair before, and from no position to the last.
fn step_back<E, T, I: Walk<E, T>>(child: &mut I, env: &mut E, tables: &mut T) -> Result<()>
    ensures { MovesChild I.Walk I.is_at (λ _. previous_or_last)
        (env.old, tables.old) child.old result (env.new, tables.new) child.new }
{
    if !child.valid() {
        return child.seek_to_last(env, tables);
    }
    child.prev(env, tables)?;
    Ok(())
}

// A child makes a step, and before it each other one that is at a pair of its key.
pub(crate) fn step_at_key<E, T, I: Walk<E, T>>(
    children: &mut Vec<I>,
    env: &mut E,
    tables: &mut T,
    i: usize,
    step: ChildStep,
) -> Result<()>
    requires index { i < length children.old.items }
    requires moves { (step ≡ Next) ⊎ (step ≡ Prev) }
    ensures { StepsAtKey I.Walk (step_to step.entry) i (env.old, tables.old) children.old.items
        result (env.new, tables.new) children.new.items }
{
    for k in 0..children.len() {
        if k != i && are_at_one_key::<E, T, I>(children, k, i) {
            step_one(children, env, tables, k, step)?;
        }
    }
    step_one(children, env, tables, i, step)
}

// Whether the children of these numbers are at pairs of the same key.
fn are_at_one_key<E, T, I: Walk<E, T>>(children: &Vec<I>, k: usize, i: usize) -> bool
    ensures { result ≡ same_key (head_of I.Walk children.now.items k)
        (head_of I.Walk children.now.items i) }
{
    let one = head::<E, T, I>(children, k);
    let other = head::<E, T, I>(children, i);
    match (one, other) {
        (Some((key, _)), Some((own, _))) => key == own,
        _ => false,
    }
}

// The pair that the child of this number is at.
fn head<'x, E, T, I: Walk<E, T>>(children: &'x Vec<I>, k: usize) -> Option<(&'x [u8], &'x [u8])>
    ensures { pair_of result ≡ head_of I.Walk children.now.items k }
{
    children.get(k)?.current()
}

// The child that is at the first pair in this direction, and how the others are to that pair, or
// none where none is at a pair.
#[inline(always)]
pub(crate) fn best_of<'x, E, T, C: Cmp, I: Walk<E, T>>(
    cmp: &C,
    direction: Direction,
    children: &'x [I],
) -> Option<(usize, Tie)>
    ensures within { ForSome result (λ best. best.0 < length children.now) }
    ensures best { ((k : ℕ) (pair : Pair) → head_of I.Walk children.now k ≡ Some pair
        → C.accepts cmp.now pair.0 ≡ true)
        → IsBest (C.cmp cmp.now) direction (head_of I.Walk children.now) result }
{
    let mut best: Option<Best<'x>> = None;
    for (i, child) in children.iter().enumerate() {
        best = better(cmp, direction, best, i, child.current());
    }
    match best {
        None => None,
        Some(best) => Some((best.index, best.tie)),
    }
}

// The one found so far, or this child where its key is before that one's in this direction. A call
// for each child of each move would copy both.
#[inline(always)]
fn better<'x, C: Cmp>(
    cmp: &C,
    direction: Direction,
    best: Option<Best<'x>>,
    i: usize,
    current: Option<(&'x [u8], &'x [u8])>,
) -> Option<Best<'x>>
    ensures { IsBetter (C.cmp cmp.now) direction best.entry i (pair_of current.entry) result }
{
    let Some(pair) = current else {
        return best;
    };
    let Some(found) = best else {
        return Some(Best {
            index: i,
            pair,
            tie: Tie::Alone,
        });
    };
    match order_in(cmp, direction, pair.0, found.pair.0) {
        Ordering::Less => Some(Best {
            index: i,
            pair,
            tie: Tie::Alone,
        }),
        Ordering::Equal => Some(Best {
            index: found.index,
            pair: found.pair,
            tie: joined(found.tie, found.pair, pair),
        }),
        Ordering::Greater => best,
    }
}

// How one key is to another in this direction: `Less` where it comes first.
#[inline]
fn order_in<C: Cmp>(cmp: &C, direction: Direction, key: &[u8], other: &[u8]) -> Ordering
    ensures { result ≡ order_in (C.cmp cmp.now) direction key.now other.now }
{
    let order = cmp.cmp(key, other);
    match direction {
        Direction::Forward => order,
        Direction::Reverse => order.reverse(),
    }
}

// A tie of the best pair, once another child is found at this pair of an equal key.
fn joined(tie: Tie, own: (&[u8], &[u8]), other: (&[u8], &[u8])) -> Tie
    ensures { IsJoined tie (own.entry.0.now, own.entry.1.now)
        (other.entry.0.now, other.entry.1.now) result }
{
    if other.0 != own.0 || other.1 != own.1 {
        return Tie::Clash;
    }
    match tie {
        Tie::Clash => Tie::Clash,
        _ => Tie::Shared,
    }
}
