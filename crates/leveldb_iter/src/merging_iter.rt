//! The merge of walks.
// LevelDB: table/merger.cc
ghost use Rattle.std.specs.Prelude.{◌≡◌, ◌<◌, length, List, ℕ, None};
ghost use Rattle.std.specs.Option.{ForSome};
ghost use Rattle.leveldb_base.specs.Types.{Pair};
ghost use Rattle.leveldb_iter.specs.Walk.{KeyOrder};

use crate::children::{ChildStep, Tie, best_of, step_at_key, step_each, step_one};
use crate::walk::Walk;
use crate::walk_iter::WalkIter;
use leveldb_base::cmp::Cmp;
use leveldb_base::error::{Result, StatusCode, err};
use leveldb_base::types::Direction;

/// The merge of walks over sorted lists: a walk over all their pairs, in order, each once. Where
/// two lists have different pairs of equal key, a move to that key fails with `Corruption`. A seek
/// by a key that the order doesn't accept leads to no position.
///
/// A move in the direction in which it goes makes a step of each child that is at the pair, mostly
/// one, and a turn one of each. Each child is then compared once at most. No move copies a key or
/// takes memory, but for the text of that error.
#[derive(Drop)]
pub struct MergeCore<C, I> {
    cmp: C,
    children: Vec<I>,
    current: Option<usize>,

    // Whether other children are at the current one's pair.
    shared: bool,
    direction: Direction,
    ghost within: { ForSome current (λ i. i < length children.items) },
}

/// A merge beside borrows of the environment and the tables that its children read from.
pub type MergingIter<'a, E, T, C, I> = WalkIter<'a, E, T, MergeCore<C, I>>;

impl<C: Cmp, I> MergeCore<C, I> {
    ghost use Rattle.leveldb_base.specs.declared.error.Status.{Status};
    ghost use Rattle.leveldb_iter.specs.MergingIter.{AreMerged, IsMergeAt, FailsMerged, FailsOrClashes, merged_here};

    /// The merge of these walks, at no position. They may be at any.
    pub fn new<E, T>(cmp: C, children: Vec<I>) -> MergeCore<C, I>
    where
        I: Walk<E, T>,
        ensures is_at { (world : E × T) (order : KeyOrder) (lists : List (List Pair))
            (pairs : List Pair)
            → AreMerged I.Walk C.Cmp world cmp children.items order lists pairs
            → IsMergeAt I.Walk C.Cmp world result order pairs None }
        ensures none { merged_here I.Walk result ≡ None }
        ensures fails { (world later : E × T) (status : Status)
            → FailsMerged I.Walk C.Cmp world result later status
            → FailsOrClashes I.Walk C.Cmp world cmp children.items later status }
    {
        MergeCore {
            cmp,
            children,
            current: None,
            shared: false,
            direction: Direction::Forward,
        }
    }
}

impl<C: Cmp, I> MergeCore<C, I> {
    ghost use Rattle.std.specs.Prelude.{◌≡◌, ◌<◌, ◌⊎◌, true, ℕ, Some, IfErr, OnErr};
    ghost use Rattle.leveldb_base.specs.declared.error.StatusCode.TheVariants.{Corruption};
    ghost use Rattle.leveldb_base.specs.declared.types.Direction.TheVariants.{Forward, Reverse};
    ghost use Rattle.leveldb_base.specs.Types.{Pair, position_within, next_position, previous_position, last_position, seek_position};
    ghost use Rattle.leveldb_iter.specs.Children.{IsChosen, StepsCurrent, head_of, step_to};
    ghost use Rattle.leveldb_iter.specs.MergingIter.{Readies, IsMergeOfLists, IsMergeOfListsAt};
    ghost use Rattle.leveldb_iter.specs.declared.children.ChildStep.TheVariants.{Next, Prev};

    // The second half of each move: makes the child that is at the first pair in this direction the
    // current one, if one is at a pair. Fails where another is at a different pair of its key, and
    // then none is the current one.
    #[inline(always)]
    fn pick_current<E, T>(&mut self, direction: Direction) -> Result<()>
    where
        I: Walk<E, T>,
        ensures cmp { self.new.cmp ≡ self.old.cmp }
        ensures children { self.new.children ≡ self.old.children }
        ensures direction { self.new.direction ≡ direction }
        ensures best { let heads = head_of I.Walk self.old.children.items in
            ((k : ℕ) (pair : Pair) → heads k ≡ Some pair → C.accepts self.old.cmp pair.0 ≡ true)
            → IsChosen (C.cmp self.old.cmp) direction heads result self.new.current
            self.new.shared }
        ensures none { OnErr result (self.new.current ≡ None) }
        ensures cause { IfErr result (λ status. status.code ≡ Corruption) }
    {
        self.direction = direction;
        self.current = None;
        let Some((i, tie)) = best_of(&self.cmp, direction, self.children.as_slice()) else {
            return Ok(());
        };
        self.shared = match tie {
            Tie::Alone => false,
            Tie::Shared => true,
            Tie::Clash => {
                let alloc = *self.children.allocator();
                return err(alloc, StatusCode::Corruption, "two pairs have one key");
            }
        };
        self.current = Some(i);
        Ok(())
    }

    // The current child makes a step, and with it the others that are at its pair.
    #[inline(always)]
    fn step_current<E, T>(
        &mut self,
        env: &mut E,
        tables: &mut T,
        i: usize,
        step: ChildStep,
    ) -> Result<()>
    where
        I: Walk<E, T>,
        requires index { i < length self.old.children.items }
        requires moves { (step ≡ Next) ⊎ (step ≡ Prev) }
        ensures steps { StepsCurrent I.Walk (step_to step.entry) i self.old.shared
            (env.old, tables.old) self.old.children.items result (env.new, tables.new)
            self.new.children.items }
        ensures cmp { self.new.cmp ≡ self.old.cmp }
        ensures current { self.new.current ≡ self.old.current }
    {
        if self.shared {
            step_at_key(&mut self.children, env, tables, i, step)
        } else {
            step_one(&mut self.children, env, tables, i, step)
        }
    }

    // The first half of a move to the next pair: children make steps, and none is the current one.
    #[inline(always)]
    fn ready_next<E, T>(&mut self, env: &mut E, tables: &mut T) -> Result<()>
    where
        I: Walk<E, T>,
        ensures { Readies I.Walk C.Cmp (IsMergeOfListsAt I.Walk C.Cmp) (λ _. next_position) Forward
            (env.old, tables.old) self.old result (env.new, tables.new) self.new.cmp
            self.new.children.items self.new.current }
    {
        let current = self.current;
        self.current = None;
        match current {
            None => step_each(&mut self.children, env, tables, ChildStep::First),
            Some(i) => match self.direction {
                Direction::Forward => self.step_current(env, tables, i, ChildStep::Next),
                Direction::Reverse => step_each(&mut self.children, env, tables, ChildStep::Next),
            },
        }
    }

    // The first half of a move from a pair to the one before.
    #[inline(always)]
    fn ready_previous<E, T>(&mut self, env: &mut E, tables: &mut T, i: usize) -> Result<()>
    where
        I: Walk<E, T>,
        requires { self.old.current ≡ Some i }
        ensures { Readies I.Walk C.Cmp (IsMergeOfListsAt I.Walk C.Cmp) (λ _ _. previous_position)
            Reverse (env.old, tables.old) self.old result (env.new, tables.new) self.new.cmp
            self.new.children.items self.new.current }
    {
        self.current = None;
        match self.direction {
            Direction::Forward => step_each(&mut self.children, env, tables, ChildStep::PrevOrLast),
            Direction::Reverse => self.step_current(env, tables, i, ChildStep::Prev),
        }
    }

    // The first half of a move to the first pair.
    fn ready_first<E, T>(&mut self, env: &mut E, tables: &mut T) -> Result<()>
    where
        I: Walk<E, T>,
        ensures { Readies I.Walk C.Cmp (λ world it order lists pairs _.
            IsMergeOfLists I.Walk C.Cmp world it order lists pairs) (λ _ pairs _.
            position_within pairs 0) Forward (env.old, tables.old) self.old result
            (env.new, tables.new) self.new.cmp self.new.children.items self.new.current }
    {
        self.current = None;
        step_each(&mut self.children, env, tables, ChildStep::First)
    }

    // The first half of a move to the last pair.
    fn ready_last<E, T>(&mut self, env: &mut E, tables: &mut T) -> Result<()>
    where
        I: Walk<E, T>,
        ensures { Readies I.Walk C.Cmp (λ world it order lists pairs _.
            IsMergeOfLists I.Walk C.Cmp world it order lists pairs)
            (λ _ pairs _. last_position pairs) Reverse (env.old, tables.old) self.old result
            (env.new, tables.new) self.new.cmp self.new.children.items self.new.current }
    {
        self.current = None;
        step_each(&mut self.children, env, tables, ChildStep::Last)
    }

    // The first half of a move to the first pair at or after a key.
    fn ready_key<E, T>(&mut self, env: &mut E, tables: &mut T, key: &[u8]) -> Result<()>
    where
        I: Walk<E, T>,
        ensures { Readies I.Walk C.Cmp (λ world it order lists pairs _.
            IsMergeOfLists I.Walk C.Cmp world it order lists pairs × (order.accepts key.now ≡ true))
            (λ order pairs _. seek_position order.cmp pairs key.now) Forward
            (env.old, tables.old) self.old result (env.new, tables.new) self.new.cmp
            self.new.children.items self.new.current }
    {
        self.current = None;
        step_each(&mut self.children, env, tables, ChildStep::Seek(key))
    }
}

impl<E, T, C: Cmp, I: Walk<E, T>> Walk<E, T> for MergeCore<C, I> {
    ghost use Rattle.leveldb_iter.specs.MergingIter.{IsMergeOver, IsMergeAt, merged_here, FailsMerged};
    ghost use Rattle.leveldb_iter.specs.MergingIterLaws.{merged_laws};

    ghost over = { IsMergeOver I.Walk C.Cmp };

    ghost is_at = { IsMergeAt I.Walk C.Cmp };

    ghost here = { merged_here I.Walk };

    ghost fails = { FailsMerged I.Walk C.Cmp };

    ghost keeps = { I.keeps };

    #[inline(always)]
    fn advance(&mut self, env: &mut E, tables: &mut T) -> Result<bool> {
        self.ready_next(env, tables)?;
        self.pick_current::<E, T>(Direction::Forward)?;
        Ok(Walk::<E, T>::valid(self))
    }

    #[inline(always)]
    fn prev(&mut self, env: &mut E, tables: &mut T) -> Result<bool> {
        let Some(i) = self.current else {
            return Ok(false);
        };
        self.ready_previous(env, tables, i)?;
        self.pick_current::<E, T>(Direction::Reverse)?;
        Ok(Walk::<E, T>::valid(self))
    }

    fn seek(&mut self, env: &mut E, tables: &mut T, key: &[u8]) -> Result<()> {
        if !self.cmp.accepts(key) {
            self.current = None;
            return Ok(());
        }
        self.ready_key(env, tables, key)?;
        self.pick_current::<E, T>(Direction::Forward)
    }

    fn seek_to_first(&mut self, env: &mut E, tables: &mut T) -> Result<()> {
        self.ready_first(env, tables)?;
        self.pick_current::<E, T>(Direction::Forward)
    }

    fn seek_to_last(&mut self, env: &mut E, tables: &mut T) -> Result<()> {
        self.ready_last(env, tables)?;
        self.pick_current::<E, T>(Direction::Reverse)
    }

    fn reset(&mut self) {
        self.current = None;
    }

    #[inline(always)]
    fn current(&self) -> Option<(&[u8], &[u8])> {
        match self.current {
            None => None,
            Some(i) => self.children[i].current(),
        }
    }

    #[inline(always)]
    fn valid(&self) -> bool {
        match self.current {
            None => false,
            Some(i) => self.children[i].valid(),
        }
    }

    ghost laws = { merged_laws I.laws };
}
