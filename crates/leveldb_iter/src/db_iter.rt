//! The view of a store at a sequence number, as a walk above one over all entries.
// LevelDB: db/db_iter.cc
ghost use Rattle.std.specs.Prelude.{◌≡◌, ◌<◌, ◌^◌, ℕ, true, List, None, Some, IfOk, IfErr, OnErr, is_some, IsErrAnd};
ghost use Rattle.std.specs.Bool.{then_some};
ghost use Rattle.leveldb_base.specs.Error.{IsOutOfMemory};
ghost use Rattle.leveldb_base.specs.Types.{Pair};
ghost use Rattle.leveldb_iter.specs.Walk.{KeyOrder};

use crate::entry::{Seen, entry_at, keep, with_entry};
use crate::walk::{CountsBytes, Walk};
use leveldb_base::error::{Result, Status};
use leveldb_base::key_types::{ValueType, split_sequence, tag_bytes};
use leveldb_base::types::{Direction, SequenceNumber};
use std::alloc::{AllocError, Global};

/// The view of a store at a sequence number, as a walk above one over all entries: the keys that
/// have a value there, each with the newest at or below the number. The order of users' keys is to
/// be one in which only the same bytes are equal, so keys are compared by their bytes alone.
///
/// After a move forward the walk below is at the entry that is shown, and the pair is borrowed from
/// it. After one back it is before all entries of the pair's key, and the pair is a copy. The two
/// buffers are kept from move to move. A move to a pair below whose key has no tag fails.
#[derive(Drop)]
pub struct ViewWalk<M> {
    walk: M,
    sequence: SequenceNumber,
    // the direction in which it came to the pair that it is at, or none where it is at no pair
    at: Option<Direction>,
    // in reverse the pair that it is at; forward a key to skip
    saved_key: Vec<u8>,
    saved_value: Vec<u8>,
    // how many bytes the entries have that its moves have looked at
    bytes_read: u64,
    ghost small: { sequence < 2 ^ 56 },
}

impl<M> ViewWalk<M> {
    ghost use Rattle.leveldb_base.specs.declared.error.Status.{Status};
    ghost use Rattle.leveldb_iter.specs.DbIter.{IsViewOf, IsViewAt, FailsOver, FailsView, view_here};

    /// The view at a sequence number of the entries that the walk is over, at no position.
    /// The walk may be at any.
    pub fn new<E, T>(alloc: Global, walk: M, sequence: SequenceNumber) -> ViewWalk<M>
    where
        M: Walk<E, T>,
        requires { sequence < 2 ^ 56 }
        ensures is_at { (world : E × T) (order : KeyOrder) (below pairs : List Pair)
            → IsViewOf M.Walk world walk sequence order below pairs
            → IsViewAt M.Walk world result order pairs None }
        ensures none { view_here M.Walk result ≡ None }
        ensures fails { (world later : E × T) (status : Status)
            → FailsView M.Walk world result later status
            → FailsOver M.Walk (λ order pairs.
            (below : List Pair) × IsViewOf M.Walk world walk sequence order below pairs)
            world walk later status }
    {
        ViewWalk {
            walk,
            sequence,
            at: None,
            saved_key: Vec::new(alloc),
            saved_value: Vec::new(alloc),
            bytes_read: 0,
        }
    }
}

// Scans forward.
impl<M> ViewWalk<M> {
    ghost use Rattle.leveldb_base.specs.KeyTypes.{user_part};
    ghost use Rattle.leveldb_iter.specs.DbIterSteps.{IsSeen, FailsToRead, MovesBelow, IsOnScan, IsNextStep, IsFoundNext, IsLeft};

    // The error of more entries than any memory holds: out of memory.
    fn too_long(&self) -> Result<()>
        ensures { IsErrAnd result IsOutOfMemory }
    {
        Err(Status::from(AllocError))
    }

    // What the entry is that the walk below is at. The key of a deletion is kept.
    #[inline(always)]
    fn read_forward<E, T>(&mut self, skipping: bool) -> Result<Seen>
    where
        M: Walk<E, T>,
        ensures walk { self.new.walk ≡ self.old.walk }
        ensures sequence { self.new.sequence ≡ self.old.sequence }
        ensures at { self.new.at ≡ self.old.at }
        ensures ok { IfOk result (IsSeen self.old.sequence
            (then_some skipping self.old.saved_key.items) (M.here self.old.walk)
            self.new.saved_key.items) }
        ensures cause { IfErr result (FailsToRead (M.here self.old.walk)) }
    {
        let alloc = *self.saved_key.allocator();
        let Some((kind, sequence, user, value)) = entry_at::<E, T, M>(alloc, &self.walk)? else {
            return Ok(Seen::End);
        };
        self.bytes_read = with_entry(self.bytes_read, user, value);
        if sequence > self.sequence || (skipping && user == self.saved_key.as_slice()) {
            return Ok(Seen::Passed(skipping));
        }
        match kind {
            ValueType::TypeValue => Ok(Seen::Shown),
            ValueType::TypeDeletion => {
                keep(&mut self.saved_key, user)?;
                Ok(Seen::Passed(true))
            }
        }
    }

    // Keeps the user's key of the entry that the walk below is at.
    #[inline(always)]
    fn save_key<E, T>(&mut self) -> Result<()>
    where
        M: Walk<E, T>,
        ensures walk { self.new.walk ≡ self.old.walk }
        ensures sequence { self.new.sequence ≡ self.old.sequence }
        ensures at { self.new.at ≡ self.old.at }
        ensures key { IfOk result (λ _. (pair : Pair) → M.here self.old.walk ≡ Some pair
            → self.new.saved_key.items ≡ user_part pair.0) }
        ensures cause { IfErr result IsOutOfMemory }
    {
        match self.walk.current() {
            None => Ok(()),
            Some((key, _)) => keep(&mut self.saved_key, split_sequence(key).0),
        }
    }

    // Goes over an entry that isn't shown. Returns whether there is a key to skip from there on, or
    // none where the scan ends.
    #[inline(always)]
    fn step_next<E, T>(
        &mut self,
        env: &mut E,
        tables: &mut T,
        skipping: bool,
    ) -> Result<Option<bool>>
    where
        M: Walk<E, T>,
        requires { self.old.at ≡ None }
        ensures sequence { self.new.sequence ≡ self.old.sequence }
        ensures at { OnErr result (self.new.at ≡ None) }
        ensures on { IfOk result (λ next. is_some next ≡ true → self.new.at ≡ None) }
        ensures moves { MovesBelow M.Walk
            (IsOnScan M.Walk (env.old, tables.old) self.old.walk self.old.sequence
            (then_some skipping self.old.saved_key.items))
            (IsNextStep M.Walk (env.new, tables.new) self.new.walk self.old.sequence self.new.at
            (self.new.saved_key.items, self.new.saved_value.items))
            (env.old, tables.old) self.old.walk result (env.new, tables.new) self.new.walk }
    {
        let next = match self.read_forward::<E, T>(skipping)? {
            Seen::End => return Ok(None),
            Seen::Shown => {
                self.at = Some(Direction::Forward);
                return Ok(None);
            }
            Seen::Passed(next) => next,
        };
        if self.walk.advance(env, tables)? {
            Ok(Some(next))
        } else {
            Ok(None)
        }
    }

    // Goes on, from the entry that the walk below is at, to one that is shown.
    #[inline(always)]
    fn find_next<E, T>(&mut self, env: &mut E, tables: &mut T, skipping: bool) -> Result<()>
    where
        M: Walk<E, T>,
        requires { self.old.at ≡ None }
        ensures sequence { self.new.sequence ≡ self.old.sequence }
        ensures at { OnErr result (self.new.at ≡ None) }
        ensures moves { MovesBelow M.Walk
            (IsOnScan M.Walk (env.old, tables.old) self.old.walk self.old.sequence
            (then_some skipping self.old.saved_key.items))
            (λ _. IsFoundNext M.Walk (env.new, tables.new) self.new.walk self.old.sequence
            self.new.at (self.new.saved_key.items, self.new.saved_value.items))
            (env.old, tables.old) self.old.walk result (env.new, tables.new) self.new.walk }
    {
        let mut skipping = skipping;
        for _ in 0..u128::MAX {
            match self.step_next(env, tables, skipping)? {
                None => return Ok(()),
                Some(next) => skipping = next,
            }
        }
        self.too_long()
    }

    // Goes to the entry after the pair that it is at, and from no position to the first entry.
    // Returns whether the key of the pair is to be skipped.
    #[inline(always)]
    fn step_off<E, T>(&mut self, env: &mut E, tables: &mut T) -> Result<bool>
    where
        M: Walk<E, T>,
        ensures sequence { self.new.sequence ≡ self.old.sequence }
        ensures at { self.new.at ≡ None }
        ensures moves { MovesBelow M.Walk
            (IsLeft M.Walk (env.old, tables.old) self.old.walk self.old.sequence self.old.at
            (self.old.saved_key.items, self.old.saved_value.items))
            (λ skipping. IsOnScan M.Walk (env.new, tables.new) self.new.walk self.old.sequence
            (then_some skipping self.new.saved_key.items))
            (env.old, tables.old) self.old.walk result (env.new, tables.new) self.new.walk }
    {
        let at = self.at;
        self.at = None;
        match at {
            None => {
                self.walk.seek_to_first(env, tables)?;
                Ok(false)
            }
            Some(Direction::Forward) => {
                self.save_key::<E, T>()?;
                self.walk.advance(env, tables)?;
                Ok(true)
            }
            Some(Direction::Reverse) => {
                self.walk.advance(env, tables)?;
                Ok(true)
            }
        }
    }
}

// Scans back, and the first halves of seeks.
impl<M> ViewWalk<M> {
    ghost use Rattle.leveldb_iter.specs.DbIterSteps.{IsTaken, FailsToRead, MovesBelow, IsOnScan, IsOnScanBack, IsStepBack, IsTurning, IsFoundPrevious, IsLeftBack, IsSought, IsWhole, is_at_key};

    // Takes the entry that the walk below is at for the pair to be shown, and returns whether one
    // is taken. A deletion takes it back. An entry of another key ends the search.
    #[inline(always)]
    fn read_backward<E, T>(&mut self, taken: bool) -> Result<Option<bool>>
    where
        M: Walk<E, T>,
        ensures walk { self.new.walk ≡ self.old.walk }
        ensures sequence { self.new.sequence ≡ self.old.sequence }
        ensures at { self.new.at ≡ self.old.at }
        ensures ok { IfOk result (IsTaken self.old.sequence
            (then_some taken (self.old.saved_key.items, self.old.saved_value.items))
            (M.here self.old.walk) (self.old.saved_key.items, self.old.saved_value.items)
            (self.new.saved_key.items, self.new.saved_value.items)) }
        ensures cause { IfErr result (FailsToRead (M.here self.old.walk)) }
    {
        let alloc = *self.saved_key.allocator();
        let Some((kind, sequence, user, value)) = entry_at::<E, T, M>(alloc, &self.walk)? else {
            return Ok(None);
        };
        self.bytes_read = with_entry(self.bytes_read, user, value);
        if sequence > self.sequence {
            return Ok(Some(taken));
        }
        if taken && user != self.saved_key.as_slice() {
            return Ok(None);
        }
        match kind {
            ValueType::TypeDeletion => Ok(Some(false)),
            ValueType::TypeValue => {
                if !taken {
                    keep(&mut self.saved_key, user)?;
                }
                keep(&mut self.saved_value, value)?;
                Ok(Some(true))
            }
        }
    }

    // Goes back over an entry. Returns whether a pair is taken, or none where the search ends.
    #[inline(always)]
    fn step_back<E, T>(&mut self, env: &mut E, tables: &mut T, taken: bool) -> Result<Option<bool>>
    where
        M: Walk<E, T>,
        requires { self.old.at ≡ None }
        ensures sequence { self.new.sequence ≡ self.old.sequence }
        ensures at { OnErr result (self.new.at ≡ None) }
        ensures on { IfOk result (λ next. is_some next ≡ true → self.new.at ≡ None) }
        ensures moves { MovesBelow M.Walk
            (IsOnScanBack M.Walk (env.old, tables.old) self.old.walk self.old.sequence
            (then_some taken (self.old.saved_key.items, self.old.saved_value.items)))
            (IsStepBack M.Walk (env.new, tables.new) self.new.walk self.old.sequence self.new.at
            (self.new.saved_key.items, self.new.saved_value.items))
            (env.old, tables.old) self.old.walk result (env.new, tables.new) self.new.walk }
    {
        let Some(now) = self.read_backward::<E, T>(taken)? else {
            self.at = taken.then_some(Direction::Reverse);
            return Ok(None);
        };
        if self.walk.prev(env, tables)? {
            return Ok(Some(now));
        }
        self.at = now.then_some(Direction::Reverse);
        Ok(None)
    }

    // Goes back, from the entry that the walk below is at, to before all entries of the last key
    // that is shown up to it.
    #[inline(always)]
    fn find_previous<E, T>(&mut self, env: &mut E, tables: &mut T) -> Result<()>
    where
        M: Walk<E, T>,
        requires { self.old.at ≡ None }
        ensures sequence { self.new.sequence ≡ self.old.sequence }
        ensures at { OnErr result (self.new.at ≡ None) }
        ensures moves { MovesBelow M.Walk
            (IsOnScanBack M.Walk (env.old, tables.old) self.old.walk self.old.sequence None)
            (λ _. IsFoundPrevious M.Walk (env.new, tables.new) self.new.walk self.old.sequence
            self.new.at (self.new.saved_key.items, self.new.saved_value.items))
            (env.old, tables.old) self.old.walk result (env.new, tables.new) self.new.walk }
    {
        let mut taken = false;
        for _ in 0..u128::MAX {
            match self.step_back(env, tables, taken)? {
                None => return Ok(()),
                Some(now) => taken = now,
            }
        }
        self.too_long()
    }

    // Whether the walk below is at an entry of the saved key.
    fn is_at_saved<E, T>(&self) -> bool
    where
        M: Walk<E, T>,
        ensures { result ≡ is_at_key self.now.saved_key.items (M.here self.now.walk) }
    {
        match self.walk.current() {
            None => false,
            Some((key, _)) => split_sequence(key).0 == self.saved_key.as_slice(),
        }
    }

    // Goes back to before all entries of the saved key.
    fn turn_back<E, T>(&mut self, env: &mut E, tables: &mut T) -> Result<()>
    where
        M: Walk<E, T>,
        ensures sequence { self.new.sequence ≡ self.old.sequence }
        ensures at { self.new.at ≡ self.old.at }
        ensures moves { MovesBelow M.Walk
            (IsTurning M.Walk (env.old, tables.old) self.old.walk self.old.sequence
            self.old.saved_key.items)
            (λ _. IsOnScanBack M.Walk (env.new, tables.new) self.new.walk self.old.sequence None)
            (env.old, tables.old) self.old.walk result (env.new, tables.new) self.new.walk }
    {
        for _ in 0..u128::MAX {
            self.walk.prev(env, tables)?;
            if !self.is_at_saved::<E, T>() {
                return Ok(());
            }
        }
        self.too_long()
    }

    // Goes to before all entries of the key of the pair that it is at.
    #[inline(always)]
    fn step_off_back<E, T>(
        &mut self,
        env: &mut E,
        tables: &mut T,
        direction: Direction,
    ) -> Result<()>
    where
        M: Walk<E, T>,
        ensures sequence { self.new.sequence ≡ self.old.sequence }
        ensures at { self.new.at ≡ None }
        ensures moves { MovesBelow M.Walk
            (IsLeftBack M.Walk (env.old, tables.old) self.old.walk self.old.sequence direction
            (self.old.saved_key.items, self.old.saved_value.items))
            (λ _. IsOnScanBack M.Walk (env.new, tables.new) self.new.walk self.old.sequence None)
            (env.old, tables.old) self.old.walk result (env.new, tables.new) self.new.walk }
    {
        self.at = None;
        match direction {
            Direction::Reverse => Ok(()),
            Direction::Forward => {
                self.save_key::<E, T>()?;
                self.turn_back(env, tables)
            }
        }
    }

    // Goes to the first entry of a key at or above the sequence number.
    fn to_key<E, T>(&mut self, env: &mut E, tables: &mut T, key: &[u8]) -> Result<()>
    where
        M: Walk<E, T>,
        ensures sequence { self.new.sequence ≡ self.old.sequence }
        ensures at { self.new.at ≡ None }
        ensures moves { MovesBelow M.Walk
            (IsSought M.Walk (env.old, tables.old) self.old.walk self.old.sequence key.now)
            (λ _. IsOnScan M.Walk (env.new, tables.new) self.new.walk self.old.sequence None)
            (env.old, tables.old) self.old.walk result (env.new, tables.new) self.new.walk }
    {
        self.at = None;
        keep(&mut self.saved_key, key)?;
        self.saved_key
            .extend_from_slice(&tag_bytes(self.sequence, ValueType::TypeValue))?;
        self.walk.seek(env, tables, self.saved_key.as_slice())
    }

    // Goes to the last entry.
    fn to_last<E, T>(&mut self, env: &mut E, tables: &mut T) -> Result<()>
    where
        M: Walk<E, T>,
        ensures sequence { self.new.sequence ≡ self.old.sequence }
        ensures at { self.new.at ≡ None }
        ensures moves { MovesBelow M.Walk
            (IsWhole M.Walk (env.old, tables.old) self.old.walk self.old.sequence)
            (λ _. IsOnScanBack M.Walk (env.new, tables.new) self.new.walk self.old.sequence None)
            (env.old, tables.old) self.old.walk result (env.new, tables.new) self.new.walk }
    {
        self.at = None;
        self.walk.seek_to_last(env, tables)
    }
}

impl<M> CountsBytes for ViewWalk<M> {
    ghost counted = { λ it. it.bytes_read };

    fn bytes_read(&self) -> u64 {
        self.bytes_read
    }
}

impl<E, T, M: Walk<E, T>> Walk<E, T> for ViewWalk<M> {
    ghost use Rattle.leveldb_iter.specs.DbIter.{IsViewOver, IsViewAt, view_here, FailsView};
    ghost use Rattle.leveldb_iter.specs.DbIterLaws.{view_laws};

    ghost over = { IsViewOver M.Walk };

    ghost is_at = { IsViewAt M.Walk };

    ghost here = { view_here M.Walk };

    ghost fails = { FailsView M.Walk };

    ghost keeps = { M.keeps };

    fn advance(&mut self, env: &mut E, tables: &mut T) -> Result<bool> {
        let skipping = self.step_off(env, tables)?;
        self.find_next(env, tables, skipping)?;
        Ok(Walk::<E, T>::valid(self))
    }

    fn prev(&mut self, env: &mut E, tables: &mut T) -> Result<bool> {
        let Some(direction) = self.at else {
            return Ok(false);
        };
        self.step_off_back(env, tables, direction)?;
        self.find_previous(env, tables)?;
        Ok(Walk::<E, T>::valid(self))
    }

    fn seek(&mut self, env: &mut E, tables: &mut T, key: &[u8]) -> Result<()> {
        self.to_key(env, tables, key)?;
        self.find_next(env, tables, false)
    }

    fn seek_to_first(&mut self, env: &mut E, tables: &mut T) -> Result<()> {
        self.at = None;
        Walk::<E, T>::advance(self, env, tables)?;
        Ok(())
    }

    fn seek_to_last(&mut self, env: &mut E, tables: &mut T) -> Result<()> {
        self.to_last(env, tables)?;
        self.find_previous(env, tables)
    }

    fn reset(&mut self) {
        self.at = None;
    }

    fn current(&self) -> Option<(&[u8], &[u8])> {
        match self.at? {
            Direction::Forward => {
                let (key, value) = self.walk.current()?;
                Some((split_sequence(key).0, value))
            }
            Direction::Reverse => Some((self.saved_key.as_slice(), self.saved_value.as_slice())),
        }
    }

    fn valid(&self) -> bool {
        match self.at {
            None => false,
            Some(Direction::Forward) => self.walk.valid(),
            Some(Direction::Reverse) => true,
        }
    }

    ghost laws = { view_laws M.laws };
}
