//! Snapshots: the sequence numbers at which readers hold a store.
// LevelDB: db/snapshot.h
ghost use Rattle.std.specs.Prelude.{◌≡◌, ◌↔◌, ◌⊎◌, ◌^◌, ◌-◌, [], Contains, IfErr, IfOk, IfSome, IsSome, IsTrue, OnErr, Some, slice_get};
ghost use Rattle.std.specs.Bool.{OnFalse, OnTrue};
ghost use Rattle.leveldb_base.specs.Error.{IsOutOfMemory};
ghost use Rattle.leveldb_base.specs.declared.error.StatusCode.TheVariants.{NotSupported};
ghost use Rattle.leveldb_iter.specs.Snapshot.{Gives, IsNewest, IsOldest, IsSmallestHeld, Releases};

use leveldb_base::error::{Result, StatusCode, err};
use leveldb_base::types::SequenceNumber;
use std::alloc::Global;
use std::marker::Model;

/// A sequence number at which a store is read, and the number under which it was given out.
#[derive(Clone, Copy, Debug, PartialEq, Eq)]
pub struct Snapshot {
    number: u64,
    sequence: SequenceNumber,
}

impl Snapshot {
    /// The sequence number at which it reads.
    pub fn sequence(&self) -> SequenceNumber
        ensures { result ≡ self.now.sequence }
    {
        self.sequence
    }
}

/// The snapshots that are held, in the order in which they were given out.
#[derive(Drop)]
pub struct SnapshotList {
    alloc: Global,
    held: Vec<Snapshot>,

    // The number that was given out last, or 0.
    given: u64,
}

impl Model for SnapshotList {
    ghost use Rattle.leveldb_iter.specs.Snapshot.{HeldSnapshots};

    ghost Value = { HeldSnapshots };

    ghost view = { λ it. record { held = it.held.items; given = it.given } };

    ghost use Rattle.std.specs.Prelude.{◌<◌, ◌≤◌, All, AllPairs};

    // Each was given out, under a number of its own.
    ghost invariant = { λ it. All (λ one. one.number ≤ it.given) it.held.items
        × AllPairs (λ a b. a.number < b.number) it.held.items };
}

impl SnapshotList {
    /// A list of none, of which none was given out.
    pub fn new(alloc: Global) -> SnapshotList
        ensures { result ≡ record { held = []; given = 0 } }
    {
        SnapshotList {
            alloc,
            held: Vec::new(alloc),
            given: 0,
        }
    }

    /// Gives out a snapshot, which is held from now on, under a number that none before has.
    /// `NotSupported` if all numbers of 64 bits are used up.
    pub fn new_snapshot(&mut self, sequence: SequenceNumber) -> Result<Snapshot>
        ensures gives { IfOk result (λ one. Gives sequence self.old one self.new) }
        ensures err { OnErr result (self.new ≡ self.old) }
        ensures cause { IfErr result (λ status. IsOutOfMemory status
            ⊎ ((status.code ≡ NotSupported) × (self.old.given ≡ 2 ^ 64 - 1))) }
    {
        let Some(number) = self.given.checked_add(1) else {
            return err(
                self.alloc,
                StatusCode::NotSupported,
                "snapshot numbers are used up",
            );
        };
        let snapshot = Snapshot { number, sequence };
        self.held.push(snapshot)?;
        self.given = number;
        Ok(snapshot)
    }

    /// Whether the snapshot is held.
    pub fn is_held(&self, snapshot: Snapshot) -> bool
        ensures { IsTrue result ↔ Contains self.now.held snapshot }
    {
        self.held.contains(&snapshot)
    }

    /// Releases a snapshot. Returns whether it was held.
    pub fn release(&mut self, snapshot: Snapshot) -> bool
        ensures held { IsTrue result ↔ Contains self.old.held snapshot }
        ensures releases { OnTrue result (Releases self.old snapshot self.new) }
        ensures none { OnFalse result (self.new ≡ self.old) }
    {
        let Some(index) = index_of(self.held.as_slice(), snapshot) else {
            return false;
        };
        self.held.remove(index);
        true
    }

    /// The least sequence number of a snapshot that is held, or 0 if none is.
    pub fn oldest(&self) -> SequenceNumber
        ensures { IsOldest self.now.held result }
    {
        let Some(first) = self.held.first() else {
            return 0;
        };
        let mut least = first.sequence;
        for one in &self.held {
            least = least.min(one.sequence);
        }
        least
    }

    /// The greatest sequence number of a snapshot that is held, or 0 if none is.
    pub fn newest(&self) -> SequenceNumber
        ensures { IsNewest self.now.held result }
    {
        let mut greatest = 0;
        for one in &self.held {
            greatest = one.sequence.max(greatest);
        }
        greatest
    }

    /// The smallest sequence number at which a store is read whose last one is this: the least of a
    /// snapshot that is held, or the last if none is.
    pub fn smallest_held(&self, last: SequenceNumber) -> SequenceNumber
        ensures { IsSmallestHeld self.now.held last result }
    {
        if self.held.is_empty() {
            return last;
        }
        self.oldest()
    }

    /// Whether no snapshot is held.
    pub fn empty(&self) -> bool
        ensures { IsTrue result ↔ (self.now.held ≡ []) }
    {
        self.held.is_empty()
    }
}

// The index of a snapshot.
fn index_of(held: &[Snapshot], snapshot: Snapshot) -> Option<usize>
    ensures found { IfSome result (λ i. slice_get held.now i ≡ Some snapshot) }
    ensures held { IsSome result ↔ Contains held.now snapshot }
{
    held.iter().position(|one| *one == snapshot)
}
