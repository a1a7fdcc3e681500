//! Which entries a merge drops, which the entry just before each decides.
// LevelDB: db/db_impl.cc, what DBImpl::DoCompactionWork drops
ghost use Rattle.std.specs.Prelude.{◌≡◌, Bool, IfErr, List, OnErr, OnOk, Option, None, Some, ℕ};
ghost use Rattle.leveldb_base.specs.Entries.{entry_of_pair};
ghost use Rattle.leveldb_base.specs.Error.{IsOutOfMemory};
ghost use Rattle.leveldb_base.specs.History.{Entry};
ghost use Rattle.leveldb_base.specs.KeyTypes.{sequence_part, type_part, user_part};
ghost use Rattle.leveldb_base.specs.Thinning.{goes_after};
ghost use Rattle.leveldb_base.specs.Types.{Pair};
ghost use Rattle.leveldb_store.specs.Compactions.Passing.{IsJustBefore, may_follow, number_of};

use leveldb_base::cmp::Cmp;
use leveldb_base::error::Result;
use leveldb_base::key_types::ValueType;
use leveldb_base::types::SequenceNumber;
use std::alloc::Global;
use std::cmp::Ordering;

/// What knows of user keys: whether a level that is deeper than that of the outputs has one, and
/// whether the inputs may have it.
pub trait MergeLevels {
    // whether no deeper level has a user key
    ghost is_base: { Self → List ℕ → Bool };

    // whether a user key is within the ranges of the inputs
    ghost is_among: { Self → List ℕ → Bool };

    /// Whether no deeper level may have a user key.
    fn is_base_level_for(&self, user: &[u8]) -> bool
        ensures { result ≡ is_base self.now user.now };

    /// Whether the inputs may have a user key: it isn't before the ranges of all of their files,
    /// nor after them.
    fn is_among_inputs(&self, user: &[u8]) -> bool
        ensures { result ≡ is_among self.now user.now };
}

// The entry just before, whether it stayed or went: its user key, and its number if there was one.
#[derive(Drop)]
pub(crate) struct Passing {
    user: Vec<u8>,
    sequence: Option<SequenceNumber>,
}

impl Passing {
    // Before the first entry.
    pub(crate) fn new(alloc: Global) -> Passing
        ensures { IsJustBefore result None }
    {
        Passing {
            user: Vec::new(alloc),
            sequence: None,
        }
    }

    // The number of the entry just before, if it is of this user key.
    fn number_of(&self, user: &[u8]) -> Option<SequenceNumber>
        ensures { (before : Option Entry) → IsJustBefore self.now before
            → result ≡ number_of before user.now }
    {
        if self.user.as_slice() == user {
            self.sequence
        } else {
            None
        }
    }

    // Whether an entry may come next: its user key is after that of the one just before, or it is
    // an older one of the same.
    pub(crate) fn follows<C: Cmp>(&self, cmp: &C, sequence: SequenceNumber, user: &[u8]) -> bool
        ensures { (before : Option Entry) (entry : Entry) → IsJustBefore self.now before
            → sequence ≡ entry.sequence → user.now ≡ entry.key
            → result ≡ may_follow (C.cmp cmp.now) before entry }
    {
        let Some(newer) = self.sequence else {
            return true;
        };
        match cmp.cmp(self.user.as_slice(), user) {
            Ordering::Less => true,
            Ordering::Equal => sequence < newer,
            Ordering::Greater => false,
        }
    }

    // Whether an entry is dropped: the one just before is of its user key and at or below the
    // smallest held number; or it is a deletion at or below that, whose key no deeper level may
    // have.
    pub(crate) fn goes<L: MergeLevels>(
        &self,
        levels: &L,
        smallest: SequenceNumber,
        kind: ValueType,
        sequence: SequenceNumber,
        user: &[u8],
    ) -> bool
        ensures { (before : Option Entry) (pair : Pair) → IsJustBefore self.now before
            → kind ≡ type_part pair.0 → sequence ≡ sequence_part pair.0
            → user.now ≡ user_part pair.0
            → result ≡ goes_after smallest (L.is_base levels.now) before (entry_of_pair pair) }
    {
        if let Some(newer) = self.number_of(user) {
            if newer <= smallest {
                return true;
            }
        }
        match kind {
            ValueType::TypeDeletion => sequence <= smallest && levels.is_base_level_for(user),
            ValueType::TypeValue => false,
        }
    }

    // Remembers an entry. Its user key is copied only where it is another than that of the one just
    // before. After an Err the one before is remembered still.
    pub(crate) fn keep(&mut self, sequence: SequenceNumber, user: &[u8]) -> Result<()>
        ensures ok { OnOk result ((entry : Entry) → sequence ≡ entry.sequence
            → user.now ≡ entry.key → IsJustBefore self.new (Some entry)) }
        ensures err { OnErr result ((before : Option Entry) → IsJustBefore self.old before
            → IsJustBefore self.new before) }
        ensures memory { IfErr result IsOutOfMemory }
    {
        if self.user.as_slice() != user {
            self.user
                .reserve(user.len().saturating_sub(self.user.len()))?;
            self.user.clear();
            self.user.extend_from_slice(user).unwrap();
        }
        self.sequence = Some(sequence);
        Ok(())
    }
}
