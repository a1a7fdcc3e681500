//! The orders of internal keys and of memtable keys, each made from an order of users' keys.
// LevelDB: db/dbformat.cc, InternalKeyComparator; db/memtable.h, KeyComparator
ghost use Rattle.std.specs.Prelude.{◌≡◌, ◌<◌, ◌^◌, ℕ, List, IfOk, IfErr};
ghost use Rattle.leveldb_base.specs.Error.{IsOutOfMemory};
ghost use Rattle.leveldb_base.specs.KeyTypes.{internal_key, internal_cmp, memtable_cmp};
ghost use Rattle.leveldb_base.specs.Cmp.{internal_accepts, internal_separator, internal_successor, memtable_accepts};
ghost use Rattle.leveldb_base.specs.CmpLaws.{internal_preorder, internal_separates, internal_succeeds, memtable_preorder, memtable_separates, memtable_succeeds};

use crate::cmp::{Cmp, UserCmp};
use crate::error::Result;
use crate::key_types::{
    InternalKey, TAG_LEN, UserKey, ValueType, cmp_internal_key, cmp_memtable_key, front_key,
    split_sequence, tag_bytes,
};
use crate::types::{MAX_SEQUENCE_NUMBER, SequenceNumber};
use std::alloc::Global;
use std::cmp::Ordering;

/// Orders internal keys: by the user's key rising, then by the sequence number falling. It accepts
/// keys with a whole tag whose user's key is accepted.
#[derive(Clone, Copy, Debug)]
pub struct InternalKeyCmp<C>(pub C);

impl<C: Cmp> InternalKeyCmp<C> {
    /// The order of users' keys.
    #[inline]
    pub fn cmp_inner(&self, a: UserKey<'_>, b: UserKey<'_>) -> Ordering
        ensures { result ≡ C.cmp self.now.0 a.now b.now }
    {
        self.0.cmp(a, b)
    }
}

/// It needs a user comparator: a separator of keys that differ and yet are equal may be after both.
impl<C: UserCmp> Cmp for InternalKeyCmp<C> {
    ghost accepts = { λ c. internal_accepts (C.accepts c.0) };

    ghost cmp = { λ c. internal_cmp (C.cmp c.0) };

    ghost shortest_sep = { λ c. internal_separator (C.cmp c.0) (C.shortest_sep c.0) };

    ghost short_succ = { λ c. internal_successor (C.short_succ c.0) };

    ghost name = { λ c. C.name c.0 };

    fn accepts(&self, key: &[u8]) -> bool {
        accepts_internal_key(&self.0, key)
    }

    #[inline]
    fn cmp(&self, a: &[u8], b: &[u8]) -> Ordering {
        cmp_internal_key(&self.0, a, b)
    }

    fn find_shortest_sep(&self, alloc: Global, from: &[u8], to: &[u8]) -> Result<Vec<u8>> {
        if from == to {
            return Ok(Vec::from_slice(alloc, from)?);
        }
        let (user, number) = split_sequence(from);
        let (limit, _) = split_sequence(to);
        let sep = self.0.find_shortest_sep(alloc, user, limit)?;
        let moved = sep.len() < user.len() && self.0.cmp(user, sep.as_slice()).is_lt();
        let sequence = if moved { MAX_SEQUENCE_NUMBER } else { number };
        with_tag(sep, sequence)
    }

    fn find_short_succ(&self, alloc: Global, key: &[u8]) -> Result<Vec<u8>> {
        let (user, number) = split_sequence(key);
        with_tag(self.0.find_short_succ(alloc, user)?, number)
    }

    fn id(&self) -> &'static str {
        self.0.id()
    }

    ghost preorder = { λ c. internal_preorder (C.preorder c.0) };

    ghost separates = { λ c.
        internal_separates (C.preorder c.0) (C.exact c.0) (C.shortest_sep c.0) (C.separates c.0) };

    ghost succeeds = { λ c.
        internal_succeeds (C.preorder c.0) (C.short_succ c.0) (C.succeeds c.0) };
}

// Whether the key has a whole tag and an accepted user's key.
fn accepts_internal_key<C: Cmp>(ucmp: &C, key: InternalKey<'_>) -> bool
    ensures { result ≡ internal_accepts (C.accepts ucmp.now) key.now }
{
    key.len() >= TAG_LEN && ucmp.accepts(split_sequence(key).0)
}

// The internal key of a user's key, for a value.
fn with_tag(user: Vec<u8>, sequence: SequenceNumber) -> Result<Vec<u8>>
    requires { sequence < 2 ^ 56 }
    ensures ok { IfOk result (λ key.
        key.items ≡ internal_key user.items sequence ValueType.TypeValue) }
    ensures cause { IfErr result IsOutOfMemory }
{
    let mut key = user;
    key.extend_from_slice(&tag_bytes(sequence, ValueType::TypeValue))?;
    Ok(key)
}

/// Orders memtable keys and look-up keys by their internal keys. It accepts keys whose internal key
/// has a whole tag and an accepted user's key. Such keys are never shortened: `find_shortest_sep`
/// and `find_short_succ` return the first key.
#[derive(Clone, Copy, Debug)]
pub struct MemtableKeyCmp<C>(pub C);

impl<C: Cmp> Cmp for MemtableKeyCmp<C> {
    ghost accepts = { λ c. memtable_accepts (C.accepts c.0) };

    ghost cmp = { λ c. memtable_cmp (C.cmp c.0) };

    ghost shortest_sep = { λ _ a _. a };

    ghost short_succ = { λ _ a. a };

    ghost name = { λ c. C.name c.0 };

    fn accepts(&self, key: &[u8]) -> bool {
        accepts_internal_key(&self.0, front_key(key))
    }

    #[inline]
    fn cmp(&self, a: &[u8], b: &[u8]) -> Ordering {
        cmp_memtable_key(&self.0, a, b)
    }

    fn find_shortest_sep(&self, alloc: Global, from: &[u8], _to: &[u8]) -> Result<Vec<u8>> {
        Ok(Vec::from_slice(alloc, from)?)
    }

    fn find_short_succ(&self, alloc: Global, key: &[u8]) -> Result<Vec<u8>> {
        Ok(Vec::from_slice(alloc, key)?)
    }

    fn id(&self) -> &'static str {
        self.0.id()
    }

    ghost preorder = { λ c. memtable_preorder (C.preorder c.0) };

    ghost separates = { λ c a b ha _ _. memtable_separates (C.preorder c.0) a b ha };

    ghost succeeds = { λ c. memtable_succeeds (C.preorder c.0) };
}
