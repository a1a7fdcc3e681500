//! Filters of internal keys, into which the users' keys alone go.
// LevelDB: db/dbformat.cc, InternalFilterPolicy
ghost use Rattle.std.specs.Prelude.{◌≡◌, IfOk, IfErr, map};
ghost use Rattle.leveldb_base.specs.KeyTypes.{user_part};
ghost use Rattle.leveldb_base.specs.Error.{IsOutOfMemory};
ghost use Rattle.leveldb_env.specs.Filter.{keys_at};

use crate::filter::{FilterPolicy, key_at};
use leveldb_base::error::Result;
use leveldb_base::key_types::{InternalKey, UserKey};
use std::alloc::Global;
use std::marker::Model;

/// A policy for users' keys, put to internal keys: the eight bytes of the tag are cut off each. A
/// key of fewer bytes has no user's key, and is taken as empty. Clauses see it as the policy for
/// users' keys.
#[derive(Clone, Copy, Debug, Drop)]
pub struct InternalFilterPolicy<FP> {
    internal: FP,
}

impl<FP> Model for InternalFilterPolicy<FP> {
    ghost Value = { FP };

    ghost view = { λ policy. policy.internal };

    ghost inverse = { λ inner. record { internal = inner } };
}

impl<FP> InternalFilterPolicy<FP> {
    /// This policy, put to internal keys.
    pub fn new(inner: FP) -> InternalFilterPolicy<FP>
        ensures { result ≡ inner }
    {
        InternalFilterPolicy { internal: inner }
    }
}

impl<FP: FilterPolicy> FilterPolicy for InternalFilterPolicy<FP> {
    ghost use Rattle.leveldb_env.specs.FilterLaws.{cut_keys_find};

    ghost name = { λ inner. FP.name inner };

    ghost filter_for = { λ inner keys. FP.filter_for inner (map user_part keys) };

    ghost too_large = { λ inner keys. FP.too_large inner (map user_part keys) };

    ghost matches = { λ inner key. FP.matches inner (user_part key) };

    fn name(&self) -> &'static str {
        self.internal.name()
    }

    fn create_filter(&self, alloc: Global, keys: &[u8], key_offsets: &[usize]) -> Result<Vec<u8>> {
        let (users, offsets) = user_keys(alloc, keys, key_offsets)?;
        self.internal.create_filter(alloc, &users, &offsets)
    }

    fn key_may_match(&self, key: &[u8], filter: &[u8]) -> bool {
        self.internal.key_may_match(user_key(key), filter)
    }

    ghost finds = { λ inner. cut_keys_find (FP.filter_for inner) (FP.matches inner)
        (FP.finds inner) };
}

// The number of bytes of an internal key's tag.
const TAG_LEN: usize = 8;

#[inline]
fn user_key(key: InternalKey<'_>) -> UserKey<'_>
    ensures { result.now ≡ user_part key.now }
{
    &key[..key.len().saturating_sub(TAG_LEN)]
}

// The users' keys, one after another, and where each begins.
fn user_keys(alloc: Global, keys: &[u8], key_offsets: &[usize]) -> Result<(Vec<u8>, Vec<usize>)>
    ensures keys { IfOk result
        (λ made. keys_at made.1.items made.0.items ≡ map user_part
        (keys_at key_offsets.now keys.now)) }
    ensures cause { IfErr result IsOutOfMemory }
{
    let mut users = Vec::with_capacity(alloc, keys.len())?;
    let mut offsets = Vec::with_capacity(alloc, key_offsets.len())?;
    for i in 0..key_offsets.len() {
        offsets.push(users.len())?;
        users.extend_from_slice(user_key(key_at(keys, key_offsets, i)))?;
    }
    Ok((users, offsets))
}
