//! Filters, which rule out most keys that are in none of the blocks that they were made for.
// LevelDB: include/leveldb/filter_policy.h
ghost use Rattle.std.specs.Prelude.{◌≡◌, ◌<◌, ℕ, Bool, true, List, [], length, Contains, IfOk, IfErr, OnOk, slice_index_or};
ghost use Rattle.leveldb_env.specs.Filter.{keys_at, IsFilterError};

use leveldb_base::error::Result;
use std::alloc::Global;

mod bloom;
mod internal;

pub use bloom::BloomPolicy;
pub use internal::InternalFilterPolicy;

/// How a filter is made for keys, and how a key is looked for in it. A key from which a filter was
/// made matches it; of another key it is left open.
pub trait FilterPolicy {
    ghost name: { Self → List ℕ };

    /// The filter that is made for these keys.
    ghost filter_for: { Self → List (List ℕ) → List ℕ };

    /// Whether that filter is too large.
    ghost too_large: { Self → List (List ℕ) → Type 0 };

    /// Whether a key matches a filter.
    ghost matches: { Self → List ℕ → List ℕ → Bool };

    /// The policy's name, under which a table keeps its filters.
    fn name(&self) -> &'static str
        ensures { result.now ≡ name self.now };

    /// A filter for keys that are stored one after another, each from its offset on to the next one
    /// or to the end; a key is empty where the next offset isn't after its own. `NotSupported`
    /// where the filter is too large.
    fn create_filter(&self, alloc: Global, keys: &[u8], key_offsets: &[usize]) -> Result<Vec<u8>>
        ensures ok { IfOk result
            (λ filter. filter.items ≡ filter_for self.now (keys_at key_offsets.now keys.now)) }
        ensures fits { OnOk result (too_large self.now (keys_at key_offsets.now keys.now) → ⊥) }
        ensures cause { IfErr result
            (IsFilterError (too_large self.now (keys_at key_offsets.now keys.now))) };

    /// Whether the key may be one of those that the filter was made for. It takes no memory.
    fn key_may_match(&self, key: &[u8], filter: &[u8]) -> bool
        ensures { result ≡ matches self.now key.now filter.now };

    /// A key from which a filter was made matches it.
    ghost finds: { (policy : Self) (keys : List (List ℕ)) (key : List ℕ) → Contains keys key
        → matches policy key (filter_for policy keys) ≡ true };
}

/// A reference to a policy is one too.
impl<FP: FilterPolicy> FilterPolicy for &FP {
    ghost name = { λ policy. FP.name policy.now };

    ghost filter_for = { λ policy. FP.filter_for policy.now };

    ghost too_large = { λ policy. FP.too_large policy.now };

    ghost matches = { λ policy. FP.matches policy.now };

    fn name(&self) -> &'static str {
        (**self).name()
    }

    fn create_filter(&self, alloc: Global, keys: &[u8], key_offsets: &[usize]) -> Result<Vec<u8>> {
        (**self).create_filter(alloc, keys, key_offsets)
    }

    fn key_may_match(&self, key: &[u8], filter: &[u8]) -> bool {
        (**self).key_may_match(key, filter)
    }

    ghost finds = { λ policy. FP.finds policy.now };
}

/// No filter: an empty one, which every key matches.
#[derive(Clone, Copy, Debug, Default)]
pub struct NoFilterPolicy;

impl NoFilterPolicy {
    /// The policy, which holds nothing.
    pub fn new() -> NoFilterPolicy {
        NoFilterPolicy
    }
}

impl FilterPolicy for NoFilterPolicy {
    ghost use Rattle.std.specs.Prelude.{codes, refl};

    ghost name = { λ _. codes "_" };

    ghost filter_for = { λ _ _. [] };

    ghost too_large = { λ _ _. ⊥ };

    ghost matches = { λ _ _ _. true };

    fn name(&self) -> &'static str {
        "_"
    }

    fn create_filter(
        &self,
        alloc: Global,
        _keys: &[u8],
        _key_offsets: &[usize],
    ) -> Result<Vec<u8>> {
        Ok(Vec::new(alloc))
    }

    fn key_may_match(&self, _key: &[u8], _filter: &[u8]) -> bool {
        true
    }

    ghost finds = { λ _ _ _ _. refl };
}

// The key of this index among those that are stored one after another. Offsets that fall, or that
// are past the end, cut what there is.
#[inline]
fn key_at<'a>(keys: &'a [u8], key_offsets: &[usize], index: usize) -> &'a [u8]
    requires there { index < length key_offsets.now }
    ensures { result.now ≡ slice_index_or (keys_at key_offsets.now keys.now) index [] }
{
    let begin = key_offsets[index].min(keys.len());
    let end = if index + 1 < key_offsets.len() {
        key_offsets[index + 1]
    } else {
        keys.len()
    };
    &keys[begin..end.min(keys.len()).max(begin)]
}
