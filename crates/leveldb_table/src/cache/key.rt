//! The keys of a cache as its map has them.
// LevelDB: util/cache.cc
ghost use Rattle.std.specs.Prelude.{◌∷◌, []};
ghost use Rattle.std.proofs.Common.{ap, sym};
ghost use Rattle.std.specs.Str.{bytes_eq};
ghost use Rattle.std.specs.Cmp.{partial_equiv_from_equiv};
ghost use Rattle.std.specs.Cmp.Lexicographic.{nat_list_eq_equiv, same_text};

use crate::cache::CacheKey;
use leveldb_base::cmp::{Cmp, DefaultCmp};
use std::hash::{Hash, Hasher};
use std::marker::Model;

/// A key whose bytes are hashed by one write, and compared by words.
#[derive(Drop)]
pub(crate) struct Key(pub CacheKey);

impl Model for Key {
    ghost use Rattle.std.specs.Prelude.{ℕ, List};

    ghost Value = { List ℕ };

    ghost view = { λ key. key.0 };
}

impl PartialEq for Key {
    ghost eq = { bytes_eq };

    ghost laws = { partial_equiv_from_equiv nat_list_eq_equiv };

    fn eq(&self, other: &Key) -> bool {
        DefaultCmp.cmp(&self.0, &other.0).is_eq()
    }
}

impl Eq for Key {
    ghost laws = { nat_list_eq_equiv };
}

impl Hash for Key {
    ghost hash_input = { λ key. key ∷ [] };

    ghost respects_eq = { λ x y same. ap (λ key. key ∷ []) (same_text x y (sym same)) };

    fn hash<H: Hasher>(&self, state: &mut H) {
        state.write(&self.0);
    }
}
