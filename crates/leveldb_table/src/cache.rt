//! Caches: values under keys of 16 bytes, as many as there is room for, of which the least
//! recently used goes first.
// LevelDB: util/cache.cc
ghost use Rattle.std.specs.Prelude.{◌≡◌, ◌↔◌, ◌+◌, ◌^◌, ◌<◌, ◌≤◌, [], length, None, Some, nat_eq, IfOk, IfErr, OnErr, OnOk, IsErrAnd, IsTrue, IfSome, IfNone, option_copied, option_map};
ghost use Rattle.std.specs.List.{IsDistinct};
ghost use Rattle.std.specs.Str.{bytes_eq};
ghost use Rattle.std.specs.Map.{keys_of};
ghost use Rattle.lru.specs.LruCache.{last_entry};
ghost use Rattle.leveldb_base.specs.Error.{IsOutOfMemory};
ghost use Rattle.leveldb_base.specs.declared.error.StatusCode.TheVariants.{NotSupported};
ghost use Rattle.leveldb_table.specs.Cache.{value_of, others, put_first, leaving_room};

use key::Key;
use leveldb_base::error::{Result, StatusCode, err};
use lru::LruCache;
use std::alloc::Global;
use std::marker::Model;
use std::num::NonZeroUsize;

mod key;

/// What a value is found by: the number of a cache's user and its own number.
pub type CacheKey = [u8; 16];

/// A number by which one user of a cache says its keys from those of others.
pub type CacheID = u64;

/// Values under keys, the one that was used last first. A cache with room for none keeps nothing.
#[derive(Drop)]
pub struct Cache<T: Drop> {
    recent: LruCache<Key, T>,

    // whether there is room for a value; else `recent` isn't used
    keeps: bool,

    // the number that was given last, or 0
    id: CacheID,
}

impl<T: Drop> Model for Cache<T> {
    ghost use Rattle.std.specs.Prelude.{if◌then◌else◌, []};
    ghost use Rattle.leveldb_table.specs.Cache.{Cached};

    ghost Value = { Cached T };

    ghost view = { λ it. record {
      pairs = if it.keeps then it.recent.entries else [];
      capacity = if it.keeps then it.recent.cap else 0;
      given = it.id;
    } };
}

impl<T: Drop> Cache<T> {
    ghost use Rattle.std.specs.Borrow.{sem};
    ghost use Rattle.leveldb_table.specs.CacheBorrow.{EndsLookedFor};

    /// A cache with room for `capacity` values. One with room for none keeps nothing, so that each
    /// read that it is given to is a read without a cache.
    pub fn new(alloc: Global, capacity: usize) -> Result<Cache<T>>
        ensures ok { IfOk result
            (λ cache. cache ≡ record { pairs = []; capacity = capacity; given = 0 }) }
        ensures memory { IfErr result IsOutOfMemory }
    {
        let room = NonZeroUsize::new(capacity.max(1)).unwrap();
        Ok(Cache {
            recent: LruCache::sparse(alloc, room)?,
            keeps: capacity > 0,
            id: 0,
        })
    }

    /// The next number, which this cache hasn't given before.
    /// `NotSupported` where all numbers of 64 bits are used up.
    pub fn new_cache_id(&mut self) -> Result<CacheID>
        ensures next { IfOk result (λ id. id ≡ self.old.given + 1) }
        ensures given { IfOk result (λ id. self.new ≡ record self.old { given = id }) }
        ensures err { OnErr result (self.new ≡ self.old) }
        ensures used_up { IsErrAnd result (λ status. status.code ≡ NotSupported)
            ↔ (self.old.given + 1 ≡ 2 ^ 64) }
        ensures cause { IfErr result (λ status. status.code ≡ NotSupported) }
    {
        let Some(id) = self.id.checked_add(1) else {
            let alloc = *self.recent.allocator();
            return err(alloc, StatusCode::NotSupported, "cache ids are used up");
        };
        self.id = id;
        Ok(id)
    }

    /// Whether all numbers are used up, so that the next `new_cache_id` fails.
    pub fn is_used_up(&self) -> bool
        ensures { IsTrue result ↔ (self.now.given + 1 ≡ 2 ^ 64) }
    {
        self.id == CacheID::MAX
    }

    /// How many values there are.
    pub fn count(&self) -> usize
        ensures count { result ≡ length self.now.pairs }
        ensures within { result ≤ self.now.capacity }
        ensures distinct { IsDistinct bytes_eq (keys_of self.now.pairs) }
    {
        if self.keeps { self.recent.len() } else { 0 }
    }

    /// How many values there may be.
    pub fn cap(&self) -> usize
        ensures { result ≡ self.now.capacity }
    {
        if self.keeps {
            self.recent.cap().get()
        } else {
            0
        }
    }

    /// Puts a value under a key, instead of the one that was there. It counts as used.
    /// Where the key is new and there is no room, the value goes that was used least recently; in
    /// a cache with room for none that is this one.
    pub fn insert(&mut self, key: &CacheKey, elem: T) -> Result<()>
        ensures ok { OnOk result (self.new ≡ record self.old
            { pairs = put_first self.old.capacity key.now elem self.old.pairs }) }
        ensures err { OnErr result (self.new ≡ self.old) }
        ensures memory { IfErr result IsOutOfMemory }
    {
        if self.cap() == 0 {
            return Ok(());
        }
        self.recent.put(Key(*key), elem)?;
        Ok(())
    }

    /// Takes out the value that was used least recently, where there is no room for one more, so
    /// that the next `insert` displaces none.
    pub(crate) fn make_room(&mut self) -> Option<T>
        ensures pairs { self.new ≡ record self.old
            { pairs = leaving_room self.old.capacity self.old.pairs } }
        ensures some { IfSome result (λ value.
            option_map (λ pair. pair.1) (last_entry self.old.pairs) ≡ Some value) }
        ensures none { IfNone result (self.new ≡ self.old) }
    {
        if !self.keeps || self.recent.len() < self.recent.cap().get() {
            return None;
        }
        let (_, value) = self.recent.pop_lru()?;
        Some(value)
    }

    /// The value under a key, which counts as used.
    pub fn get<'a>(&'a mut self, key: &CacheKey) -> Option<&'a T>
        ensures* used { sem 𝓛 (EndsLookedFor T.row self.entry key.now) }
        ensures value { option_copied result ≡ value_of key.now self.old.pairs }
    {
        if !self.keeps {
            return None;
        }
        self.recent.get(&Key(*key))
    }

    /// The value under a key, which doesn't count as used.
    pub fn peek(&self, key: &CacheKey) -> Option<&T>
        ensures { option_copied result ≡ value_of key.now self.now.pairs }
    {
        if !self.keeps {
            return None;
        }
        self.recent.peek(&Key(*key))
    }

    /// Takes the value under a key out.
    pub fn remove(&mut self, key: &CacheKey) -> Option<T>
        ensures value { result ≡ value_of key.now self.old.pairs }
        ensures pairs { self.new ≡ record self.old { pairs = others key.now self.old.pairs } }
        ensures gone { value_of key.now self.new.pairs ≡ None }
    {
        if self.count() == 0 {
            return None;
        }
        self.recent.pop(&Key(*key))
    }
}
