//! A walk over the entries of a memtable.
// LevelDB: db/memtable.cc, MemTableIterator
ghost use Rattle.std.specs.Prelude.{map};
ghost use Rattle.std.specs.Ordering.{is_lt};
ghost use Rattle.std.specs.Option.{ForSome};
ghost use Rattle.leveldb_base.specs.KeyTypes.{front_key, internal_cmp};
ghost use Rattle.leveldb_mem.specs.SkipMap.{HasNode, position_of_node};
ghost use Rattle.leveldb_base.specs.Entries.{internal_pair};

use crate::memtable::MemTable;
use crate::skipmap::search::Probe;
use leveldb_base::cmp::{Cmp, UserCmp};
use leveldb_base::error::Result;
use leveldb_base::key_types::{InternalKey, cmp_internal_key, front_key};
use leveldb_base::types::LdbIterator;

/// An internal key among memtable keys.
#[derive(Drop)]
pub(crate) struct AtInternalKey<'a, C> {
    pub(crate) cmp: &'a C,
    pub(crate) key: InternalKey<'a>,
}

impl<'a, C: Cmp> Probe for AtInternalKey<'a, C> {
    ghost passes = { λ it key.
        is_lt (internal_cmp (C.cmp it.cmp.now) (front_key key) it.key.now) };

    #[inline]
    fn is_after(&self, key: &[u8]) -> bool {
        cmp_internal_key(self.cmp, front_key(key), self.key).is_lt()
    }
}

/// A walk over internal keys with their values, deletions among them with the empty value, which
/// takes no memory and never fails.
#[derive(Drop)]
pub struct MemtableIterator<'a, C: Cmp> {
    pub(crate) table: &'a MemTable<C>,
    // the node of the current entry
    pub(crate) node: Option<usize>,
    ghost within: { ForSome node
        (HasNode table.now.nodes (map internal_pair table.now.kept.entries)) },
}

impl<'a, C: UserCmp> LdbIterator for MemtableIterator<'a, C> {
    ghost use Rattle.std.proofs.Common.{rules};

    ghost pairs = { λ it. map internal_pair it.table.now.kept.entries };

    ghost position = { λ it. position_of_node it.table.now.nodes it.node };

    ghost order = { λ it. internal_cmp (C.cmp it.table.now.cmp) };

    ghost fails = { λ _ _ _. ⊥ };

    fn advance(&mut self) -> Result<bool> {
        self.node = match self.node {
            None => self.table.first(),
            Some(node) => self.table.after(node),
        };
        Ok(self.node.is_some())
    }

    fn prev(&mut self) -> Result<bool> {
        self.node = match self.node {
            None => None,
            Some(node) => self.table.previous(node),
        };
        Ok(self.node.is_some())
    }

    fn seek(&mut self, key: &[u8]) -> Result<()> {
        self.node = self.table.first_at(key);
        Ok(())
    }

    fn seek_to_last(&mut self) -> Result<()> {
        self.node = self.table.last();
        Ok(())
    }

    fn current(&self) -> Option<(&[u8], &[u8])> {
        match self.node {
            None => None,
            Some(node) => Some(self.table.pair(node)),
        }
    }

    fn reset(&mut self) {
        self.node = None;
    }

    fn valid(&self) -> bool {
        self.node.is_some()
    }

    ghost in_range = { λ it. Prim.search rules };
}
