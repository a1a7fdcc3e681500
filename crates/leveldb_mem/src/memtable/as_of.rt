//! A user's key as of a sequence number, among memtable keys.
// LevelDB: db/dbformat.h, LookupKey
ghost use Rattle.std.specs.Ordering.{is_lt, ordering_then, nat_cmp};
ghost use Rattle.leveldb_base.specs.KeyTypes.{front_key, user_part, sequence_part};

use crate::skipmap::search::Probe;
use leveldb_base::cmp::Cmp;
use leveldb_base::key_types::{UserKey, front_key, split_sequence};
use leveldb_base::types::SequenceNumber;
use std::cmp::Ordering;

/// Where the key's newest entry at or below the sequence is.
#[derive(Drop)]
pub(crate) struct AsOf<'a, C> {
    pub(crate) cmp: &'a C,
    pub(crate) key: UserKey<'a>,
    pub(crate) sequence: SequenceNumber,
}

impl<'a, C: Cmp> Probe for AsOf<'a, C> {
    ghost passes = { λ it key.
        is_lt (ordering_then (C.cmp it.cmp.now (user_part (front_key key)) it.key.now)
        (nat_cmp it.sequence (sequence_part (front_key key)))) };

    #[inline]
    fn is_after(&self, key: &[u8]) -> bool {
        // The number, which may be in another cache line, is read for the user's own key alone.
        let internal = front_key(key);
        match self.cmp.cmp(split_sequence(internal).0, self.key) {
            Ordering::Less => true,
            Ordering::Equal => self.sequence < split_sequence(internal).1,
            Ordering::Greater => false,
        }
    }
}
