//! What is asked of a store, and what it replies.

use bytes::Bytes;
use leveldb_base::error::Status;
pub use leveldb_iter::moves::{Move, Step};

/// What is asked of a store.
#[derive(Debug, Drop)]
pub enum Command {
    /// Give a key a value, without a sync.
    Put(Vec<u8>, Vec<u8>),
    /// Delete a key, without a sync.
    Delete(Vec<u8>),
    /// Make these changes together.
    Write { sync: bool, items: Vec<Item> },
    /// Look up a key.
    Get(Vec<u8>),
    /// Hold a snapshot of the store as it is now.
    Snap,
    /// Look up a key in the snapshot of this number.
    GetAt(usize, Vec<u8>),
    /// Release the snapshot of this number.
    Release(usize),
    /// Make these moves with an iterator, from no position on: over the store as it is now, or over
    /// the snapshot of this number.
    Walk(Option<usize>, Vec<Move>),
    /// Make tables of all entries in memory, and compact those that overlap the range between two
    /// keys, ends included; an empty key is an open end.
    Compact(Vec<u8>, Vec<u8>),
    /// Sync all that was written.
    Flush,
    /// Sync, and give back the lock; then every command is refused.
    Close,
}

/// A change of one key.
#[derive(Debug, Drop)]
pub enum Item {
    Put(Vec<u8>, Vec<u8>),
    Delete(Vec<u8>),
}

/// The reply to a command.
#[derive(Debug, Drop)]
pub enum Reply {
    Done,
    /// The key's value.
    Value(Bytes),
    /// The key has no value.
    Nothing,
    /// The number of a snapshot that is held from now on.
    Snapshot(usize),
    /// Where each move of a walk led.
    Walk(Vec<Step>),
    Refused(Status),
}
