//! What every layer of the store is built on: errors with causes, numbers and checksums as bytes,
//! the order of keys, and the meaning of an iterator.
#![tactic(auto)]

pub mod blockhandle;
pub mod cmp;
pub mod crc;
pub mod error;
pub mod key_types;
pub mod laws;
pub mod names;
pub mod types;
pub mod varint;
