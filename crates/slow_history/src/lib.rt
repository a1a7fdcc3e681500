//! What a history shows, by slow functions: a yardstick for tests, and no part of a store.
#![tactic(auto)]

mod view;
mod walk;

pub use view::{BorrowedPair, Entry, look_up, view_of};
pub use walk::{Landing, Move, is_walk};
