//! What a store's files hold, as lines of text: dumps of logs, manifests and tables, a store's
//! state, and a check of all of its files. No call changes a file or takes a lock.
#![tactic(auto)]

mod batches;
mod check;
mod dump;
mod edits;
mod fragments;
mod keys;
mod lines;
mod live;
mod program;
mod records;
mod reports;
mod stat;
mod tables;

pub use check::check_store;
pub use dump::dump_file;
pub use lines::{Lines, Style};
pub use program::util_main;
pub use stat::print_store;
