//! The store's commands as values: what is asked of a store, and what it replies; and as text.

mod commands;
mod crash_runs;
mod language;
mod lines;
mod program;
mod reading;
mod replies;
mod runs;
mod views;
mod walks;
mod words;

pub use commands::{Command, Item, Move, Reply, Step};
pub use crash_runs::{Life, Report, live, lives};
pub use language::{Script, parse};
pub use program::ldb_main;
pub use reading::run_read_only;
pub use replies::put_replies;
pub use runs::run;
