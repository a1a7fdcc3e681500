//! Laws of versions and of open tables, each the contract of a function that does nothing.

pub mod iters;
pub mod table_caches;
