//! Tables: sorted files of key-value pairs, from their blocks up.
#![tactic(auto)]

pub mod block;
pub mod block_builder;
pub mod block_cache;
pub mod cache;
mod damage;
pub mod laws;
pub mod readable;
pub mod table_block;
pub mod table_builder;
pub mod table_reader;
