//! The disk under the store: what it holds, what each call does to it, and what a crash leaves of
//! it. Beside it what else a store is given: its filters, its compressors and its options.
#![tactic(auto)]

pub mod compressor;
pub mod env;
pub mod errors;
pub mod filter;
pub mod filter_block;
pub mod infolog;
pub mod laws;
pub mod mem_env;
pub mod options;
