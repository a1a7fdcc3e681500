//! Versions: which files make up a store at a moment, by levels, the edits that change them, and
//! look-ups and walks through their tables.
#![tactic(auto)]

pub mod laws;
pub mod table_cache;
pub mod version;
pub mod version_edit;
pub mod version_iter;
