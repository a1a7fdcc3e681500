//! What a store's files mean: which files are a store, what they hold of a history, and what each
//! step of an engine keeps of that. Definitions and laws; no function here does anything.
#![tactic(auto)]

pub mod laws;
