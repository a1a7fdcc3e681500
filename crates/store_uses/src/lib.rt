//! README's example, and uses from outside of the store's other calls: proved, so that each
//! contract is known to serve a caller, and run.
#![tactic(auto)]

#[cfg(test)]
mod engines;
#[cfg(test)]
mod example;
pub mod passing;
pub mod says;
#[cfg(test)]
mod stores;
