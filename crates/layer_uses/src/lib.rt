//! Uses from outside of the layers below the store: of public calls that no crate of the product
//! makes, and of traits that a user may implement. They are proved, so that each contract is known
//! to serve a caller, and run.
#![tactic(auto)]

#[cfg(test)]
mod compressors;
#[cfg(test)]
mod disks;
#[cfg(test)]
mod formats;
#[cfg(test)]
mod memtables;
#[cfg(test)]
mod snapshots;
#[cfg(test)]
mod tables;
#[cfg(test)]
mod words;
