//! What a crash leaves of files in memory, by choice.
// LevelDB: db/fault_injection_test.cc
ghost use Rattle.std.specs.Prelude.{◌≡◌, ◌↔◌, IfOk, IsTrue};
ghost use Rattle.std.specs.Map.{lookup};
ghost use Rattle.std.specs.Option.{option_copied};
ghost use Rattle.std.specs.Str.{bytes_eq};
ghost use Rattle.leveldb_env.specs.MemEnv.{files_of};
ghost use Rattle.leveldb_env.specs.Picks.{IsAllowed, IsTailOf, ListsTails, picked, tail_for, tails_of};

use crate::mem_env::files::{FileMap, put_file};
use std::alloc::{AllocError, Global};
use std::collections::BTreeMap;

/// A choice of what a crash leaves.
#[derive(Drop)]
pub struct Pick {
    /// For named files the bytes that follow the kept ones. Other files keep none.
    pub tails: Vec<(String, Vec<u8>)>,
    /// Whether a name change in flight is made. It is ignored where none is in flight.
    pub after: bool,
}

/// Whether a crash may leave these tails: each is of a file that is there and no longer than what
/// was appended since, and no name is given twice.
pub fn is_allowed(files: &FileMap, tails: &[(String, Vec<u8>)]) -> bool
    ensures { IsTrue result ↔ IsAllowed (files_of files.now) (tails_of tails.now) }
{
    for (i, (name, tail)) in tails.iter().enumerate() {
        let name = name.as_str();
        if !is_tail(files, name, tail.as_slice()) || find_tail(&tails[..i], name).is_some() {
            return false;
        }
    }
    true
}

fn is_tail(files: &FileMap, name: &str, tail: &[u8]) -> bool
    ensures { IsTrue result ↔ IsTailOf (files_of files.now) (name.now, tail.now) }
{
    match files.get(name) {
        Some(file) => tail.len() <= file.since_len(),
        None => false,
    }
}

// The tail that is given for the name.
fn find_tail<'a>(tails: &'a [(String, Vec<u8>)], name: &str) -> Option<&'a [u8]>
    ensures { option_copied result ≡ lookup (bytes_eq name.now) (tails_of tails.now) }
{
    for (given, tail) in tails {
        if name == given.as_str() {
            return Some(tail.as_slice());
        }
    }
    None
}

fn tail_for<'a>(tails: &'a [(String, Vec<u8>)], name: &str) -> &'a [u8]
    ensures { result.now ≡ tail_for (tails_of tails.now) name.now }
{
    find_tail(tails, name).unwrap_or(&[])
}

/// The files that a crash leaves by these tails.
pub fn left_files(
    files: &FileMap,
    alloc: Global,
    tails: &[(String, Vec<u8>)],
) -> Result<FileMap, AllocError>
    ensures { IfOk result
        (λ left. files_of left ≡ picked (tails_of tails.now) (files_of files.now)) }
{
    let mut left = BTreeMap::new(alloc);
    for (name, file) in files.iter() {
        let name = name.as_str();
        let file = file.left(alloc, tail_for(tails, name))?;
        put_file(&mut left, alloc, name, file)?;
    }
    Ok(left)
}

/// In order of name what the files have past their kept bytes, where they have any.
pub fn list_tails(files: &FileMap, alloc: Global) -> Result<Vec<(String, Vec<u8>)>, AllocError>
    ensures { IfOk result (λ tails. ListsTails (files_of files.now) (tails_of tails.items)) }
{
    let mut tails = Vec::new(alloc);
    for (name, file) in files.iter() {
        if file.since_len() > 0 {
            tails.push((name.clone()?, file.since().to_vec(alloc)?))?;
        }
    }
    Ok(tails)
}
