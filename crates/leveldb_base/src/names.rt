//! The names of a store's files: their numbers and types, and the names that a store gives.
// LevelDB: db/filename.cc
ghost use Rattle.std.specs.Prelude.{◌≡◌, ℕ, Result, Ok, MatchOption, IfOk, IfErr, string_bytes};
ghost use Rattle.leveldb_base.specs.Error.{IsOutOfMemory};
ghost use Rattle.leveldb_base.specs.Names.{IsNumber, IsWord, IsExtension, IsFileName, ReadsName, file_path};
ghost use Rattle.leveldb_base.specs.declared.types.FileType.{FileType};

use crate::error::{Result, StatusCode, err};
use crate::types::{FileNum, FileType};
use std::alloc::Global;

/// The number and the type of a store's file by its name, without its folder. The number is 0 where
/// the name has none. Any other name is `InvalidArgument`.
pub fn parse_file_name(alloc: Global, name: &str) -> Result<(FileNum, FileType)>
    ensures { ReadsName name.now result }
{
    match file_name_parts(name) {
        Some(parts) => Ok(parts),
        None => err(
            alloc,
            StatusCode::InvalidArgument,
            "not a name of a store's file",
        ),
    }
}

/// The number and the type of a store's file by its name, as `parse_file_name`, or none for any
/// other name.
pub fn file_name_parts(name: &str) -> Option<(FileNum, FileType)>
    ensures { MatchOption result ((n : ℕ) (kind : FileType) → IsFileName name.now n kind → ⊥)
        (λ parts. IsFileName name.now parts.0 parts.1) }
{
    if let Some(kind) = read_word(name) {
        return Some((0, kind));
    }
    if let Some(digits) = name.strip_prefix("MANIFEST-") {
        return Some((read_number(digits)?, FileType::Descriptor));
    }
    let (digits, extension) = name.split_once('.')?;
    let kind = read_extension(extension)?;
    Some((read_number(digits)?, kind))
}

// The type of a file without a number.
fn read_word(name: &str) -> Option<FileType>
    ensures { MatchOption result ((kind : FileType) → IsWord name.now kind → ⊥)
        (λ kind. IsWord name.now kind) }
{
    if name == "CURRENT" {
        Some(FileType::Current)
    } else if name == "LOCK" {
        Some(FileType::DBLock)
    } else if name == "LOG" || name == "LOG.old" {
        Some(FileType::InfoLog)
    } else {
        None
    }
}

// The type of a file with a number before the dot.
fn read_extension(extension: &str) -> Option<FileType>
    ensures { MatchOption result ((kind : FileType) → IsExtension extension.now kind → ⊥)
        (λ kind. IsExtension extension.now kind) }
{
    if extension == "log" {
        Some(FileType::Log)
    } else if extension == "ldb" || extension == "sst" {
        Some(FileType::Table)
    } else if extension == "dbtmp" {
        Some(FileType::Temp)
    } else {
        None
    }
}

// The number that decimal digits are.
fn read_number(digits: &str) -> Option<FileNum>
    ensures { MatchOption result ((n : ℕ) → IsNumber digits.now n → ⊥)
        (λ n. IsNumber digits.now n) }
{
    if digits.starts_with('+') {
        return None;
    }
    digits.parse().ok()
}

/// The path of the file that names the manifest.
pub fn current_file_name(alloc: Global, store: &str) -> Result<String>
    ensures ok { IfOk result (λ name. string_bytes name ≡ file_path store.now FileType.Current 0) }
    ensures cause { IfErr result IsOutOfMemory }
{
    Ok(format!(in alloc; "{store}/CURRENT")?)
}

/// The path of a manifest.
pub fn manifest_file_name(alloc: Global, store: &str, number: FileNum) -> Result<String>
    ensures ok { IfOk result (λ name.
        string_bytes name ≡ file_path store.now FileType.Descriptor number) }
    ensures cause { IfErr result IsOutOfMemory }
{
    Ok(format!(in alloc; "{store}/MANIFEST-{number:06}")?)
}

/// The path of a temporary file, which is written before it gets its name.
pub fn temp_file_name(alloc: Global, store: &str, number: FileNum) -> Result<String>
    ensures ok { IfOk result (λ name.
        string_bytes name ≡ file_path store.now FileType.Temp number) }
    ensures cause { IfErr result IsOutOfMemory }
{
    Ok(format!(in alloc; "{store}/{number:06}.dbtmp")?)
}

/// The path of a log.
pub fn log_file_name(alloc: Global, store: &str, number: FileNum) -> Result<String>
    ensures ok { IfOk result (λ name. string_bytes name ≡ file_path store.now FileType.Log number) }
    ensures cause { IfErr result IsOutOfMemory }
{
    Ok(format!(in alloc; "{store}/{number:06}.log")?)
}

/// The path of a table.
pub fn table_file_name(alloc: Global, store: &str, number: FileNum) -> Result<String>
    ensures ok { IfOk result (λ name.
        string_bytes name ≡ file_path store.now FileType.Table number) }
    ensures cause { IfErr result IsOutOfMemory }
{
    Ok(format!(in alloc; "{store}/{number:06}.ldb")?)
}

/// The path of the file that is locked while a store is open.
pub fn lock_file_name(alloc: Global, store: &str) -> Result<String>
    ensures ok { IfOk result (λ name. string_bytes name ≡ file_path store.now FileType.DBLock 0) }
    ensures cause { IfErr result IsOutOfMemory }
{
    Ok(format!(in alloc; "{store}/LOCK")?)
}
