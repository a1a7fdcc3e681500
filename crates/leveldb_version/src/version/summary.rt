//! The text that says which files each level has.
// LevelDB: db/version_set.cc, VersionSet::LevelSummary
ghost use Rattle.std.specs.Prelude.{◌≡◌, ◌++◌, [], length, map, string_bytes, IfOk, OnOk, IfErr};
ghost use Rattle.leveldb_base.specs.Error.{IsOutOfMemory};
ghost use Rattle.leveldb_version.specs.Edits.VersionEdit.{new_file_of};
ghost use Rattle.leveldb_files.specs.Levels.Summary.{file_text, files_of_level, files_text, level_text, summary_text, total_size};

use leveldb_base::error::Result;
use leveldb_base::types::{FileMetaData, NUM_LEVELS};
use std::alloc::Global;

/// The text of all levels that have files.
#[tactic(auto, using(leveldb_files::proofs::Levels::SummaryLemmas::levels_more))]
pub fn summary_of(alloc: Global, files: &[(usize, FileMetaData)]) -> Result<String>
    ensures ok { IfOk result (λ text.
        string_bytes text ≡ summary_text (map new_file_of files.now)) }
    ensures memory { IfErr result IsOutOfMemory }
{
    let mut text = String::new(alloc);
    for level in 0..NUM_LEVELS {
        put_level(alloc, &mut text, level, files)?;
    }
    Ok(text)
}

// Appends the text of a level, if it has files.
fn put_level(
    alloc: Global,
    text: &mut String,
    level: usize,
    files: &[(usize, FileMetaData)],
) -> Result<()>
    ensures ok { OnOk result (string_bytes text.new ≡ string_bytes text.old
        ++ level_text level (files_of_level level (map new_file_of files.now))) }
    ensures memory { IfErr result IsOutOfMemory }
{
    let (count, size) = totals(level, files);
    if count == 0 {
        return Ok(());
    }
    let head = format!(in alloc; "level {level}: {count} files, {size} bytes ([")?;
    text.push_str(&head)?;
    put_files(alloc, text, level, files)?;
    text.push_str("]); ")?;
    Ok(())
}

// How many files the level has, and how many bytes they have together, up to 2^64 - 1.
fn totals(level: usize, files: &[(usize, FileMetaData)]) -> (usize, usize)
    ensures count { result.0 ≡ length (files_of_level level (map new_file_of files.now)) }
    ensures size { result.1 ≡ total_size (files_of_level level (map new_file_of files.now)) }
{
    let mut count = 0;
    let mut size: usize = 0;
    for file in files {
        if file.0 == level {
            count += 1;
            size = size.saturating_add(file.1.size);
        }
    }
    (count, size)
}

// Appends the numbers and sizes of the level's files.
fn put_files(
    alloc: Global,
    text: &mut String,
    level: usize,
    files: &[(usize, FileMetaData)],
) -> Result<()>
    ensures ok { OnOk result (string_bytes text.new ≡ string_bytes text.old
        ++ files_text [] (files_of_level level (map new_file_of files.now))) }
    ensures memory { IfErr result IsOutOfMemory }
{
    let mut lead = "";
    for file in files {
        if file.0 == level {
            put_file(alloc, text, lead, file)?;
            lead = ", ";
        }
    }
    Ok(())
}

// Appends the number and the size of a file.
fn put_file(
    alloc: Global,
    text: &mut String,
    lead: &str,
    file: &(usize, FileMetaData),
) -> Result<()>
    ensures ok { OnOk result (string_bytes text.new ≡ string_bytes text.old
        ++ (lead.now ++ file_text (new_file_of file.now))) }
    ensures memory { IfErr result IsOutOfMemory }
{
    let pair = format!(in alloc; "{lead}({}, {})", file.1.num, file.1.size)?;
    text.push_str(&pair)?;
    Ok(())
}
