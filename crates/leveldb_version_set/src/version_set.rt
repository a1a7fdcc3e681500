//! The set of a store's files: what it asks of a file's keys, and how a store finds the manifest
//! that keeps it.
// LevelDB: db/version_set.cc, VersionSet
ghost use Rattle.std.specs.Prelude.{◌≡◌, ◌↔◌, IsTrue, OnOk, IfErr, map};
ghost use Rattle.leveldb_version.specs.Edits.VersionEdit.{new_file_of};
ghost use Rattle.leveldb_files.specs.Edits.VersionSet.{IsKeyRange, HaveKeyRanges};

use leveldb_base::cmp::Cmp;
use leveldb_base::error::{Result, Status, StatusCode};
use leveldb_base::key_types::{TAG_LEN, cmp_internal_key};
use leveldb_base::types::{FileMetaData, FileNum};
use std::alloc::Global;

mod compactions;
mod current;
mod current_file;
mod files_in_order;
mod full_edit;
mod live_files;
mod log_edit;
mod new_manifest;
mod new_store;
mod recover;
mod replay;
mod set;
mod usable;

pub use crate::compaction::Compaction;
pub use compactions::InputWalk;
pub use current::{current_text, parse_current_text};
pub use current_file::{read_current_file, set_current_file};
pub use leveldb_base::names::manifest_file_name;
pub use live_files::LiveFiles;
pub use new_store::{make_manifest_of, make_store};
pub use set::VersionSet;

/// Whether the file's keys are internal keys, of eight bytes at least, and the smallest is not
/// after the largest.
pub fn has_key_range<C: Cmp>(ucmp: &C, file: &FileMetaData) -> bool
    ensures { IsTrue result ↔ IsKeyRange (C.cmp ucmp.now) file.now.smallest file.now.largest }
{
    file.smallest.len() >= TAG_LEN
        && file.largest.len() >= TAG_LEN
        && cmp_internal_key(ucmp, &file.smallest, &file.largest).is_le()
}

/// Checks the keys of files that an edit adds, or that are live.
/// Returns `Corruption` if those of one are no range of internal keys; the text has its number.
pub fn check_key_ranges<C: Cmp>(
    alloc: Global,
    ucmp: &C,
    files: &[(usize, FileMetaData)],
) -> Result<()>
    ensures ok { OnOk result (HaveKeyRanges (C.cmp ucmp.now) (map new_file_of files.now)) }
    ensures malformed { IfErr result (λ status. (status.code ≡ StatusCode.Corruption)
        × ¬ HaveKeyRanges (C.cmp ucmp.now) (map new_file_of files.now)) }
{
    for (_, file) in files {
        if !has_key_range(ucmp, file) {
            return Err(no_key_range(alloc, file.num));
        }
    }
    Ok(())
}

// The error for a table of this number, without a text where there is no memory for it.
fn no_key_range(alloc: Global, number: FileNum) -> Status
    ensures { result.code ≡ StatusCode.Corruption }
{
    let text = format!(in alloc;
        "Corruption: table {number:06}: smallest and largest key are no range"
    );
    Status {
        code: StatusCode::Corruption,
        err: text.ok(),
    }
}
