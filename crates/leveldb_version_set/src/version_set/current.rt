//! The text of `CURRENT`.
// LevelDB: db/filename.cc, SetCurrentFile
ghost use Rattle.std.specs.Prelude.{◌≡◌, ℕ, List, MatchOption, IfOk, IfErr, string_bytes};
ghost use Rattle.leveldb_base.specs.Error.{IsOutOfMemory};
ghost use Rattle.leveldb_base.specs.Names.{IsFileName};
ghost use Rattle.leveldb_files.specs.Edits.Current.{IsCurrentText, current_text as text_of_current};

use leveldb_base::error::{Result, StatusCode, err};
use leveldb_base::names::file_name_parts;
use leveldb_base::types::{FileNum, FileType};
use std::alloc::Global;

/// What `CURRENT` holds in a store with this manifest: its name, without a folder, and a newline.
pub fn current_text(alloc: Global, manifest: FileNum) -> Result<String>
    ensures ok { IfOk result (λ text. string_bytes text ≡ text_of_current manifest) }
    ensures cause { IfErr result IsOutOfMemory }
{
    Ok(format!(in alloc; "MANIFEST-{manifest:06}\n")?)
}

/// The manifest that this text of `CURRENT` names: its name, without a folder, and its number.
/// Returns `Corruption` if the text is anything but a manifest's name and a newline.
pub fn parse_current_text(alloc: Global, text: &[u8]) -> Result<(&str, FileNum)>
    ensures ok { IfOk result (λ found. IsCurrentText text.now found.0.now found.1) }
    ensures malformed { IfErr result (λ status. (status.code ≡ StatusCode.Corruption)
        × ((name : List ℕ) (n : ℕ) → IsCurrentText text.now name n → ⊥)) }
{
    match read_current_text(text) {
        Some(found) => Ok(found),
        None => err(
            alloc,
            StatusCode::Corruption,
            "CURRENT is no manifest's name and a newline",
        ),
    }
}

// The same, or nothing.
fn read_current_text(text: &[u8]) -> Option<(&str, FileNum)>
    ensures { MatchOption result ((name : List ℕ) (n : ℕ) → IsCurrentText text.now name n → ⊥)
        (λ found. IsCurrentText text.now found.0.now found.1) }
{
    let [line @ .., b'\n'] = text else {
        return None;
    };
    let name = std::str::from_utf8(line).ok()?;
    Some((name, manifest_number(name)?))
}

// The number of a manifest, by its name.
fn manifest_number(name: &str) -> Option<FileNum>
    ensures { MatchOption result ((n : ℕ) → IsFileName name.now n FileType.Descriptor → ⊥)
        (λ n. IsFileName name.now n FileType.Descriptor) }
{
    let (number, kind) = file_name_parts(name)?;
    match kind {
        FileType::Descriptor => Some(number),
        _ => None,
    }
}
