//! Reading and replacing `CURRENT`, which names the manifest of a store.
// LevelDB: db/filename.cc, SetCurrentFile
ghost use Rattle.std.specs.Prelude.{◌≡◌, ◌⊎◌, IfOk, IfErr, IsSomeAnd, IsTrue, string_bytes};
ghost use Rattle.leveldb_base.specs.Error.{IsOutOfMemory};
ghost use Rattle.leveldb_env.specs.Env.{bytes_of, AppendedAreBytes, ChangesFiles, FilesUnchanged, HasCause, Run, SameLocks};
ghost use Rattle.leveldb_env.specs.WholeFiles.{IsLostUnobserved};
ghost use Rattle.leveldb_files.specs.Edits.Current.{IsCurrentText};
ghost use Rattle.leveldb_version_set.specs.Sets.CurrentFile.{IsCurrentUnread, IsNoCurrentText, SettingCurrent, temp_path, with_current};
ghost use Rattle.leveldb_files.specs.Stores.Paths.{current_path};

use super::current::{current_text, parse_current_text};
use leveldb_base::error::Result;
use leveldb_base::names::{current_file_name, temp_file_name};
use leveldb_base::types::FileNum;
use leveldb_env::env::Env;
use leveldb_env::env::whole_files::{read_file, replace_file};
use std::alloc::Global;

/// The manifest that `CURRENT` names: its name, without a folder, and its number.
/// Returns `Corruption` if `CURRENT` is missing or isn't a manifest's name and a newline.
pub fn read_current_file<E: Env>(
    alloc: Global,
    env: &mut E,
    store: &str,
) -> Result<(String, FileNum)>
    ensures still { IsTrue E.models_disk
        → Run (FilesUnchanged (E.observed env.old).disk.files) (E.observed env.old)
        (E.observed env.new) }
    ensures locks { SameLocks E.models_disk (E.observed env.old) (E.observed env.new) }
    ensures ok { IfOk result (λ found. IsTrue E.models_disk
        → IsSomeAnd ((E.observed env.old).disk.files (current_path store.now))
        (λ file. IsCurrentText (bytes_of file) (string_bytes found.0) found.1)) }
    ensures cause { HasCause (IsCurrentUnread E.models_disk store.now (E.observed env.old)
        (E.failures env.old) (E.failures env.new))
        (E.failures env.old) (E.failures env.new) result }
{
    let path = current_file_name(alloc, store)?;
    let text = read_file(alloc, env, &path)?;
    named_manifest(alloc, &text)
}

// The manifest that a text of `CURRENT` names.
fn named_manifest(alloc: Global, text: &[u8]) -> Result<(String, FileNum)>
    ensures ok { IfOk result (λ found.
        IsCurrentText text.now (string_bytes found.0) found.1) }
    ensures cause { IfErr result (λ status.
        IsOutOfMemory status ⊎ IsNoCurrentText text.now status) }
{
    let (name, number) = parse_current_text(alloc, text)?;
    Ok((String::from_str(alloc, name)?, number))
}

/// Makes `CURRENT` name the manifest of a number, by way of a temporary file of the same number: it
/// is made, synced and then renamed. After an Err the temporary file may be there.
pub fn set_current_file<E: Env>(
    alloc: Global,
    env: &mut E,
    store: &str,
    manifest: FileNum,
) -> Result<()>
    ensures does { IsTrue E.models_disk
        → ChangesFiles E.models_disk (with_current store.now manifest)
        (SettingCurrent store.now manifest) (E.observed env.old) (E.observed env.new) result }
    ensures bytes { IsTrue E.models_disk → AppendedAreBytes (E.observed env.old).disk.files
        → AppendedAreBytes (E.observed env.new).disk.files }
    ensures locks { SameLocks E.models_disk (E.observed env.old) (E.observed env.new) }
    ensures cause { HasCause (IsLostUnobserved E.models_disk (temp_path store.now manifest)
        (E.failures env.old) (E.failures env.new))
        (E.failures env.old) (E.failures env.new) result }
{
    let temp = temp_file_name(alloc, store, manifest)?;
    let current = current_file_name(alloc, store)?;
    let text = current_text(alloc, manifest)?;
    replace_file(alloc, env, &temp, &current, text.as_bytes())
}
