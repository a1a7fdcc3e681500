//! Files in memory, and what the calls of an environment make of a map of them by name.
// LevelDB: helpers/memenv/memenv.cc, FileState
ghost use Rattle.std.specs.Prelude.{◌≡◌, ◌<◌, ◌+◌, ◌^◌, false, [], ◌++◌, length, min, drop, is_some, map, OnOk, OnErr, IfOk, IsSome, string_bytes};
ghost use Rattle.std.specs.Option.{option_copied};
ghost use Rattle.leveldb_env.specs.Env.{bytes_of, kept_file, longer_file, file_kept, with_file, emptied, created, deleted, renamed, extended, synced, without_folder, ListsChildren};
ghost use Rattle.leveldb_env.specs.MemEnv.{child_under, child_in, files_of, copied_over};

use std::alloc::{AllocError, Global};
use std::collections::BTreeMap;
use std::marker::Model;

/// A file in memory. A clause sees the bytes that a crash keeps and those appended since.
#[derive(Drop)]
pub struct MemFile {
    bytes: Vec<u8>,
    // how many of them a crash keeps
    kept: usize,
}

impl Model for MemFile {
    ghost use Rattle.std.specs.Prelude.{◌≤◌, length, take, drop};
    ghost use Rattle.leveldb_env.specs.Env.{File};

    ghost Value = { File };

    ghost view = { λ file. record {
      kept = take file.kept file.bytes.items;
      since = drop file.kept file.bytes.items;
    } };

    ghost invariant = { λ file. file.kept ≤ length file.bytes.items };
}

impl MemFile {
    /// A file without a byte.
    pub fn new(alloc: Global) -> MemFile
        ensures { result ≡ kept_file [] }
    {
        MemFile {
            bytes: Vec::new(alloc),
            kept: 0,
        }
    }

    /// How many bytes it has.
    pub fn size(&self) -> usize
        ensures { result ≡ length (bytes_of self.now) }
    {
        self.bytes.len()
    }

    /// How many bytes were appended since those that a crash keeps.
    pub fn since_len(&self) -> usize
        ensures { result ≡ length self.now.since }
    {
        self.bytes.len() - self.kept
    }

    /// Copies its bytes from an offset on over the front of the target, as far as both go. Returns
    /// how many came.
    pub fn read_at(&self, offset: usize, target: &mut [u8]) -> usize
        ensures count { result
            ≡ min (length target.old) (length (drop offset (bytes_of self.now))) }
        ensures copied { target.new ≡ copied_over (drop offset (bytes_of self.now)) target.old }
        ensures end { offset + result < 2 ^ 64 }
    {
        if offset >= self.bytes.len() {
            return 0;
        }
        let rest = &self.bytes[offset..];
        let n = target.len().min(rest.len());
        target[..n].copy_from_slice(&rest[..n]);
        n
    }

    /// Appends bytes.
    pub fn append(&mut self, bytes: &[u8]) -> Result<(), AllocError>
        ensures ok { OnOk result (self.new ≡ longer_file bytes.now self.old) }
        ensures err { OnErr result (self.new ≡ self.old) }
    {
        self.bytes.extend_from_slice(bytes)
    }

    /// Makes a crash keep all its bytes.
    pub fn sync(&mut self)
        ensures { self.new ≡ file_kept self.old }
    {
        self.kept = self.bytes.len();
    }

    /// The bytes that were appended since.
    pub fn since(&self) -> &[u8]
        ensures { result.now ≡ self.now.since }
    {
        &self.bytes[self.kept..]
    }

    /// The file that a crash leaves: the kept bytes and after them this tail, all kept.
    pub fn left(&self, alloc: Global, tail: &[u8]) -> Result<MemFile, AllocError>
        ensures { IfOk result (λ left. left ≡ kept_file (self.now.kept ++ tail.now)) }
    {
        let mut bytes = Vec::with_capacity(alloc, self.kept + tail.len())?;
        bytes.extend_from_slice(&self.bytes[..self.kept])?;
        bytes.extend_from_slice(tail)?;
        let kept = bytes.len();
        Ok(MemFile { bytes, kept })
    }
}

impl Clone for MemFile {
    ghost is_clone = { λ file copy. copy ≡ file };

    fn clone(&self) -> Result<MemFile, AllocError> {
        Ok(MemFile {
            bytes: self.bytes.clone()?,
            kept: self.kept,
        })
    }
}

/// Files by their names.
pub type FileMap = BTreeMap<String, MemFile>;

/// The same files once more.
pub fn copy_files(files: &FileMap) -> Result<FileMap, AllocError>
    ensures { IfOk result (λ copy. files_of copy ≡ files_of files.now) }
{
    files.clone()
}

/// Puts a file under the name, where it replaces what was there.
pub fn put_file(
    files: &mut FileMap,
    alloc: Global,
    name: &str,
    file: MemFile,
) -> Result<(), AllocError>
    ensures ok { OnOk result
        (files_of files.new ≡ with_file name.now (Some file) (files_of files.old)) }
    ensures err { OnErr result (files_of files.new ≡ files_of files.old) }
{
    let key = String::from_str(alloc, name)?;
    files.insert(key, file)?;
    Ok(())
}

/// Puts an empty file under the name.
pub fn empty_file(files: &mut FileMap, alloc: Global, name: &str) -> Result<(), AllocError>
    ensures ok { OnOk result (files_of files.new ≡ emptied name.now (files_of files.old)) }
    ensures err { OnErr result (files_of files.new ≡ files_of files.old) }
{
    put_file(files, alloc, name, MemFile::new(alloc))
}

/// Puts an empty file under a name that is missing.
pub fn create_file(files: &mut FileMap, alloc: Global, name: &str) -> Result<(), AllocError>
    ensures ok { OnOk result (files_of files.new ≡ created name.now (files_of files.old)) }
    ensures err { OnErr result (files_of files.new ≡ files_of files.old) }
{
    if files.contains_key(name) {
        return Ok(());
    }
    empty_file(files, alloc, name)
}

/// Appends bytes to the name's file. Returns whether the name is there.
pub fn extend_file(files: &mut FileMap, name: &str, bytes: &[u8]) -> Result<bool, AllocError>
    ensures there { IfOk result (λ there. there ≡ is_some (files_of files.old name.now)) }
    ensures ok { OnOk result
        (files_of files.new ≡ extended name.now bytes.now (files_of files.old)) }
    ensures missing { result ≡ Ok false → files_of files.new ≡ files_of files.old }
    ensures err { OnErr result (files_of files.new ≡ files_of files.old) }
{
    let Some(file) = files.get_mut(name) else {
        return Ok(false);
    };
    file.append(bytes)?;
    Ok(true)
}

/// Makes a crash keep all bytes of the name's file. Returns whether the name is there.
pub fn sync_file(files: &mut FileMap, name: &str) -> bool
    ensures there { result ≡ is_some (files_of files.old name.now) }
    ensures synced { files_of files.new ≡ synced name.now (files_of files.old) }
    ensures missing { result ≡ false → files_of files.new ≡ files_of files.old }
{
    let Some(file) = files.get_mut(name) else {
        return false;
    };
    file.sync();
    true
}

/// Removes a name and its file. Returns whether the name was there.
pub fn delete_file(files: &mut FileMap, name: &str) -> bool
    ensures there { result ≡ is_some (files_of files.old name.now) }
    ensures deleted { files_of files.new ≡ deleted name.now (files_of files.old) }
    ensures missing { result ≡ false → files_of files.new ≡ files_of files.old }
{
    files.remove(name).is_some()
}

/// Gives a file another name, where it replaces what was there. Returns whether the old name was
/// there.
pub fn rename_file(
    files: &mut FileMap,
    alloc: Global,
    from: &str,
    to: &str,
) -> Result<bool, AllocError>
    ensures there { IfOk result (λ there. there ≡ is_some (files_of files.old from.now)) }
    ensures ok { OnOk result (files_of files.new ≡ renamed from.now to.now (files_of files.old)) }
    ensures missing { result ≡ Ok false → files_of files.new ≡ files_of files.old }
    ensures err { OnErr result (files_of files.new ≡ files_of files.old) }
{
    if !files.contains_key(from) {
        return Ok(false);
    }
    if from == to {
        return Ok(true);
    }
    create_file(files, alloc, to)?;
    if let Some(moved) = files.remove(from) {
        replace_file(files, to, moved);
    }
    Ok(true)
}

// Replaces the file that the name has.
fn replace_file(files: &mut FileMap, name: &str, file: MemFile)
    requires { IsSome (files_of files.old name.now) }
    ensures { files_of files.new ≡ with_file name.now (Some file) (files_of files.old) }
{
    if let Some(place) = files.get_mut(name) {
        *place = file;
    }
}

/// Removes each name under the folder.
pub fn remove_folder(files: &mut FileMap, folder: &str)
    ensures { files_of files.new ≡ without_folder folder.now (files_of files.old) }
{
    files.retain(|name, _file| child_of(folder, name.as_str()).is_none());
}

// The part after the folder and its `/`, of a name that is under it.
fn child_of<'a>(folder: &str, name: &'a str) -> Option<&'a str>
    ensures { option_copied result ≡ child_under folder.now name.now }
{
    name.strip_prefix(folder)?.strip_prefix('/')
}

// The part after the folder and its `/`, of a name in the folder itself.
fn direct_child<'a>(folder: &str, name: &'a str) -> Option<&'a str>
    ensures { option_copied result ≡ child_in folder.now name.now }
{
    match child_of(folder, name) {
        Some(child) if !child.contains('/') => Some(child),
        _ => None,
    }
}

/// Of the names under the folder the part after its `/`, where that has no other `/`.
pub fn list_children(
    files: &FileMap,
    alloc: Global,
    folder: &str,
) -> Result<Vec<String>, AllocError>
    ensures { IfOk result
        (λ names. ListsChildren (files_of files.now) folder.now (map string_bytes names.items)) }
{
    let mut children = Vec::new(alloc);
    for name in files.keys() {
        if let Some(child) = direct_child(folder, name.as_str()) {
            children.push(String::from_str(alloc, child)?)?;
        }
    }
    Ok(children)
}
