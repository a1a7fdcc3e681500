//! The fields of a version edit, each a tag and its value: read from bytes, and put as bytes.
// LevelDB: db/version_edit.cc, VersionEdit::EncodeTo and DecodeFrom
ghost use Rattle.std.specs.Prelude.{◌≡◌, ◌^◌, ◌<◌, ◌∷◌, ◌++◌, flat_map, map, All, OnOk, IfErr, IfSome, string_bytes};
ghost use Rattle.std.specs.List.Sorted.{IsStrictlySortedBy};
ghost use Rattle.std.specs.Option.{option_map, option_to_list};
ghost use Rattle.leveldb_base.specs.Error.{IsOutOfMemory};
ghost use Rattle.leveldb_base.specs.Varint.{varint};
ghost use Rattle.leveldb_files.specs.Edits.Edit.{comparator_is, points, deletes, adds, FieldFits, field_bytes, bytes_of_each, file_order};
ghost use Rattle.leveldb_version.specs.Edits.VersionEdit.{pointer_of, new_file_of};
ghost use Rattle.leveldb_version.specs.Edits.Fields.{ReadsFront, with_rest, field_with_rest};

use crate::version_edit::CompactionPointer;
use leveldb_base::error::Result;
use leveldb_base::types::{FileMetaData, FileNum, NUM_LEVELS, SequenceNumber};
use leveldb_base::varint::{
    get_length_prefixed_slice, get_varint64, put_length_prefixed_slice, put_varint64,
};
use std::collections::BTreeSet;

const COMPARATOR: u8 = 1;

pub(super) const LOG_NUMBER: u8 = 2;

pub(super) const NEXT_FILE_NUMBER: u8 = 3;

pub(super) const LAST_SEQUENCE: u8 = 4;

const COMPACT_POINTER: u8 = 5;

const DELETED_FILE: u8 = 6;

const NEW_FILE: u8 = 7;

pub(super) const PREV_LOG_NUMBER: u8 = 9;

// A field, with its texts borrowed from the bytes.
pub(super) enum BorrowedField<'a> {
    Comparator(&'a str),
    LogNumber(FileNum),
    NextFileNumber(FileNum),
    LastSequence(SequenceNumber),
    CompactPointer(usize, &'a [u8]),
    DeletedFile(usize, FileNum),

    // level, number, size, smallest and largest key
    NewFile(usize, FileNum, usize, &'a [u8], &'a [u8]),
    PrevLogNumber(FileNum),
}

// The field at the front, and what follows it.
pub(super) fn take_field(bytes: &[u8]) -> Option<(BorrowedField<'_>, &[u8])>
    ensures { ReadsFront FieldFits field_bytes bytes.now (field_with_rest result) }
{
    let (tag, rest) = bytes.split_first()?;
    match *tag {
        COMPARATOR => take_comparator(rest),
        LOG_NUMBER => {
            let (number, rest) = take_number(rest)?;
            Some((BorrowedField::LogNumber(number), rest))
        }
        NEXT_FILE_NUMBER => {
            let (number, rest) = take_number(rest)?;
            Some((BorrowedField::NextFileNumber(number), rest))
        }
        LAST_SEQUENCE => {
            let (number, rest) = take_number(rest)?;
            Some((BorrowedField::LastSequence(number), rest))
        }
        COMPACT_POINTER => take_pointer(rest),
        DELETED_FILE => take_deleted(rest),
        NEW_FILE => take_new_file(rest),
        PREV_LOG_NUMBER => {
            let (number, rest) = take_number(rest)?;
            Some((BorrowedField::PrevLogNumber(number), rest))
        }
        _ => None,
    }
}

// What the first field of bytes that begin with no field would be, for the text of an error.
pub(super) fn damage(bytes: &[u8]) -> &'static str {
    match bytes.first() {
        Some(&COMPARATOR) => "version edit: comparator's name",
        Some(&LOG_NUMBER) => "version edit: log number",
        Some(&NEXT_FILE_NUMBER) => "version edit: next file number",
        Some(&LAST_SEQUENCE) => "version edit: last sequence number",
        Some(&COMPACT_POINTER) => "version edit: compaction pointer",
        Some(&DELETED_FILE) => "version edit: deleted file",
        Some(&NEW_FILE) => "version edit: new file",
        Some(&PREV_LOG_NUMBER) => "version edit: previous log number",
        _ => "version edit: unknown tag",
    }
}

// The number at the front, and what follows it.
fn take_number(bytes: &[u8]) -> Option<(u64, &[u8])>
    ensures { ReadsFront (λ number. number < 2 ^ 64) varint bytes.now (with_rest result) }
{
    let (number, used) = get_varint64(bytes)?;
    Some((number, &bytes[used..]))
}

// The level at the front, and what follows it.
fn take_level(bytes: &[u8]) -> Option<(usize, &[u8])>
    ensures { ReadsFront (λ level. level < 7) varint bytes.now (with_rest result) }
{
    let (level, rest) = take_number(bytes)?;
    if level >= NUM_LEVELS as u64 {
        return None;
    }
    Some((level as usize, rest))
}

// A comparator's name after its tag, and what follows it.
fn take_comparator(bytes: &[u8]) -> Option<(BorrowedField<'_>, &[u8])>
    ensures { ReadsFront FieldFits field_bytes (1 ∷ bytes.now) (field_with_rest result) }
{
    let (name, rest) = get_length_prefixed_slice(bytes)?;
    let Ok(name) = str::from_utf8(name) else {
        return None;
    };
    Some((BorrowedField::Comparator(name), rest))
}

// A compaction pointer after its tag, and what follows it.
fn take_pointer(bytes: &[u8]) -> Option<(BorrowedField<'_>, &[u8])>
    ensures { ReadsFront FieldFits field_bytes (5 ∷ bytes.now) (field_with_rest result) }
{
    let (level, rest) = take_level(bytes)?;
    let (key, rest) = get_length_prefixed_slice(rest)?;
    Some((BorrowedField::CompactPointer(level, key), rest))
}

// A deleted file after its tag, and what follows it.
fn take_deleted(bytes: &[u8]) -> Option<(BorrowedField<'_>, &[u8])>
    ensures { ReadsFront FieldFits field_bytes (6 ∷ bytes.now) (field_with_rest result) }
{
    let (level, rest) = take_level(bytes)?;
    let (number, rest) = take_number(rest)?;
    Some((BorrowedField::DeletedFile(level, number), rest))
}

// A new file after its tag, and what follows it.
fn take_new_file(bytes: &[u8]) -> Option<(BorrowedField<'_>, &[u8])>
    ensures { ReadsFront FieldFits field_bytes (7 ∷ bytes.now) (field_with_rest result) }
{
    let (level, rest) = take_level(bytes)?;
    let (number, rest) = take_number(rest)?;
    let (size, rest) = take_number(rest)?;
    let (smallest, rest) = get_length_prefixed_slice(rest)?;
    let (largest, rest) = get_length_prefixed_slice(rest)?;
    let file = BorrowedField::NewFile(level, number, size as usize, smallest, largest);
    Some((file, rest))
}

// Puts the comparator's name, if there is one.
pub(super) fn put_comparator(dst: &mut Vec<u8>, name: &Option<String>) -> Result<()>
    ensures ok { OnOk result (dst.new.items ≡ dst.old.items
        ++ bytes_of_each comparator_is (option_to_list (option_map string_bytes name.now))) }
    ensures memory { IfErr result IsOutOfMemory }
{
    if let Some(name) = name {
        dst.push(COMPARATOR)?;
        put_length_prefixed_slice(dst, name.as_bytes())?;
    }
    Ok(())
}

// Puts a number after its tag, if there is one.
pub(super) fn put_number(dst: &mut Vec<u8>, tag: u8, number: Option<u64>) -> Result<()>
    ensures ok { OnOk result (dst.new.items ≡ dst.old.items
        ++ flat_map (λ n. tag ∷ varint n) (option_to_list number)) }
    ensures small { IfSome number (λ n. n < 2 ^ 64) }
    ensures memory { IfErr result IsOutOfMemory }
{
    if let Some(number) = number {
        dst.push(tag)?;
        put_varint64(dst, number)?;
    }
    Ok(())
}

// Puts the compaction pointers in turn.
pub(super) fn put_pointers(dst: &mut Vec<u8>, pointers: &[CompactionPointer]) -> Result<()>
    ensures ok { OnOk result (dst.new.items ≡ dst.old.items
        ++ bytes_of_each points (map pointer_of pointers.now)) }
    ensures memory { IfErr result IsOutOfMemory }
{
    for pointer in pointers {
        put_pointer(dst, pointer)?;
    }
    Ok(())
}

fn put_pointer(dst: &mut Vec<u8>, pointer: &CompactionPointer) -> Result<()>
    ensures ok { OnOk result (dst.new.items ≡ dst.old.items
        ++ field_bytes (points (pointer_of pointer.now))) }
    ensures memory { IfErr result IsOutOfMemory }
{
    dst.push(COMPACT_POINTER)?;
    put_varint64(dst, pointer.level as u64)?;
    put_length_prefixed_slice(dst, &pointer.key)
}

// Puts the deleted files by level and number.
pub(super) fn put_deleted(dst: &mut Vec<u8>, deleted: &BTreeSet<(usize, FileNum)>) -> Result<()>
    ensures ok { OnOk result (dst.new.items ≡ dst.old.items
        ++ bytes_of_each deletes deleted.now.keys) }
    ensures small { OnOk result (All (λ file. file.1 < 2 ^ 64) deleted.now.keys) }
    ensures ordered { IsStrictlySortedBy file_order deleted.now.keys }
    ensures memory { IfErr result IsOutOfMemory }
{
    for file in deleted {
        put_deleted_file(dst, *file)?;
    }
    Ok(())
}

fn put_deleted_file(dst: &mut Vec<u8>, file: (usize, FileNum)) -> Result<()>
    ensures ok { OnOk result (dst.new.items ≡ dst.old.items ++ field_bytes (deletes file)) }
    ensures small { file.1 < 2 ^ 64 }
    ensures memory { IfErr result IsOutOfMemory }
{
    dst.push(DELETED_FILE)?;
    put_varint64(dst, file.0 as u64)?;
    put_varint64(dst, file.1)
}

// Puts the new files in turn.
pub(super) fn put_new_files(dst: &mut Vec<u8>, files: &[(usize, FileMetaData)]) -> Result<()>
    ensures ok { OnOk result (dst.new.items ≡ dst.old.items
        ++ bytes_of_each adds (map new_file_of files.now)) }
    ensures small { OnOk result
        (All (λ file. (file.1.num < 2 ^ 64) × (file.1.size < 2 ^ 64)) files.now) }
    ensures memory { IfErr result IsOutOfMemory }
{
    for file in files {
        put_new_file(dst, file)?;
    }
    Ok(())
}

fn put_new_file(dst: &mut Vec<u8>, file: &(usize, FileMetaData)) -> Result<()>
    ensures ok { OnOk result (dst.new.items ≡ dst.old.items
        ++ field_bytes (adds (new_file_of file.now))) }
    ensures num { OnOk result (file.now.1.num < 2 ^ 64) }
    ensures size { OnOk result (file.now.1.size < 2 ^ 64) }
    ensures memory { IfErr result IsOutOfMemory }
{
    let (level, file) = file;
    dst.push(NEW_FILE)?;
    put_varint64(dst, *level as u64)?;
    put_varint64(dst, file.num)?;
    put_varint64(dst, file.size as u64)?;
    put_length_prefixed_slice(dst, &file.smallest)?;
    put_length_prefixed_slice(dst, &file.largest)
}
