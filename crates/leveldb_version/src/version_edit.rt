//! Version edits: what a record of the manifest changes in a store's files.
//! An edit is fields in any order, each a tag and its value: 1 the comparator's name, 2 the log's
//! number, 3 the next file's, 4 the last sequence number, 5 a compaction pointer, 6 a deleted file,
//! 7 a new file, 9 the previous log's number. Of several values of 1 to 4 and 9 the last counts.
// LevelDB: db/version_edit.cc
ghost use Rattle.std.specs.Prelude.{◌≡◌, ◌⊎◌, [], ◌∷◌, ◌++◌, Some, IfOk, IfErr, OnOk, OnErr, IsSomeAnd, string_bytes};
ghost use Rattle.std.specs.BTreeSet.{insert_key};
ghost use Rattle.leveldb_base.specs.Error.{IsOutOfMemory};
ghost use Rattle.leveldb_base.specs.declared.error.StatusCode.TheVariants.{Corruption};
ghost use Rattle.leveldb_files.specs.Edits.Edit.{Edit, IsEdit, LevelsFit, empty_edit, file_order, edit_bytes, with_field};
ghost use Rattle.leveldb_version.specs.Edits.VersionEdit.{HasNoSeeks, edit_of};
ghost use Rattle.leveldb_version.specs.Edits.Fields.{field_of, files_in};

use bytes::Bytes;
use leveldb_base::error::{Result, StatusCode, err};
use leveldb_base::key_types::InternalKey;
use leveldb_base::types::{FileMetaData, FileNum, SequenceNumber};
use std::alloc::Global;
use std::collections::BTreeSet;

mod fields;

use fields::{
    BorrowedField, LAST_SEQUENCE, LOG_NUMBER, NEXT_FILE_NUMBER, PREV_LOG_NUMBER, damage,
    put_comparator, put_deleted, put_new_files, put_number, put_pointers, take_field,
};

/// The internal key after which a level's next compaction begins.
#[derive(Clone, Debug, Drop, PartialEq)]
pub struct CompactionPointer {
    pub level: usize,
    pub key: Bytes,
}

/// What a record of the manifest changes: the single values that it sets, if it sets them, and what
/// it changes in levels.
#[derive(Debug, Drop)]
pub struct VersionEdit {
    pub comparator: Option<String>,
    pub log_number: Option<FileNum>,
    pub prev_log_number: Option<FileNum>,
    pub next_file_number: Option<FileNum>,
    pub last_seq: Option<SequenceNumber>,
    pub compaction_ptrs: Vec<CompactionPointer>,

    /// Levels and the numbers of files that they lose.
    pub deleted: BTreeSet<(usize, FileNum)>,

    /// Levels and files that they gain.
    pub new_files: Vec<(usize, FileMetaData)>,
}

impl VersionEdit {
    /// An edit that changes nothing.
    pub fn new(alloc: Global) -> VersionEdit
        ensures { edit_of result ≡ empty_edit }
    {
        VersionEdit {
            comparator: None,
            log_number: None,
            prev_log_number: None,
            next_file_number: None,
            last_seq: None,
            compaction_ptrs: Vec::new(alloc),
            deleted: BTreeSet::new(alloc),
            new_files: Vec::new(alloc),
        }
    }

    /// Makes it an edit that changes nothing.
    pub fn clear(&mut self)
        ensures { edit_of self.new ≡ empty_edit }
    {
        self.comparator = None;
        self.log_number = None;
        self.prev_log_number = None;
        self.next_file_number = None;
        self.last_seq = None;
        self.compaction_ptrs.clear();
        self.deleted.clear();
        self.new_files.clear();
    }

    /// Adds a file that `level` gains.
    pub fn add_file(&mut self, level: usize, file: FileMetaData) -> Result<()>
        ensures ok { OnOk result (self.new.new_files.items
            ≡ self.old.new_files.items ++ (level, file) ∷ []) }
        ensures err { OnErr result (self.new.new_files.items ≡ self.old.new_files.items) }
        ensures others { self.new ≡ record self.old { new_files = self.new.new_files } }
        ensures memory { IfErr result IsOutOfMemory }
    {
        self.new_files.push((level, file))?;
        Ok(())
    }

    /// Adds a file that `level` loses.
    pub fn delete_file(&mut self, level: usize, file_num: FileNum) -> Result<()>
        ensures ok { OnOk result (self.new.deleted.keys
            ≡ insert_key file_order self.old.deleted.keys (level, file_num)) }
        ensures err { OnErr result (self.new.deleted.keys ≡ self.old.deleted.keys) }
        ensures others { self.new ≡ record self.old { deleted = self.new.deleted } }
        ensures memory { IfErr result IsOutOfMemory }
    {
        self.deleted.insert((level, file_num))?;
        Ok(())
    }

    /// Sets the comparator's name.
    pub fn set_comparator_name(&mut self, name: &str) -> Result<()>
        ensures ok { OnOk result
            (IsSomeAnd self.new.comparator (λ text. string_bytes text ≡ name.now)) }
        ensures err { OnErr result (self.new ≡ self.old) }
        ensures others { self.new ≡ record self.old { comparator = self.new.comparator } }
        ensures memory { IfErr result IsOutOfMemory }
    {
        let alloc = *self.new_files.allocator();
        self.comparator = Some(String::from_str(alloc, name)?);
        Ok(())
    }

    /// Sets the number of the log whose changes are in no table yet.
    pub fn set_log_num(&mut self, num: u64)
        ensures { self.new ≡ record self.old { log_number = Some num } }
    {
        self.log_number = Some(num);
    }

    /// Sets the number of the log before it.
    pub fn set_prev_log_num(&mut self, num: u64)
        ensures { self.new ≡ record self.old { prev_log_number = Some num } }
    {
        self.prev_log_number = Some(num);
    }

    /// Sets the greatest sequence number that an entry has.
    pub fn set_last_seq(&mut self, num: u64)
        ensures { self.new ≡ record self.old { last_seq = Some num } }
    {
        self.last_seq = Some(num);
    }

    /// Sets the number that the next file takes.
    pub fn set_next_file(&mut self, num: FileNum)
        ensures { self.new ≡ record self.old { next_file_number = Some num } }
    {
        self.next_file_number = Some(num);
    }

    /// Adds the key after which the next compaction of `level` begins.
    pub fn set_compact_pointer(&mut self, level: usize, key: InternalKey<'_>) -> Result<()>
        ensures ok { OnOk result (self.new.compaction_ptrs.items
            ≡ self.old.compaction_ptrs.items ++ record { level = level; key = key.now } ∷ []) }
        ensures err { OnErr result
            (self.new.compaction_ptrs.items ≡ self.old.compaction_ptrs.items) }
        ensures others { self.new ≡ record self.old { compaction_ptrs = self.new.compaction_ptrs } }
        ensures memory { IfErr result IsOutOfMemory }
    {
        let alloc = *self.compaction_ptrs.allocator();
        let key = Bytes::copy_from_slice(alloc, key)?;
        self.compaction_ptrs.push(CompactionPointer { level, key })?;
        Ok(())
    }

    /// The edit as bytes: single values first, then compaction pointers, deleted files by level and
    /// number, new files.
    pub fn encode(&self, alloc: Global) -> Result<Vec<u8>>
        ensures ok { IfOk result (λ bytes. bytes.items ≡ edit_bytes (edit_of self.now)) }
        ensures read { IfOk result (λ bytes. LevelsFit (edit_of self.now)
            → IsEdit bytes.items (edit_of self.now)) }
        ensures memory { IfErr result IsOutOfMemory }
    {
        let mut bytes = Vec::with_capacity(alloc, 256)?;
        put_comparator(&mut bytes, &self.comparator)?;
        put_number(&mut bytes, LOG_NUMBER, self.log_number)?;
        put_number(&mut bytes, PREV_LOG_NUMBER, self.prev_log_number)?;
        put_number(&mut bytes, NEXT_FILE_NUMBER, self.next_file_number)?;
        put_number(&mut bytes, LAST_SEQUENCE, self.last_seq)?;
        put_pointers(&mut bytes, self.compaction_ptrs.as_slice())?;
        put_deleted(&mut bytes, &self.deleted)?;
        put_new_files(&mut bytes, self.new_files.as_slice())?;
        Ok(bytes)
    }

    /// The edit that these bytes encode; its new files may take no seeks.
    /// Returns `Corruption` if they encode none; the text names the field that can't be read.
    pub fn decode_from(alloc: Global, src: &[u8]) -> Result<VersionEdit>
        ensures ok { IfOk result (λ edit. IsEdit src.now (edit_of edit)) }
        ensures seeks { IfOk result HasNoSeeks }
        ensures malformed { IfErr result (λ status. status.code ≡ Corruption
            → (edit : Edit) → ¬ IsEdit src.now edit) }
        ensures cause { IfErr result (λ status.
            (status.code ≡ Corruption) ⊎ IsOutOfMemory status) }
    {
        let mut edit = VersionEdit::new(alloc);
        let mut rest = src;
        while !rest.is_empty() {
            let Some((field, others)) = take_field(rest) else {
                return err(alloc, StatusCode::Corruption, damage(rest));
            };
            edit.apply(alloc, field)?;
            rest = others;
        }
        Ok(edit)
    }

    // Adds the field's value.
    fn apply(&mut self, alloc: Global, field: BorrowedField<'_>) -> Result<()>
        ensures ok { OnOk result
            (edit_of self.new ≡ with_field (edit_of self.old) (field_of field.entry)) }
        ensures files { OnOk result
            (self.new.new_files.items ≡ self.old.new_files.items ++ files_in field.entry) }
        ensures memory { IfErr result IsOutOfMemory }
    {
        match field {
            BorrowedField::Comparator(name) => self.set_comparator_name(name)?,
            BorrowedField::LogNumber(num) => self.set_log_num(num),
            BorrowedField::PrevLogNumber(num) => self.set_prev_log_num(num),
            BorrowedField::NextFileNumber(num) => self.set_next_file(num),
            BorrowedField::LastSequence(num) => self.set_last_seq(num),
            BorrowedField::CompactPointer(level, key) => self.set_compact_pointer(level, key)?,
            BorrowedField::DeletedFile(level, num) => self.delete_file(level, num)?,
            BorrowedField::NewFile(level, num, size, smallest, largest) => {
                let file = FileMetaData {
                    allowed_seeks: 0,
                    num,
                    size,
                    smallest: Bytes::copy_from_slice(alloc, smallest)?,
                    largest: Bytes::copy_from_slice(alloc, largest)?,
                };
                self.add_file(level, file)?;
            }
        }
        Ok(())
    }
}
