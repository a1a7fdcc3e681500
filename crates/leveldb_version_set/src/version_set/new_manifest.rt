//! Making a manifest, which `CURRENT` then names.
// LevelDB: db/version_set.cc, VersionSet::LogAndApply and WriteSnapshot
ghost use Rattle.std.specs.Prelude.{◌≡◌, fold, map, Some, IfOk, IfErr, IsTrue, string_bytes};
ghost use Rattle.leveldb_base.specs.Error.{IsOutOfMemory};
ghost use Rattle.leveldb_env.specs.Env.{AppendedAreBytes, ChangesFiles, HasCause, SameBut, SameLocks, kept_file, with_file};
ghost use Rattle.leveldb_env.specs.WholeFiles.{IsLostUnobserved};
ghost use Rattle.leveldb_mem.specs.Log.{log_block_size};
ghost use Rattle.leveldb_mem.specs.Log.Writer.{after_frame, new_writer};
ghost use Rattle.leveldb_version_set.specs.Sets.CurrentFile.{temp_path};
ghost use Rattle.leveldb_version_set.specs.Sets.NewManifest.{MakingManifest, manifest_bytes, with_manifest};
ghost use Rattle.leveldb_files.specs.Stores.Paths.{manifest_path};

use super::current_file::set_current_file;
use leveldb_base::error::Result;
use leveldb_base::names::manifest_file_name;
use leveldb_base::types::FileNum;
use leveldb_env::env::Env;
use leveldb_env::env::whole_files::write_file;
use leveldb_mem::log::{LogFile, WriterCore};
use std::alloc::Global;

/// The bytes of a manifest of some records, and the writer of the records after them.
#[derive(Drop)]
pub(super) struct FramedRecords {
    pub(super) bytes: Vec<u8>,
    pub(super) writer: WriterCore,
}

/// Frames the records of a manifest.
pub(super) fn frame_records(alloc: Global, records: &[Vec<u8>]) -> Result<FramedRecords>
    ensures bytes { IfOk result (λ it. it.bytes.items
        ≡ manifest_bytes (map (λ it. it.items) records.now)) }
    ensures writer { IfOk result (λ it. it.writer
        ≡ fold after_frame (new_writer log_block_size 0)
        (map (λ it. it.items) records.now)) }
    ensures memory { IfErr result IsOutOfMemory }
{
    let mut writer = WriterCore::new(alloc);
    let mut bytes = Vec::new(alloc);
    for record in records {
        writer.add_record(&mut bytes, record)?;
    }
    Ok(FramedRecords { bytes, writer })
}

/// Makes a manifest of a number, and then has `CURRENT` name it.
pub(super) fn make_manifest<E: Env>(
    alloc: Global,
    env: &mut E,
    store: &str,
    number: FileNum,
    path: String,
    records: FramedRecords,
) -> Result<LogFile<E>>
    requires { string_bytes path ≡ manifest_path store.now number }
    ensures does { IsTrue E.models_disk
        → ChangesFiles E.models_disk (with_manifest store.now number records.bytes.items)
        (MakingManifest store.now number records.bytes.items)
        (E.observed env.old) (E.observed env.new) result }
    ensures bytes { IsTrue E.models_disk → AppendedAreBytes (E.observed env.old).disk.files
        → AppendedAreBytes (E.observed env.new).disk.files }
    ensures locks { SameLocks E.models_disk (E.observed env.old) (E.observed env.new) }
    ensures ok { IfOk result (λ manifest. manifest ≡ record {
      path = manifest_path store.now number;
      writer = records.writer;
    }) }
    ensures cause { HasCause (IsLostUnobserved E.models_disk (temp_path store.now number)
        (E.failures env.old) (E.failures env.new))
        (E.failures env.old) (E.failures env.new) result }
{
    let file = write_file(alloc, env, &path, &records.bytes)?;
    set_current_file(alloc, env, store, number)?;
    Ok(LogFile::new(alloc, path, file, records.writer))
}
