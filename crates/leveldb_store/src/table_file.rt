//! A table that goes to its file block by block.
// LevelDB: db/builder.cc
ghost use Rattle.std.specs.Prelude.{◌≡◌, ◌<◌, ◌^◌, ◌-◌, ◌↔◌, IfErr, IfOk, IsTrue, OnErr, OnOk, false, min, nat_lt, true};
ghost use Rattle.std.specs.declared.cmp.Ordering.TheVariants.{Less};
ghost use Rattle.leveldb_base.specs.Error.{IsOutOfMemory};
ghost use Rattle.leveldb_env.specs.Env.{AreBytes, BeforeOrAfter, ChangesFiles, HasCause, SameLocks, emptied};
ghost use Rattle.leveldb_env.specs.EnvFile.{opened};
ghost use Rattle.leveldb_table.specs.TableBuilder.{IsNewBuilder, KeepsChoices, last_of, order_of, table_estimate};
ghost use Rattle.leveldb_store.specs.Tables.TableFile.{AddsToFile, FinishesFile, IsAddFault, IsFinishFault, IsMetadataOf, IsThere, LeavesPart, MayPut, StopsWriting};

use bytes::Bytes;
use leveldb_base::cmp::{Cmp, InternalKeyCmp, UserCmp};
use leveldb_base::error::Result;
use leveldb_base::types::{FileMetaData, FileNum};
use leveldb_env::compressor::{CompressorList, Compressors};
use leveldb_env::env::{Env, EnvFile};
use leveldb_env::filter::{FilterPolicy, InternalFilterPolicy};
use leveldb_env::options::Options;
use leveldb_table::table_builder::builder_core::BuilderCore;
use std::alloc::Global;

// Adds a pair to the table of a file. A block that is full is appended before.
fn add_pair<E: Env, C: Cmp + Copy, FP: FilterPolicy>(
    core: &mut BuilderCore<C, FP>,
    env: &mut E,
    file: &mut E::File,
    compressors: &CompressorList,
    key: &[u8],
    value: &[u8],
) -> Result<()>
    requires accepted { core.old.broken ≡ false → C.accepts (order_of core.old) key.now ≡ true }
    requires rising { core.old.broken ≡ false → 0 < core.old.count
        → C.cmp (order_of core.old) (last_of core.old) key.now ≡ Less }
    ensures ok { let codings = ⟦<CompressorList as Compressors>⟧.codings compressors.now in
        OnOk result (AddsToFile C.Cmp FP.FilterPolicy codings E.Env core.old
        (opened env.old file.old) (key.now, value.now) core.new (opened env.new file.new)) }
    ensures err { let codings = ⟦<CompressorList as Compressors>⟧.codings compressors.now in
        IfErr result (λ status. IsThere E.Env (opened env.old file.old) → StopsWriting E.Env
        (IsAddFault C.Cmp FP.FilterPolicy codings core.old (key.now, value.now))
        (opened env.old file.old) status env.new) }
    ensures left { let codings = ⟦<CompressorList as Compressors>⟧.codings compressors.now in
        OnErr result (LeavesPart E.Env (MayPut C.Cmp FP.FilterPolicy codings core.old)
        (opened env.old file.old) env.new) }
    ensures choices { KeepsChoices core.old core.new }
{
    core.add(&mut EnvFile { env, file }, compressors, key, value)
}

// Appends what is left of the table, and syncs the file. Returns how many bytes it has.
fn finish_table<E: Env, C: Cmp + Copy + Drop, FP: FilterPolicy + Drop>(
    core: BuilderCore<C, FP>,
    env: &mut E,
    file: &mut E::File,
    compressors: &CompressorList,
) -> Result<usize>
    ensures ok { let codings = ⟦<CompressorList as Compressors>⟧.codings compressors.now in
        IfOk result (λ size. FinishesFile C.Cmp FP.FilterPolicy codings E.Env core
        (opened env.old file.old) size env.new) }
    ensures fits { IfOk result (λ size. size < 2 ^ 64) }
    ensures err { let codings = ⟦<CompressorList as Compressors>⟧.codings compressors.now in
        IfErr result (λ status. IsThere E.Env (opened env.old file.old) → StopsWriting E.Env
        (IsFinishFault C.Cmp FP.FilterPolicy codings core) (opened env.old file.old) status
        env.new) }
    ensures left { let codings = ⟦<CompressorList as Compressors>⟧.codings compressors.now in
        OnErr result (LeavesPart E.Env (MayPut C.Cmp FP.FilterPolicy codings core)
        (opened env.old file.old) env.new) }
{
    core.finish(&mut EnvFile { env, file }, compressors)
}

// A builder of the table of internal keys by a store's options.
pub(crate) fn new_builder<C: UserCmp + Copy + Drop, FP: FilterPolicy + Copy + Drop>(
    alloc: Global,
    options: &Options<C, FP>,
) -> BuilderCore<InternalKeyCmp<C>, InternalFilterPolicy<FP>>
    ensures { IsNewBuilder ⟦<InternalKeyCmp<C> as Cmp>⟧
        ⟦<InternalFilterPolicy<FP> as FilterPolicy>⟧ (record { 0 = options.now.cmp })
        options.now.filter_policy options.now.compressor options.now.block_size
        options.now.block_restart_interval result }
{
    let policy = InternalFilterPolicy::new(options.filter_policy);
    BuilderCore::under(alloc, InternalKeyCmp(options.cmp), policy, options)
}

// A table under construction: the number and the open file that it has, what its builder knows, and
// its first key.
#[derive(Drop)]
pub(crate) struct TableFile<E: Env, C: Cmp + Copy + Drop, FP: FilterPolicy + Drop> {
    alloc: Global,
    number: FileNum,
    file: E::File,
    core: BuilderCore<C, FP>,
    smallest: Bytes,
}

impl<E: Env, C: Cmp + Copy + Drop, FP: FilterPolicy + Drop> TableFile<E, C, FP> {
    // Creates or empties the file of a path, for the table of a new builder under a number. The
    // first pair that is added has this key.
    pub(crate) fn create(
        alloc: Global,
        env: &mut E,
        path: &str,
        number: FileNum,
        core: BuilderCore<C, FP>,
        smallest: Bytes,
    ) -> Result<TableFile<E, C, FP>>
        ensures is { IfOk result (λ table. (table.number ≡ number) × (table.core ≡ core)
            × (table.smallest ≡ smallest)) }
        ensures does { ChangesFiles E.models_disk (emptied path.now)
            (BeforeOrAfter (emptied path.now)) (E.observed env.old) (E.observed env.new) result }
        ensures locks { SameLocks E.models_disk (E.observed env.old) (E.observed env.new) }
        ensures file { IfOk result (λ table. IsTrue E.models_disk
            → E.name_of table.file ≡ path.now) }
        ensures cause { HasCause IsOutOfMemory (E.failures env.old) (E.failures env.new) result }
    {
        let file = env.open_writable_file(path)?;
        Ok(TableFile {
            alloc,
            number,
            file,
            core,
            smallest,
        })
    }

    // Adds a pair whose key is after all others. After an Err the table can't be finished.
    pub(crate) fn add(
        &mut self,
        env: &mut E,
        compressors: &CompressorList,
        key: &[u8],
        value: &[u8],
    ) -> Result<()>
        requires accepted { self.old.core.broken ≡ false
            → C.accepts (order_of self.old.core) key.now ≡ true }
        requires rising { self.old.core.broken ≡ false → 0 < self.old.core.count
            → C.cmp (order_of self.old.core) (last_of self.old.core) key.now ≡ Less }
        ensures ok { let codings = ⟦<CompressorList as Compressors>⟧.codings compressors.now in
            OnOk result (AddsToFile C.Cmp FP.FilterPolicy codings E.Env self.old.core
            (opened env.old self.old.file) (key.now, value.now) self.new.core
            (opened env.new self.new.file)) }
        ensures err { let codings = ⟦<CompressorList as Compressors>⟧.codings compressors.now in
            IfErr result (λ status. IsThere E.Env (opened env.old self.old.file)
            → StopsWriting E.Env (IsAddFault C.Cmp FP.FilterPolicy codings self.old.core
            (key.now, value.now)) (opened env.old self.old.file) status env.new) }
        ensures left { let codings = ⟦<CompressorList as Compressors>⟧.codings compressors.now in
            OnErr result (LeavesPart E.Env (MayPut C.Cmp FP.FilterPolicy codings self.old.core)
            (opened env.old self.old.file) env.new) }
        ensures choices { KeepsChoices self.old.core self.new.core }
        ensures same { (self.new.number ≡ self.old.number)
            × (self.new.smallest ≡ self.old.smallest) }
    {
        add_pair(&mut self.core, env, &mut self.file, compressors, key, value)
    }

    // Whether the table would have more than `limit` bytes if it were finished now.
    pub(crate) fn is_past(&self, limit: usize) -> bool
        ensures { result ≡ nat_lt limit (min (table_estimate self.now.core) (2 ^ 64 - 1)) }
    {
        self.core.size_estimate() > limit
    }

    // The key that was added last.
    pub(crate) fn last_key(&self) -> &[u8]
        ensures { result.now ≡ last_of self.now.core }
    {
        self.core.last_key()
    }

    // Whether a key is after all others, as `add` requires.
    pub(crate) fn follows(&self, key: &[u8]) -> bool
        ensures { IsTrue result ↔ (0 < self.now.core.count
            → C.cmp (order_of self.now.core) (last_of self.now.core) key.now ≡ Less) }
    {
        self.core.follows(key)
    }

    // Appends what is left of the table, and syncs the file.
    pub(crate) fn finish(self, env: &mut E, compressors: &CompressorList) -> Result<FileMetaData>
        ensures ok { let codings = ⟦<CompressorList as Compressors>⟧.codings compressors.now in
            IfOk result (λ made. FinishesFile C.Cmp FP.FilterPolicy codings E.Env self.core
            (opened env.old self.file) made.size env.new) }
        ensures made { IfOk result (IsMetadataOf self.number self.smallest (last_of self.core)) }
        ensures err { let codings = ⟦<CompressorList as Compressors>⟧.codings compressors.now in
            IfErr result (λ status. IsThere E.Env (opened env.old self.file) → StopsWriting E.Env
            (IsFinishFault C.Cmp FP.FilterPolicy codings self.core) (opened env.old self.file)
            status env.new) }
        ensures left { let codings = ⟦<CompressorList as Compressors>⟧.codings compressors.now in
            OnErr result (LeavesPart E.Env (MayPut C.Cmp FP.FilterPolicy codings self.core)
            (opened env.old self.file) env.new) }
    {
        let TableFile {
            alloc,
            number,
            file,
            core,
            smallest,
        } = self;
        let mut file = file;
        let largest = copied_key(alloc, core.last_key())?;
        let size = finish_table(core, env, &mut file, compressors)?;
        Ok(FileMetaData {
            allowed_seeks: 0,
            num: number,
            size,
            smallest,
            largest,
        })
    }
}

// A copy of a key.
pub(crate) fn copied_key(alloc: Global, key: &[u8]) -> Result<Bytes>
    ensures ok { IfOk result (λ copy. copy ≡ key.now) }
    ensures bytes { OnOk result (AreBytes key.now) }
    ensures memory { IfErr result IsOutOfMemory }
{
    Ok(Bytes::copy_from_slice(alloc, key)?)
}
