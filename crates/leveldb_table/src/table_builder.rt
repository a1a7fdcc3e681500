//! Table builders, and the parts of a table's file that they share with its readers.
// LevelDB: table/table_builder.cc
ghost use Rattle.std.specs.Prelude.{◌≡◌, ◌↔◌, ◌+◌, ◌-◌, ◌^◌, ◌<◌, ◌++◌, ◌∷◌, List, max, true, false, min, IfOk, IfErr, OnOk, OnErr, IsTrue};
ghost use Rattle.std.specs.declared.cmp.Ordering.TheVariants.{Less};
ghost use Rattle.leveldb_env.specs.Compressor.{Codings};
ghost use Rattle.leveldb_table.specs.TableBuilderFinish.{IsFinished, IsFinishError, CannotFinish};
ghost use Rattle.leveldb_table.specs.TableBuilderStage.{with_pair};
ghost use Rattle.leveldb_table.specs.TableBuilderAdd.{TakesPair, TakesNoPair};
ghost use Rattle.leveldb_table.specs.TableBuilder.{IsNewBuilder, last_of, order_of, policy_of, KeepsChoices, IsBegun, IsBuiltTable, IsFull, table_estimate, AddsPair, FinishesTable};

use crate::table_builder::builder_core::BuilderCore;
use leveldb_base::cmp::{Cmp, InternalKeyCmp, UserCmp};
use leveldb_base::error::Result;
use leveldb_env::compressor::{CompressorList, Compressors};
use leveldb_env::env::Sink;
use leveldb_env::filter::{FilterPolicy, InternalFilterPolicy, NoFilterPolicy};
use leveldb_env::options::Options;
use std::alloc::Global;

pub mod builder_core;
mod footer;
mod put_block;

pub use footer::{
    FOOTER_LENGTH, FULL_FOOTER_LENGTH, Footer, MAGIC_FOOTER_ENCODED, MAGIC_FOOTER_NUMBER,
};

/// How many bytes the compressor's id after a block has.
pub const TABLE_BLOCK_COMPRESS_LEN: usize = 1;

/// How many bytes the checksum after a block has.
pub const TABLE_BLOCK_CKSUM_LEN: usize = 4;

/// How many bytes the trailer after a block has: the compressor's id and the checksum.
pub(crate) const TRAILER: usize = TABLE_BLOCK_COMPRESS_LEN + TABLE_BLOCK_CKSUM_LEN;

/// A builder with the sink that its table moves to. The calls that store blocks are given the
/// compressors.
#[derive(Drop)]
pub struct TableBuilder<Dst: Sink, C: Cmp, FP: FilterPolicy> {
    pub core: BuilderCore<C, FP>,
    pub dst: Dst,
}

impl<Dst: Sink, C: UserCmp + Copy, FP: FilterPolicy + Copy> TableBuilder<Dst, C, FP> {
    /// A builder for internal keys, under the options' order and policy of users' keys. It takes
    /// no memory.
    pub fn new(
        alloc: Global,
        options: &Options<C, FP>,
        dst: Dst,
    ) -> TableBuilder<Dst, InternalKeyCmp<C>, InternalFilterPolicy<FP>>
        ensures new { IsNewBuilder ⟦<InternalKeyCmp<C> as Cmp>⟧
            ⟦<InternalFilterPolicy<FP> as FilterPolicy>⟧ (record { 0 = options.now.cmp })
            options.now.filter_policy options.now.compressor options.now.block_size
            options.now.block_restart_interval result.core }
        ensures dst { result.dst ≡ dst }
    {
        TableBuilder {
            core: BuilderCore::under(
                alloc,
                InternalKeyCmp(options.cmp),
                InternalFilterPolicy::new(options.filter_policy),
                options,
            ),
            dst,
        }
    }

    /// A builder for internal keys, under the options' order of users' keys, without filters. It
    /// takes no memory.
    pub fn new_no_filter(
        alloc: Global,
        options: &Options<C, FP>,
        dst: Dst,
    ) -> TableBuilder<Dst, InternalKeyCmp<C>, NoFilterPolicy>
        ensures new { IsNewBuilder ⟦<InternalKeyCmp<C> as Cmp>⟧
            ⟦<NoFilterPolicy as FilterPolicy>⟧ (record { 0 = options.now.cmp })
            (policy_of result.core) options.now.compressor options.now.block_size
            options.now.block_restart_interval result.core }
        ensures dst { result.dst ≡ dst }
    {
        TableBuilder {
            core: BuilderCore::under(
                alloc,
                InternalKeyCmp(options.cmp),
                NoFilterPolicy::new(),
                options,
            ),
            dst,
        }
    }
}

impl<Dst: Sink, C: Cmp + Copy, FP: FilterPolicy + Copy> TableBuilder<Dst, C, FP> {
    /// A builder under the options' order and policy as they are. It takes no memory.
    pub fn new_raw(alloc: Global, options: &Options<C, FP>, dst: Dst) -> TableBuilder<Dst, C, FP>
        ensures new { IsNewBuilder C.Cmp FP.FilterPolicy options.now.cmp options.now.filter_policy
            options.now.compressor options.now.block_size options.now.block_restart_interval
            result.core }
        ensures dst { result.dst ≡ dst }
    {
        TableBuilder {
            core: BuilderCore::new(alloc, options),
            dst,
        }
    }

    /// How many pairs were added.
    pub fn entries(&self) -> usize
        ensures { result ≡ self.now.core.count }
    {
        self.core.entries()
    }

    /// About how many bytes the table would have if it were finished now: those that were put, the
    /// open block, the filters, the index and the footer.
    pub fn size_estimate(&self) -> usize
        ensures { result ≡ min (table_estimate self.now.core) (2 ^ 64 - 1) }
    {
        self.core.size_estimate()
    }

    /// The key that was added last, empty where none was. A builder that is broken may have none.
    pub fn last_key(&self) -> &[u8]
        ensures { result.now ≡ last_of self.now.core }
    {
        self.core.last_key()
    }

    /// Whether the key is after the last one, as `add` requires, or the first.
    pub fn follows(&self, key: &[u8]) -> bool
        ensures { IsTrue result ↔ (0 < self.now.core.count
            → C.cmp (order_of self.now.core) (last_of self.now.core) key.now ≡ Less) }
    {
        self.core.follows(key)
    }

    /// Adds a pair whose key is after all others. An open block that has more bytes than the
    /// options' `block_size` is written before, stored by the compressor of the options' id.
    /// `NotSupported` where the id has no compressor, or a length, an offset or a filter is too
    /// large for the format; running out of memory, and the errors of the compressor and the sink,
    /// are passed on. After an error each call but `entries` and `size_estimate` fails with
    /// `IOError`.
    pub fn add(&mut self, compressors: &CompressorList, key: &[u8], value: &[u8]) -> Result<()>
        requires accepted { self.old.core.broken ≡ false
            → C.accepts (order_of self.old.core) key.now ≡ true }
        requires rising { self.old.core.broken ≡ false → 0 < self.old.core.count
            → C.cmp (order_of self.old.core) (last_of self.old.core) key.now ≡ Less }
        ensures ok { let codings = ⟦<CompressorList as Compressors>⟧.codings compressors.now in
            OnOk result (TakesPair C.Cmp FP.FilterPolicy codings Dst.puts self.old.core
            self.new.core (key.now, value.now) self.old.dst self.new.dst) }
        ensures err { let codings = ⟦<CompressorList as Compressors>⟧.codings compressors.now in
            IfErr result (λ status. TakesNoPair C.Cmp FP.FilterPolicy codings Dst.puts self.old.core
            self.new.core (key.now, value.now) self.old.dst status self.new.dst) }
        ensures choices { KeepsChoices self.old.core self.new.core }
    {
        self.core.add(&mut self.dst, compressors, key, value)
    }

    /// Writes what is left of the table: the open block, the filters, the metaindex, the index and
    /// the footer, and flushes the sink. Returns the sink, and how many bytes the table has. Fails
    /// as `add` does, and where the sink can't be flushed.
    pub fn finish(self, compressors: &CompressorList) -> (Dst, Result<usize>)
        ensures ok { let codings = ⟦<CompressorList as Compressors>⟧.codings compressors.now in
            IfOk result.1 (λ size. IsFinished C.Cmp FP.FilterPolicy codings self.core Dst.puts
            Dst.flushes self.dst size result.0) }
        ensures cause { IfErr result.1 (λ status. IsFinishError C.Cmp FP.FilterPolicy
            (⟦<CompressorList as Compressors>⟧.codings compressors.now) self.core Dst.puts
            Dst.flushes self.dst status result.0) }
        ensures cannot { let codings = ⟦<CompressorList as Compressors>⟧.codings compressors.now in
            CannotFinish C.Cmp FP.FilterPolicy codings self.core Dst.puts self.dst result.1
            result.0 }
    {
        let TableBuilder { core, mut dst } = self;
        let size = core.finish(&mut dst, compressors);
        (dst, size)
    }
}
