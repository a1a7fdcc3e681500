//! What a table builder knows of its table, without the sink that the table moves to.
// LevelDB: table/table_builder.cc, TableBuilder::Rep
ghost use Rattle.std.specs.Prelude.{◌≡◌, ◌≢◌, ◌↔◌, ◌⊎◌, ◌+◌, ◌-◌, ◌^◌, min, ◌<◌, ◌≤◌, ◌++◌, ◌∷◌, [], ℕ, List, Bool, true, false, Option, None, Some, Ok, IfOk, IfErr, IfSome, OnOk, OnErr, IsErr, IsErrAnd, IsTrue, length, codes, max};
ghost use Rattle.std.specs.declared.cmp.Ordering.TheVariants.{Less, Greater};
ghost use Rattle.leveldb_base.specs.Cmp.{bytewise};
ghost use Rattle.leveldb_base.specs.BlockHandle.{Handle, handle_bytes, HandleFits};
ghost use Rattle.leveldb_base.specs.Types.{Pair};
ghost use Rattle.leveldb_base.specs.Error.{IsOutOfMemory};
ghost use Rattle.leveldb_base.specs.declared.error.StatusCode.TheVariants.{NotSupported};
ghost use Rattle.leveldb_env.specs.Compressor.{Codings, Decodes, IsUnset};
ghost use Rattle.leveldb_table.specs.Block.{KeysRise, pairs_of};
ghost use Rattle.leveldb_table.specs.BlockBuilder.{IsMade, IsEntryTooLarge, last_added};
ghost use Rattle.leveldb_table.specs.Footer.{footer_bytes};
ghost use Rattle.leveldb_table.specs.Table.{filter_key};
ghost use Rattle.leveldb_table.specs.PutBlock.{IsTooLong, IsNoMetaindex, PutsFooter, StopsAtFooter};
ghost use Rattle.leveldb_table.specs.TableBuilderStage.{IsSound, stage_of};
ghost use Rattle.leveldb_table.specs.TableBuilderLaws.{IsSound-prop};

use super::footer::{FULL_FOOTER_LENGTH, Footer};
use super::put_block::{put_encoded, put_stored};
use crate::block_builder::BlockBuilder;
use leveldb_base::blockhandle::BlockHandle;
use leveldb_base::cmp::{Cmp, DefaultCmp};
use leveldb_base::error::{Result, StatusCode, err};
use leveldb_env::compressor::{CompressorId, CompressorList, Compressors, NoneCompressor};
use leveldb_env::env::Sink;
use leveldb_env::filter::FilterPolicy;
use leveldb_env::filter_block::FilterBlockBuilder;
use leveldb_env::options::Options;
use std::alloc::Global;
use std::marker::Model;
use std::mem::replace;

// How many lines of the index lie between the starts of two restart points: each has its own, so
// that a look-up reads no line to put a key together.
const INDEX_INTERVAL: usize = 1;

// The room that a new data block has beyond what the last one took.
const BLOCK_SPARE: usize = 64;

/// What a builder knows of its table, without the sink that the table moves to and the list of
/// compressors: each call is given these. A call that fails breaks the builder.
pub struct BuilderCore<C: Cmp, FP: FilterPolicy> {
    alloc: Global,
    block_size: usize,

    // the id of the compressor
    compressor: u8,

    // the data block that is still open
    block: BlockBuilder<C>,

    // one line for each data block, with a restart point at each
    index: BlockBuilder<C>,
    filter: FilterBlockBuilder<FP>,

    // how many bytes were put into the sink
    offset: usize,
    count: usize,
    broken: bool,

    // both blocks have their first restart point
    ghost started: { (block.begun ≡ true) × (index.begun ≡ true) },
    ghost sound: { broken ≡ false → IsSound (C.accepts block.cmp) (C.cmp block.cmp)
        (C.cmp index.cmp) (stage_of filter offset (pairs_of None index.entries)
        (pairs_of None block.entries) count block.interval index.interval) } by { λ u v. λ i h.
            IsSound-prop (C.accepts block.cmp) (C.cmp block.cmp) (C.cmp index.cmp)
            (stage_of filter offset (pairs_of None index.entries)
            (pairs_of None block.entries) count block.interval index.interval) (u h) (v h) i },
}

impl<C: Cmp, FP: FilterPolicy> Model for BuilderCore<C, FP> {
    ghost use Rattle.leveldb_table.specs.TableBuilder.{TableBuilt};

    ghost Value = { TableBuilt C FP };

    ghost view = { λ it. record {
      block = it.block;
      index = it.index;
      filter = it.filter;
      offset = it.offset;
      count = it.count;
      broken = it.broken;
      compressor = it.compressor;
      block_size = it.block_size;
    } };
}

impl<C: Cmp + Drop, FP: FilterPolicy + Drop> Drop for BuilderCore<C, FP> {
    // One call for whoever drops one, in place of one for each part of it.
    fn drop(self) {
        let BuilderCore {
            alloc: _,
            block_size: _,
            compressor: _,
            block,
            index,
            filter,
            offset: _,
            count: _,
            broken: _,
        } = self;
        drop(block);
        drop(index);
        drop(filter);
    }
}

impl<C: Cmp + Copy, FP: FilterPolicy> BuilderCore<C, FP> {
    ghost use Rattle.leveldb_table.specs.Table.{filter_key};
    ghost use Rattle.leveldb_table.specs.TableBuilderStage.{Closes, first_key, with_pair};
    ghost use Rattle.leveldb_table.specs.TableBuilder.{IsNewBuilder, stage, last_of, order_of, policy_of, IsBegun, IsBroken, IsReady, IsReadyFor, IsClosable, KeepsChoices, StaysUnfinished, IsBuiltTable, IsFull, table_estimate, PutsEnd, ClosesLast, MakesRoom, AddsPair, FinishesTable};
    ghost use Rattle.leveldb_table.specs.TableBuilderAdd.{TakesPair, TakesNoPair, HasRoom, IsNotClosed};
    ghost use Rattle.leveldb_table.specs.TableBuilderFinish.{IsFinished, StopsFromFilters, ClosesRest, IsLeftOpen, IsFinishError, CannotFinish, RestMakesTable};

    /// A builder under the options' order and policy as they are.
    pub fn new(alloc: Global, options: &Options<C, FP>) -> BuilderCore<C, FP>
    where
        FP: Copy,
        ensures { IsNewBuilder C.Cmp FP.FilterPolicy options.now.cmp options.now.filter_policy
            options.now.compressor options.now.block_size options.now.block_restart_interval
            result }
    {
        BuilderCore::under(alloc, options.cmp, options.filter_policy, options)
    }

    /// A builder under this order and this policy, with the other choices of the options.
    pub fn under<D, E>(
        alloc: Global,
        cmp: C,
        policy: FP,
        options: &Options<D, E>,
    ) -> BuilderCore<C, FP>
        ensures { IsNewBuilder C.Cmp FP.FilterPolicy cmp policy options.now.compressor
            options.now.block_size options.now.block_restart_interval result }
    {
        let interval = options.block_restart_interval.max(1);
        BuilderCore {
            alloc,
            block_size: options.block_size,
            compressor: options.compressor,
            block: BlockBuilder::spaced(alloc, cmp, interval),
            index: BlockBuilder::spaced(alloc, cmp, INDEX_INTERVAL),
            filter: FilterBlockBuilder::new(alloc, policy),
            offset: 0,
            count: 0,
            broken: false,
        }
    }

    /// How many pairs were added.
    pub fn entries(&self) -> usize
        ensures { result ≡ self.now.count }
    {
        self.count
    }

    /// About how many bytes the table would have if it were finished now: those that were put, the
    /// open block, the filters, the index and the footer.
    pub fn size_estimate(&self) -> usize
        ensures { result ≡ min (table_estimate self.now) (2 ^ 64 - 1) }
    {
        self.block
            .size_estimate()
            .saturating_add(self.index.size_estimate())
            .saturating_add(self.filter.size_estimate())
            .saturating_add(self.offset)
            .saturating_add(FULL_FOOTER_LENGTH)
    }

    /// The key that was added last, empty where none was. A builder that is broken may have none.
    pub fn last_key(&self) -> &[u8]
        ensures { result.now ≡ last_of self.now }
    {
        self.block.last_key()
    }

    /// Whether the key is after the last one, as `add` requires, or the first.
    pub fn follows(&self, key: &[u8]) -> bool
        ensures { IsTrue result ↔ (0 < self.now.count
            → C.cmp (order_of self.now) (last_of self.now) key.now ≡ Less) }
    {
        self.count == 0 || self.block.order().cmp(self.last_key(), key).is_lt()
    }

    /// Adds a pair whose key is after all others. An open block that is full is written before.
    pub fn add<S: Sink>(
        &mut self,
        sink: &mut S,
        compressors: &CompressorList,
        key: &[u8],
        value: &[u8],
    ) -> Result<()>
        requires accepted { self.old.broken ≡ false
            → C.accepts (order_of self.old) key.now ≡ true }
        requires rising { self.old.broken ≡ false → 0 < self.old.count
            → C.cmp (order_of self.old) (last_of self.old) key.now ≡ Less }
        ensures ok { let codings = ⟦<CompressorList as Compressors>⟧.codings compressors.now in
            OnOk result (TakesPair C.Cmp FP.FilterPolicy codings S.puts self.old self.new
            (key.now, value.now) sink.old sink.new) }
        ensures err { let codings = ⟦<CompressorList as Compressors>⟧.codings compressors.now in
            IfErr result (λ status. TakesNoPair C.Cmp FP.FilterPolicy codings S.puts self.old
            self.new (key.now, value.now) sink.old status sink.new) }
        ensures choices { KeepsChoices self.old self.new }
    {
        self.check_unbroken()?;
        self.broken = true;
        self.make_room(sink, compressors, key)?;
        self.filter.add_key(key)?;
        self.block.add(key, value)?;
        self.count = one_more(self.alloc, self.count)?;
        self.broken = false;
        Ok(())
    }

    /// Writes what is left of the table: the open block, the filters, the metaindex, the index and
    /// the footer. Returns how many bytes the table has.
    pub fn finish<S: Sink>(mut self, sink: &mut S, compressors: &CompressorList) -> Result<usize>
    where
        C: Drop,
        FP: Drop,
        ensures ok { let codings = ⟦<CompressorList as Compressors>⟧.codings compressors.now in
            IfOk result (λ size. IsFinished C.Cmp FP.FilterPolicy codings self S.puts S.flushes
            sink.old size sink.new) }
        ensures cause { IfErr result (λ status. IsFinishError C.Cmp FP.FilterPolicy
            (⟦<CompressorList as Compressors>⟧.codings compressors.now) self S.puts S.flushes
            sink.old status sink.new) }
        ensures cannot { let codings = ⟦<CompressorList as Compressors>⟧.codings compressors.now in
            CannotFinish C.Cmp FP.FilterPolicy codings self S.puts sink.old result sink.new }
        ensures rest { RestMakesTable C.Cmp FP.FilterPolicy
            (⟦<CompressorList as Compressors>⟧.codings compressors.now) self }
    {
        self.check_unbroken()?;
        self.broken = true;
        self.close_last(sink, compressors)?;
        self.put_end(sink, compressors)
    }

    fn check_unbroken(&self) -> Result<()>
        ensures ok { OnOk result (self.now.broken ≡ false) }
        ensures err { IfErr result (λ status. (self.now.broken ≡ true) × IsBroken status) }
    {
        if self.broken {
            return err(self.alloc, StatusCode::IOError, "reopen the store");
        }
        Ok(())
    }

    // Writes the open block where it is full; the next key is after all others.
    fn make_room<S: Sink>(
        &mut self,
        sink: &mut S,
        compressors: &CompressorList,
        next: &[u8],
    ) -> Result<()>
        requires broken { self.old.broken ≡ true }
        requires sound { IsReadyFor C.accepts C.cmp self.old next.now }
        requires some { (stage self.old).open_pairs ≡ [] → (stage self.old).lines ≡ [] }
        ensures ok { let codings = ⟦<CompressorList as Compressors>⟧.codings compressors.now in
            OnOk result (MakesRoom S.puts (IsBegun codings C.Cmp FP.FilterPolicy self.old)
            (Decodes codings) (C.accepts (order_of self.old)) (C.cmp (order_of self.old))
            (C.shortest_sep (order_of self.old)) (FP.matches (policy_of self.old))
            (FP.filter_for (policy_of self.old)) self.old.compressor (stage self.new) next.now
            sink.old sink.new) }
        ensures room { let codings = ⟦<CompressorList as Compressors>⟧.codings compressors.now in
            OnOk result (HasRoom C.Cmp FP.FilterPolicy codings self.old S.puts next.now self.new
            sink.old sink.new × IsReadyFor C.accepts C.cmp self.new next.now) }
        ensures choices { KeepsChoices self.old self.new }
        ensures still { StaysUnfinished self.old self.new }
        ensures cause { IfErr result (λ status. IsFull self.old
            × IsNotClosed C.Cmp FP.FilterPolicy (⟦<CompressorList as Compressors>⟧.codings
            compressors.now) self.old S.puts next.now sink.old status sink.new) }
        ensures unset { IsFull self.old → ⟦<CompressorList as Compressors>⟧.codings compressors.now
            self.old.compressor ≡ None → IsErrAnd result (λ status.
            IsUnset self.old.compressor status ⊎ IsOutOfMemory status) × (sink.new ≡ sink.old) }
    {
        if self.block.entries() > 0 && self.block.size_estimate() > self.block_size {
            return self.close_block(sink, compressors, next);
        }
        Ok(())
    }

    // Writes the open block where it has a pair; no key comes after it.
    fn close_last<S: Sink>(&mut self, sink: &mut S, compressors: &CompressorList) -> Result<()>
        requires broken { self.old.broken ≡ true }
        requires sound { IsReady C.accepts C.cmp self.old }
        requires some { (stage self.old).open_pairs ≡ [] → (stage self.old).lines ≡ [] }
        ensures ok { let codings = ⟦<CompressorList as Compressors>⟧.codings compressors.now in
            OnOk result (ClosesLast S.puts (IsBegun codings C.Cmp FP.FilterPolicy self.old)
            (Decodes codings) (C.accepts (order_of self.old)) (C.cmp (order_of self.old))
            (C.shortest_sep (order_of self.old)) (C.short_succ (order_of self.old))
            (FP.matches (policy_of self.old)) (FP.filter_for (policy_of self.old))
            self.old.compressor (stage self.new) sink.old sink.new) }
        ensures order { OnOk result (C.cmp self.new.index.cmp ≡ C.cmp (order_of self.old)) }
        ensures choices { KeepsChoices self.old self.new }
        ensures rest { let codings = ⟦<CompressorList as Compressors>⟧.codings compressors.now in
            OnOk result (ClosesRest C.Cmp FP.FilterPolicy codings self.old S.puts
            (stage self.new) sink.old sink.new) }
        ensures cause { let codings = ⟦<CompressorList as Compressors>⟧.codings compressors.now in
            IfErr result (λ status. IsLeftOpen C.Cmp FP.FilterPolicy codings self.old S.puts
            sink.old status sink.new) }
        ensures unset { (stage self.old).open_pairs ≢ []
            → ⟦<CompressorList as Compressors>⟧.codings compressors.now self.old.compressor ≡ None
            → IsErrAnd result (λ status. IsUnset self.old.compressor status ⊎ IsOutOfMemory status)
            × (sink.new ≡ sink.old) }
    {
        if self.block.entries() == 0 {
            return Ok(());
        }
        let last = self.last_key();
        let next = self.block.order().find_short_succ(self.alloc, last)?;
        self.close_block(sink, compressors, &next)
    }

    // Writes the open block and puts its line into the index; the next key is at or after its
    // last.
    fn close_block<S: Sink>(
        &mut self,
        sink: &mut S,
        compressors: &CompressorList,
        next: &[u8],
    ) -> Result<()>
        requires broken { self.old.broken ≡ true }
        requires closable { IsClosable C.accepts C.cmp self.old next.now }
        ensures ok { OnOk result ((bytes : List ℕ) × S.puts sink.old bytes (Ok tt) sink.new
            × Closes (Decodes (⟦<CompressorList as Compressors>⟧.codings compressors.now))
            (C.cmp (order_of self.old)) (C.shortest_sep (order_of self.old))
            (FP.filter_for (policy_of self.old)) self.old.compressor next.now
            (stage self.old) bytes (stage self.new)) }
        ensures ready { OnOk result
            (IsReady C.accepts C.cmp self.new × (self.new.block.entries ≡ [])) }
        ensures choices { KeepsChoices self.old self.new }
        ensures still { StaysUnfinished self.old self.new }
        ensures cause { let codings = ⟦<CompressorList as Compressors>⟧.codings compressors.now in
            IfErr result (λ status. IsNotClosed C.Cmp FP.FilterPolicy codings self.old S.puts
            next.now sink.old status sink.new) }
        ensures unset { ⟦<CompressorList as Compressors>⟧.codings compressors.now
            self.old.compressor ≡ None → IsErrAnd result (λ status.
            IsUnset self.old.compressor status ⊎ IsOutOfMemory status) × (sink.new ≡ sink.old) }
    {
        let last = self.last_key();
        let separator = self
            .block
            .order()
            .find_shortest_sep(self.alloc, last, next)?;
        let room = self.room_for_next();
        let fresh = self.block.fresh(room)?;
        let block = replace(&mut self.block, fresh).into_bytes()?;
        let (id, offset) = (self.compressor, self.offset);
        let placed = put_encoded(self.alloc, sink, compressors, id, offset, block)?;
        self.offset = placed.end;
        add_handle(&mut self.index, &separator, placed.handle)?;
        self.filter.start_block(self.offset)
    }

    // How many bytes the block after the open one is given room for: it mostly takes as much as
    // this one, and a little for its last pair and its trailer; but one large value is no measure
    // of those that follow.
    fn room_for_next(&self) -> usize {
        self.block
            .size_estimate()
            .saturating_add(BLOCK_SPARE)
            .min(self.block_size.saturating_mul(2))
    }

    // Writes all that comes after the data blocks.
    fn put_end<S: Sink>(self, sink: &mut S, compressors: &CompressorList) -> Result<usize>
    where
        C: Drop,
        FP: Drop,
        ensures ok { IfOk result (λ size. PutsEnd S.puts S.flushes
            (Decodes (⟦<CompressorList as Compressors>⟧.codings compressors.now))
            (C.cmp self.index.cmp) (FP.filter_for (policy_of self)) self.compressor
            (FP.name (policy_of self)) (stage self) sink.old size sink.new) }
        ensures cause { IfErr result (λ status. StopsFromFilters
            (⟦<CompressorList as Compressors>⟧.codings compressors.now) (C.cmp self.index.cmp)
            (FP.too_large (policy_of self)) (FP.filter_for (policy_of self)) self.compressor
            (FP.name (policy_of self)) (stage self) S.puts S.flushes sink.old status sink.new) }
        ensures unset { ⟦<CompressorList as Compressors>⟧.codings compressors.now self.compressor
            ≡ None → IsErr result }
    {
        let BuilderCore {
            alloc,
            block_size: _,
            compressor,
            block,
            index,
            filter,
            offset,
            count: _,
            broken: _,
        } = self;
        drop(block);
        let name = filter.filter_name();
        let filters = put_stored(alloc, sink, NoneCompressor::ID, offset, filter.finish()?)?;
        let meta = metaindex(alloc, index.interval(), name, filters.handle)?;
        let meta = put_encoded(alloc, sink, compressors, compressor, filters.end, meta)?;
        let lines = index.into_bytes()?;
        let index = put_encoded(alloc, sink, compressors, compressor, meta.end, lines)?;
        let footer = Footer::new(meta.handle, index.handle);
        put_footer(alloc, sink, index.end, footer)
    }
}

// One more pair.
fn one_more(alloc: Global, count: usize) -> Result<usize>
    ensures ok { IfOk result (λ more. more ≡ count + 1) }
    ensures cause { IfErr result (IsTooLong (count + 1)) }
{
    match count.checked_add(1) {
        Some(more) => Ok(more),
        None => err(
            alloc,
            StatusCode::NotSupported,
            "a table has fewer than 2^64 pairs",
        ),
    }
}

// Adds a pair with a handle's bytes for its value.
fn add_handle<C: Cmp>(index: &mut BlockBuilder<C>, key: &[u8], handle: BlockHandle) -> Result<()>
    requires rise { KeysRise (C.cmp index.old.cmp)
        (pairs_of None index.old.entries ++ (key.now, handle_bytes handle) ∷ []) }
    requires fits { HandleFits handle }
    ensures ok { OnOk result (pairs_of None index.new.entries
        ≡ pairs_of None index.old.entries ++ (key.now, handle_bytes handle) ∷ []) }
    ensures begun { index.old.begun ≡ true → index.new.begun ≡ true }
    ensures order { index.new.cmp ≡ index.old.cmp }
    ensures interval { index.new.interval ≡ index.old.interval }
    ensures too_large { IsErrAnd result (λ status. status.code ≡ NotSupported)
        → IsEntryTooLarge index.old.entries key.now (handle_bytes handle) }
    ensures cause { IfErr result (λ status. (status.code ≡ NotSupported) ⊎ IsOutOfMemory status) }
{
    let mut bytes = [0; 20];
    let used = handle.encode_to(&mut bytes);
    index.add(key, &bytes[..used])
}

// The metaindex: under the policy's name where its filters are.
fn metaindex(alloc: Global, interval: usize, name: &str, filters: BlockHandle) -> Result<Vec<u8>>
    requires some { 1 ≤ interval }
    requires fits { HandleFits filters }
    ensures ok { IfOk result (λ block. IsMade bytewise interval
        ((filter_key name.now, handle_bytes filters) ∷ []) block.items) }
    ensures cause { IfErr result (IsNoMetaindex name.now filters) }
{
    let mut builder = BlockBuilder::spaced(alloc, DefaultCmp, interval);
    let key = format!(in alloc; "filter.{name}")?;
    add_handle(&mut builder, key.as_bytes(), filters)?;
    builder.into_bytes()
}

// Puts the footer after the index, which ends at this offset, and flushes the sink. Returns where
// the footer ends.
fn put_footer<S: Sink>(alloc: Global, sink: &mut S, offset: usize, footer: Footer) -> Result<usize>
    requires meta { HandleFits footer.meta_index }
    requires index { HandleFits footer.index }
    ensures ok { IfOk result (λ end. PutsFooter S.puts S.flushes
        (footer_bytes footer.meta_index footer.index) offset sink.old end sink.new) }
    ensures cause { IfErr result (λ status. StopsAtFooter S.puts S.flushes
        (footer_bytes footer.meta_index footer.index) offset sink.old status sink.new) }
{
    let Some(end) = offset.checked_add(FULL_FOOTER_LENGTH) else {
        return err(
            alloc,
            StatusCode::NotSupported,
            "a table has offsets of 64 bits",
        );
    };
    let mut bytes = [0; FULL_FOOTER_LENGTH];
    footer.encode(&mut bytes);
    sink.put_all(&bytes)?;
    sink.flush()?;
    Ok(end)
}
