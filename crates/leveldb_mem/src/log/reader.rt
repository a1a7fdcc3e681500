//! The reader of a log: it joins fragments to records.
// LevelDB: db/log_reader.cc
ghost use Rattle.std.specs.Prelude.{◌≡◌, ◌≢◌, ◌↔◌, ℕ, ◌+◌, ◌-◌, ◌*◌, ◌%◌, ◌≤◌, ◌<◌, true, false};
ghost use Rattle.std.specs.Prelude.{[], take};
ghost use Rattle.std.specs.Prelude.{drop, length, slice_index, slice_range, vec_len, List, IfOk};
ghost use Rattle.std.specs.Prelude.{OnOk};
ghost use Rattle.std.specs.Prelude.{IfErr, IfSome, IsErrAnd, IsTrue, MatchOption, All};
ghost use Rattle.std.specs.Prelude.{string_bytes, map};
ghost use Rattle.std.specs.Prelude.{if◌then◌else◌};
ghost use Rattle.leveldb_base.specs.Error.{status_text, IsOutOfMemory};
ghost use Rattle.leveldb_base.specs.declared.error.StatusCode.TheVariants.{Corruption};
ghost use Rattle.leveldb_base.specs.declared.error.StatusCode.TheVariants.{NotSupported};
ghost use Rattle.leveldb_env.specs.Source.{GivesSome, GivesAll, GivesUp};
ghost use Rattle.leveldb_mem.specs.Log.{IsBlockSize, log_block_size, clean, bad, LogOf};
ghost use Rattle.leveldb_mem.specs.Log.Reader.{IsUnreadThenGiven, HoldsOfRest, FindsNext, IsDamage};
ghost use Rattle.leveldb_mem.specs.Log.Reader.{StopsReading, ReadResult, new_reader};
ghost use Rattle.leveldb_mem.specs.Log.Taking.{declared_length, HasRightChecksum, PassesFragment};
ghost use Rattle.leveldb_mem.specs.Log.Taking.{TakesNext, SkipsFiller};

use super::{BLOCK_SIZE, HEADER_SIZE, type_of};
use leveldb_base::crc::{crc32, mask_crc};
use leveldb_base::error::{Result, Status, StatusCode, err};
use leveldb_env::env::Source;
use std::alloc::Global;
use std::marker::Model;

// The most bytes that are asked of a source at a time.
const PIECE_SIZE: usize = 4096;

/// What a reader finds in its log.
#[derive(Clone, Copy, Debug, PartialEq, Eq)]
pub enum Found {
    /// A record.
    Record,
    /// The end of the log, between two records.
    End,
    /// A fragment with a wrong checksum, which was passed. What follows it can be read as a log of
    /// its own.
    WrongChecksum,
    /// No record, for this cause.
    Damage(&'static str),
}

// What comes next in a log.
#[derive(Clone, Copy)]
enum Taken {
    // Nothing: its source is at the end.
    End,
    // A fragment of this type.
    Part(u8),
    // A fragment with a wrong checksum.
    WrongChecksum,
    // No fragment, for this cause.
    Damage(&'static str),
}

/// What a reader knows of its log, without the source of the log: each call is given that.
/// It holds one block at most.
#[derive(Drop)]
pub struct ReaderCore {
    // whether it asks for right checksums
    check_crcs: bool,
    block_size: usize,
    // the block that is read, in a buffer that may be longer than what there is of it
    block: Vec<u8>,
    // how many of its bytes there are
    filled: usize,
    // how many of these are read
    used: usize,
    // whether a later call is `Corruption`
    failed: bool,
}

impl Model for ReaderCore {
    ghost use Rattle.std.specs.Prelude.{slice_range, vec_len};
    ghost use Rattle.leveldb_mem.specs.Log.Reader.{ReaderState, IsReaderBuffer};

    ghost Value = { ReaderState };

    ghost view = { λ core. record {
      checked = core.check_crcs;
      size = core.block_size;
      offset = core.used;
      unread = slice_range core.block.items core.used core.filled;
      failed = core.failed;
    } };

    ghost invariant = { λ core.
        IsReaderBuffer core.block_size core.used core.filled (vec_len core.block) };
}

impl ReaderCore {
    /// For a log from its start on. Without `check_crcs` any checksum is taken as right.
    pub fn new(alloc: Global, check_crcs: bool) -> ReaderCore
        ensures { result ≡ new_reader check_crcs log_block_size }
    {
        ReaderCore::sized(alloc, check_crcs, BLOCK_SIZE)
    }

    /// The same, for blocks of `block_size` bytes.
    pub fn sized(alloc: Global, check_crcs: bool, block_size: usize) -> ReaderCore
        requires { IsBlockSize block_size }
        ensures { result ≡ new_reader check_crcs block_size }
    {
        ReaderCore {
            check_crcs,
            block_size,
            block: Vec::new(alloc),
            filled: 0,
            used: 0,
            failed: false,
        }
    }

    // The bytes that are still to be read.
    fn unread(&self) -> &[u8]
        ensures value { result.now ≡ self.now.unread }
        ensures within { length result.now ≤ self.now.size - self.now.offset }
    {
        &self.block[self.used..self.filled]
    }

    // How many bytes are left of the block.
    fn space(&self) -> usize
        ensures left { result ≡ self.now.size - self.now.offset }
        ensures size { IsBlockSize self.now.size }
        ensures inside { self.now.offset < self.now.size }
        ensures within { length self.now.unread ≤ result }
    {
        self.block_size - self.used
    }

    // Reads on, if fewer than `count` bytes are unread, until as many are or the source is at its
    // end. Returns whether they are.
    fn fill<S: Source>(&mut self, source: &mut S, count: usize) -> Result<bool>
        requires { self.old.offset + count ≤ self.old.size }
        ensures reader { IfOk result (λ there.
            self.new ≡ record self.old { unread = self.new.unread }) }
        ensures there { IfOk result (λ there. there ≡ true
            → IsUnreadThenGiven (GivesSome S.gives) self.old.unread source.old
            self.new.unread source.new
            × (count ≤ length self.new.unread)) }
        ensures short { IfOk result (λ there. there ≡ false
            → IsUnreadThenGiven (GivesAll S.gives) self.old.unread source.old
            self.new.unread source.new
            × (length self.new.unread < count)) }
        ensures err { IfErr result (λ status. GivesUp S.gives source.old status source.new) }
    {
        if count <= self.filled - self.used {
            return Ok(true);
        }
        make_long(&mut self.block, self.block_size)?;
        let needed = self.used + count;
        self.filled = draw(source, &mut self.block, self.filled, needed)?;
        Ok(needed <= self.filled)
    }

    /// Reads what comes next, a record into the target. If no record comes, the target holds some
    /// bytes of one, or none.
    ///
    /// Damage other than a wrong checksum, a read of the source that fails, memory that runs out
    /// and a record of 2^64 bytes fail the reader: every later call is `Corruption`.
    pub fn next_record<S: Source>(&mut self, source: &mut S, target: &mut Vec<u8>) -> Result<Found>
        ensures found { IfOk result (λ found. FindsNext S.gives found self.old source.old
            target.new.items self.new source.new) }
        ensures damage { IfOk result (λ found. IsDamage found → self.new.failed ≡ true) }
        ensures err { self.old.failed ≡ false
            → IfErr result (λ status. StopsReading S.gives source.old status source.new
            × (self.new.failed ≡ true)) }
        ensures failed { self.old.failed ≡ true
            → IsErrAnd result (λ status. status.code ≡ Corruption)
            × (self.new ≡ self.old) × (source.new ≡ source.old) }
        ensures cleared { self.old.failed ≡ true → target.new.items ≡ [] }
    {
        target.clear();
        if self.failed {
            return self.corruption("the reader has failed");
        }
        match self.take_record(source, target) {
            Ok(Found::Damage(cause)) => {
                self.failed = true;
                Ok(Found::Damage(cause))
            }
            Ok(found) => Ok(found),
            Err(status) => {
                self.failed = true;
                Err(status)
            }
        }
    }

    /// Reads the next record into the target and returns its length; 0 if the log ends between two
    /// records. After an error the target is empty.
    ///
    /// Any damage is `Corruption`. After a wrong checksum the next call goes on, as in a log of its
    /// own. Other damage, a read of the source that fails, memory that runs out and a record of
    /// 2^64 bytes, which is `NotSupported`, fail the reader: every later call is `Corruption`.
    pub fn read<S: Source>(&mut self, source: &mut S, target: &mut Vec<u8>) -> Result<usize>
        ensures { ReadResult S.gives self.old source.old result target.new.items
            self.new source.new }
    {
        let failed = match self.next_record(source, target) {
            Ok(Found::Record) => return Ok(target.len()),
            Ok(Found::End) => return Ok(0),
            Ok(Found::WrongChecksum) => self.corruption("Invalid Checksum"),
            Ok(Found::Damage(cause)) => self.corruption(cause),
            Err(status) => Err(status),
        };
        target.clear();
        failed
    }

    fn corruption<T>(&self, cause: &str) -> Result<T>
        ensures code { IsErrAnd result (λ status. status.code ≡ Corruption) }
        ensures text { IsErrAnd result (λ status.
            IfSome status.err (λ text. string_bytes text ≡ status_text Corruption cause.now)) }
    {
        err(*self.block.allocator(), StatusCode::Corruption, cause)
    }

    // Reads what comes next, a record into the target.
    fn take_record<S: Source>(&mut self, source: &mut S, target: &mut Vec<u8>) -> Result<Found>
        requires empty { target.old.items ≡ [] }
        requires block { IsBlockSize self.old.size }
        requires inside { self.old.offset < self.old.size }
        requires unread { length self.old.unread ≤ self.old.size }
        ensures ok { IfOk result (λ found. FindsNext S.gives found self.old source.old
            target.new.items self.new source.new) }
        ensures err { IfErr result (λ status.
            StopsReading S.gives source.old status source.new) }
    {
        let mut first = true;
        for taken in 0..u64::MAX {
            let kind = match self.take_fragment(source, target)? {
                Taken::Part(kind) => kind,
                Taken::End if first => return Ok(Found::End),
                Taken::End => return Ok(Found::Damage("record cut short")),
                Taken::WrongChecksum => return Ok(Found::WrongChecksum),
                Taken::Damage(cause) => return Ok(Found::Damage(cause)),
            };
            if kind == type_of(first, true) {
                if target.is_empty() {
                    return Ok(Found::Damage("record without data"));
                }
                return Ok(Found::Record);
            }
            if kind != type_of(first, false) {
                return Ok(Found::Damage(misplaced(kind)));
            }
            first = false;
        }
        self.too_long()
    }

    // The error of a record whose fragments can't be counted.
    fn too_long<T>(&self) -> Result<T>
        ensures { IsErrAnd result (λ status. status.code ≡ NotSupported) }
    {
        err(
            *self.block.allocator(),
            StatusCode::NotSupported,
            "a record has less than 2^64 fragments",
        )
    }

    // Takes what comes next. The data of a fragment is appended to the target.
    fn take_fragment<S: Source>(&mut self, source: &mut S, target: &mut Vec<u8>) -> Result<Taken>
        ensures ok { IfOk result (λ taken.
            TakesNext S.gives taken self.old source.old target.old.items
            self.new source.new target.new.items) }
        ensures err { IfErr result (λ status. GivesUp S.gives source.old status source.new) }
    {
        if self.space() >= HEADER_SIZE {
            return self.take_in_block(source, target);
        }
        if let Some(stop) = self.skip_filler(source)? {
            return Ok(stop);
        }
        match self.take_in_block(source, target)? {
            Taken::End => Ok(Taken::Damage("no fragment after filler")),
            taken => Ok(taken),
        }
    }

    // Passes the zeros at the block's end, or returns what comes in their place.
    fn skip_filler<S: Source>(&mut self, source: &mut S) -> Result<Option<Taken>>
        requires { self.old.size - self.old.offset < 7 }
        ensures ok { IfOk result (λ stop. MatchOption stop
            (SkipsFiller S.gives self.old source.old self.new source.new)
            (λ taken. (text : List ℕ)
            → TakesNext S.gives taken self.old source.old text self.new source.new text)) }
        ensures err { IfErr result (λ status. GivesUp S.gives source.old status source.new) }
    {
        let space = self.space();
        if !self.fill(source, space)? {
            return Ok(Some(self.end_or("filler cut short")));
        }
        if !is_zeros(self.unread()) {
            return Ok(Some(Taken::Damage("filler that isn't zero")));
        }
        self.advance(space);
        Ok(None)
    }

    // The same if a header fits into the block.
    fn take_in_block<S: Source>(&mut self, source: &mut S, target: &mut Vec<u8>) -> Result<Taken>
        requires { 7 ≤ self.old.size - self.old.offset }
        ensures ok { IfOk result (λ taken.
            TakesNext S.gives taken self.old source.old target.old.items
            self.new source.new target.new.items) }
        ensures err { IfErr result (λ status. GivesUp S.gives source.old status source.new) }
    {
        if !self.fill(source, HEADER_SIZE)? {
            return Ok(self.end_or("header cut short"));
        }
        let count = data_length(self.unread());
        if count > self.space() - HEADER_SIZE {
            return Ok(Taken::Damage("fragment past its block"));
        }
        if !self.fill(source, HEADER_SIZE + count)? {
            return Ok(Taken::Damage("data cut short"));
        }
        self.pass_fragment(target, count)
    }

    // What comes at the end of the source: nothing, or this damage.
    fn end_or(&self, damage: &'static str) -> Taken
        ensures end { result ≡ Taken.End ↔ (self.now.unread ≡ []) }
        ensures damage { self.now.unread ≢ [] → result ≡ Taken.Damage damage.entry }
    {
        if self.unread().is_empty() {
            Taken::End
        } else {
            Taken::Damage(damage)
        }
    }

    // Passes the fragment at the front, whose data has `count` bytes. If its checksum is taken, its
    // data is appended to the target.
    fn pass_fragment(&mut self, target: &mut Vec<u8>, count: usize) -> Result<Taken>
        requires header { 7 ≤ self.old.size - self.old.offset }
        requires stated { count ≡ declared_length self.old.unread }
        requires bytes { slice_index self.old.unread 4 < 256
            × (slice_index self.old.unread 5 < 256) }
        requires within { self.old.offset + (7 + count) ≤ self.old.size }
        requires there { 7 + count ≤ length self.old.unread }
        ensures ok { IfOk result (λ taken.
            PassesFragment taken self.old target.old.items self.new target.new.items) }
        ensures cause { IfErr result IsOutOfMemory }
    {
        let (fragment, _) = self.unread().split_at(HEADER_SIZE + count);
        if self.check_crcs && !has_right_checksum(fragment) {
            self.advance(HEADER_SIZE + count);
            return Ok(Taken::WrongChecksum);
        }
        target.extend_from_slice(&fragment[HEADER_SIZE..])?;
        let kind = fragment[6];
        self.advance(HEADER_SIZE + count);
        Ok(Taken::Part(kind))
    }

    // Goes on after `count` bytes.
    fn advance(&mut self, count: usize)
        requires there { count ≤ length self.old.unread }
        requires within { self.old.offset + count ≤ self.old.size }
        ensures { self.new ≡ record self.old {
          offset = (self.old.offset + count) % self.old.size;
          unread = drop count self.old.unread;
        } }
    {
        self.used += count;
        if self.used == self.block_size {
            self.used = 0;
            self.filled = 0;
        }
    }
}

fn is_zeros(bytes: &[u8]) -> bool
    ensures { IsTrue result ↔ All (λ byte. byte ≡ 0) bytes.now }
{
    bytes.iter().all(|byte| *byte == 0)
}

// How many bytes of data the fragment with this header has.
#[inline]
fn data_length(header: &[u8]) -> usize
    requires { 7 ≤ length header.now }
    ensures stated { result ≡ declared_length header.now }
    ensures bytes { slice_index header.now 4 < 256 × (slice_index header.now 5 < 256) }
{
    usize::from(header[4]) + 256 * usize::from(header[5])
}

// Why a fragment of this type can't come here.
fn misplaced(kind: u8) -> &'static str {
    match kind {
        1 | 2 => "record inside another",
        3 | 4 => "record without its first part",
        _ => "unknown record type",
    }
}

// Whether the header's checksum is that of the fragment.
fn has_right_checksum(fragment: &[u8]) -> bool
    requires { 7 ≤ length fragment.now }
    ensures { IsTrue result ↔ HasRightChecksum fragment.now }
{
    let sum = mask_crc(crc32(&fragment[6..])).to_le_bytes();
    fragment[..4] == sum[..]
}

// Makes the bytes `size` many, if they are fewer.
fn make_long(bytes: &mut Vec<u8>, size: usize) -> Result<()>
    requires { vec_len bytes.old ≤ size }
    ensures long { OnOk result (vec_len bytes.new ≡ size) }
    ensures kept { (n : ℕ) → n ≤ vec_len bytes.old
        → take n bytes.new.items ≡ take n bytes.old.items }
    ensures most { vec_len bytes.old ≤ vec_len bytes.new × (vec_len bytes.new ≤ size) }
    ensures cause { IfErr result IsOutOfMemory }
{
    if bytes.len() < size {
        bytes.resize(size, 0)?;
    }
    Ok(())
}

// Reads into the target, after the `there` bytes that it has, until it has `needed` or the source
// is at its end. Returns how many it has.
fn draw<S: Source>(source: &mut S, target: &mut [u8], there: usize, needed: usize) -> Result<usize>
    requires there { there ≤ length target.old }
    requires fits { needed ≤ length target.old }
    ensures kept { take there target.new ≡ take there target.old }
    ensures ok { IfOk result (λ count. there ≤ count × (count ≤ length target.new)) }
    ensures enough { IfOk result (λ count. needed ≤ count
        → GivesSome S.gives source.old (slice_range target.new there count) source.new) }
    ensures short { IfOk result (λ count. count < needed
        → GivesAll S.gives source.old (slice_range target.new there count) source.new) }
    ensures err { IfErr result (λ status. GivesUp S.gives source.old status source.new) }
{
    let mut count = there;
    while count < needed {
        let size = PIECE_SIZE.min(target.len() - count);
        let more = source.read_some(&mut target[count..count + size])?;
        if more == 0 {
            return Ok(count);
        }
        count += more;
    }
    Ok(count)
}

/// A reader with the source that its log comes from.
#[derive(Drop)]
pub struct LogReader<R: Source> {
    pub core: ReaderCore,
    pub source: R,
}

impl<R: Source> LogReader<R> {
    /// For a log from its start on. Without `check_crcs` any checksum is taken as right.
    pub fn new(alloc: Global, source: R, check_crcs: bool) -> LogReader<R>
        ensures core { result.core ≡ new_reader check_crcs log_block_size }
        ensures source { result.source ≡ source }
    {
        LogReader {
            core: ReaderCore::new(alloc, check_crcs),
            source,
        }
    }

    /// The same, for blocks of `block_size` bytes.
    pub fn sized(alloc: Global, source: R, check_crcs: bool, block_size: usize) -> LogReader<R>
        requires { IsBlockSize block_size }
        ensures core { result.core ≡ new_reader check_crcs block_size }
        ensures source { result.source ≡ source }
    {
        LogReader {
            core: ReaderCore::sized(alloc, check_crcs, block_size),
            source,
        }
    }

    /// Reads the next record into the target and returns its length; 0 if the log ends between two
    /// records. After an error the target is empty. `ReaderCore::read` says more of errors.
    pub fn read(&mut self, target: &mut Vec<u8>) -> Result<usize>
        ensures { ReadResult R.gives self.old.core self.old.source result target.new.items
            self.new.core self.new.source }
    {
        self.core.read(&mut self.source, target)
    }
}

/// The records of all that a source still gives, as a log from its start on, and whether it ends
/// between two of them. After other ends nothing more is read.
pub fn read_records<S: Source>(
    alloc: Global,
    source: &mut S,
    check_crcs: bool,
) -> Result<(Vec<Vec<u8>>, bool)>
    ensures log { IfOk result (λ found. HoldsOfRest S.gives
        (LogOf check_crcs log_block_size (map (λ v. v.items) found.0.items)
        (if found.1 then clean else bad) 0) [] source.old source.new) }
    ensures err { IfErr result (λ status. StopsReading S.gives source.old status source.new) }
{
    let mut core = ReaderCore::new(alloc, check_crcs);
    let mut records = Vec::new(alloc);
    loop {
        let mut record = Vec::new(alloc);
        match core.next_record(source, &mut record)? {
            Found::Record => records.push(record)?,
            Found::End => return Ok((records, true)),
            Found::WrongChecksum => return Ok((records, false)),
            Found::Damage(_) => return Ok((records, false)),
        }
    }
}
