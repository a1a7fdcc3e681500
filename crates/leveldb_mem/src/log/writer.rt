//! The writer of a log: it frames records and puts each into its sink in one piece.
// LevelDB: db/log_writer.cc
ghost use Rattle.std.specs.Prelude.{◌≡◌, ◌≢◌, ◌%◌, ◌<◌, ◌≤◌, ◌++◌, true, false, [], length, OnOk};
ghost use Rattle.std.specs.Prelude.{IfErr, IsErrAnd};
ghost use Rattle.leveldb_base.specs.Error.{IsOutOfMemory};
ghost use Rattle.leveldb_mem.specs.Log.{IsBlockSize, log_block_size, filler, room, checksum};
ghost use Rattle.leveldb_mem.specs.Log.{fragment_bytes, fragment_at, framed_record, fragment_of};
ghost use Rattle.leveldb_mem.specs.Log.Writer.{IsWriterBroken, AddRecordResult, FlushResult, broken_writer, new_writer};

use super::{BLOCK_SIZE, HEADER_SIZE, type_of};
use leveldb_base::crc::{digest, mask_crc};
use leveldb_base::error::{Result, StatusCode, err};
use leveldb_env::env::Sink;
use std::alloc::Global;
use std::marker::Model;

/// What a writer knows of its log, without the sink that the log goes to: each call is given that.
#[derive(Drop)]
pub struct WriterCore {
    block_size: usize,
    // the offset in its block of what is written next
    offset: usize,
    // whether its sink has failed
    broken: bool,
    // the framing of one record
    frame: Vec<u8>,
}

impl Model for WriterCore {
    ghost use Rattle.std.specs.Prelude.{◌<◌};
    ghost use Rattle.leveldb_mem.specs.Log.{IsBlockSize};
    ghost use Rattle.leveldb_mem.specs.Log.Writer.{WriterState};

    ghost Value = { WriterState };

    ghost view = { λ core.
        record { size = core.block_size; offset = core.offset; broken = core.broken } };

    ghost invariant = { λ core. IsBlockSize core.block_size × (core.offset < core.block_size) };
}

impl WriterCore {
    /// For a log that begins with what is written.
    pub fn new(alloc: Global) -> WriterCore
        ensures { result ≡ new_writer log_block_size 0 }
    {
        WriterCore::new_with_off(alloc, 0)
    }

    /// For a log that has `off` bytes.
    pub fn new_with_off(alloc: Global, off: usize) -> WriterCore
        ensures { result ≡ new_writer log_block_size (off % log_block_size) }
    {
        WriterCore {
            block_size: BLOCK_SIZE,
            offset: off % BLOCK_SIZE,
            broken: false,
            frame: Vec::new(alloc),
        }
    }

    /// For a log that is never written: it is broken from the start.
    pub fn broken(alloc: Global) -> WriterCore
        ensures { result ≡ broken_writer (new_writer log_block_size 0) }
    {
        WriterCore {
            block_size: BLOCK_SIZE,
            offset: 0,
            broken: true,
            frame: Vec::new(alloc),
        }
    }

    /// For a log that begins with what is written, in blocks of `block_size` bytes.
    pub fn sized(alloc: Global, block_size: usize) -> WriterCore
        requires { IsBlockSize block_size }
        ensures { result ≡ new_writer block_size 0 }
    {
        WriterCore {
            block_size,
            offset: 0,
            broken: false,
            frame: Vec::new(alloc),
        }
    }

    /// Frames a record and puts it into the sink. Returns the length of the framing.
    /// An empty record puts nothing. After an error of the sink every call is `IOError`.
    pub fn add_record<S: Sink>(&mut self, sink: &mut S, text: &[u8]) -> Result<usize>
        ensures { AddRecordResult S.puts self.old sink.old text.now result self.new sink.new }
    {
        self.check_unbroken()?;
        if text.is_empty() {
            return Ok(0);
        }
        self.frame.clear();
        put_framing(&mut self.frame, self.block_size, self.offset, text)?;
        let count = self.frame.len();
        let offset = (self.offset + count) % self.block_size;
        match sink.put_all(&self.frame) {
            Ok(()) => {
                self.offset = offset;
                Ok(count)
            }
            Err(status) => {
                self.broken = true;
                Err(status)
            }
        }
    }

    /// Flushes the sink.
    pub fn flush<S: Sink>(&mut self, sink: &mut S) -> Result<()>
        ensures { FlushResult S.flushes self.old sink.old result self.new sink.new }
    {
        self.check_unbroken()?;
        let flushed = sink.flush();
        if flushed.is_err() {
            self.broken = true;
        }
        flushed
    }

    /// Returns whether a call of the sink has failed.
    pub fn is_broken(&self) -> bool
        ensures { result ≡ self.now.broken }
    {
        self.broken
    }

    fn check_unbroken(&self) -> Result<()>
        ensures ok { OnOk result (self.now.broken ≡ false) }
        ensures err { IfErr result (λ status. (self.now.broken ≡ true) × IsWriterBroken status) }
    {
        if self.broken {
            return refuse_write(*self.frame.allocator());
        }
        Ok(())
    }
}

// The error of each call once one has failed.
pub(super) fn refuse_write<T>(alloc: Global) -> Result<T>
    ensures { IsErrAnd result IsWriterBroken }
{
    err(alloc, StatusCode::IOError, "reopen the store")
}

// Appends the framing of a record at this offset.
fn put_framing(dst: &mut Vec<u8>, block_size: usize, offset: usize, text: &[u8]) -> Result<()>
    requires size { IsBlockSize block_size }
    requires inside { offset < block_size }
    requires some { text.now ≢ [] }
    ensures ok { OnOk result
        (dst.new.items ≡ dst.old.items ++ framed_record block_size text.now offset) }
    ensures cause { IfErr result IsOutOfMemory }
{
    let mut offset = offset;
    let mut first = true;
    let mut rest = text;
    while rest.len() > room(block_size, offset) {
        let (part, others) = rest.split_at(room(block_size, offset));
        put_fragment(dst, block_size, offset, type_of(first, false), part)?;
        offset = 0;
        first = false;
        rest = others;
    }
    put_fragment(dst, block_size, offset, type_of(first, true), rest)
}

// Appends filler, where the fragment needs it, and the fragment.
fn put_fragment(
    dst: &mut Vec<u8>,
    block_size: usize,
    offset: usize,
    kind: u8,
    part: &[u8],
) -> Result<()>
    requires size { IsBlockSize block_size }
    requires inside { offset < block_size }
    requires fits { length part.now ≤ room block_size offset }
    ensures ok { OnOk result (dst.new.items
        ≡ dst.old.items ++ fragment_at block_size (fragment_of kind part.now) offset) }
    ensures cause { IfErr result IsOutOfMemory }
{
    put_filler(dst, block_size, offset)?;
    dst.extend_from_slice(&header_of(kind, part))?;
    dst.extend_from_slice(part)?;
    Ok(())
}

// Appends zeros up to the block's end where no header fits.
fn put_filler(dst: &mut Vec<u8>, block_size: usize, offset: usize) -> Result<()>
    requires size { IsBlockSize block_size }
    requires inside { offset < block_size }
    ensures ok { OnOk result (dst.new.items ≡ dst.old.items ++ filler block_size offset) }
    ensures cause { IfErr result IsOutOfMemory }
{
    let space = block_size - offset;
    if space < HEADER_SIZE {
        dst.extend_from_slice(&[0; HEADER_SIZE][..space])?;
    }
    Ok(())
}

// The header of a fragment.
fn header_of(kind: u8, part: &[u8]) -> [u8; HEADER_SIZE]
    requires { length part.now < 65536 }
    ensures { let fragment = fragment_of kind part.now in
        result ++ part.now ≡ fragment_bytes (checksum fragment) fragment }
{
    let mut digest = digest();
    digest.update(&[kind]);
    digest.update(part);
    let [a, b, c, d] = mask_crc(digest.finalize()).to_le_bytes();
    let [low, high] = (part.len() as u16).to_le_bytes();
    [a, b, c, d, low, high, kind]
}

// The most data that the next fragment can have.
#[inline]
fn room(block_size: usize, offset: usize) -> usize
    requires size { IsBlockSize block_size }
    requires inside { offset < block_size }
    ensures { result ≡ room block_size offset }
{
    let space = block_size - offset;
    if space < HEADER_SIZE {
        block_size - HEADER_SIZE
    } else {
        space - HEADER_SIZE
    }
}

/// A writer with the sink that its log goes to.
#[derive(Drop)]
pub struct LogWriter<W: Sink> {
    pub core: WriterCore,
    pub sink: W,
}

impl<W: Sink> LogWriter<W> {
    /// For a log that begins with what is written.
    pub fn new(alloc: Global, sink: W) -> LogWriter<W>
        ensures core { result.core ≡ new_writer log_block_size 0 }
        ensures sink { result.sink ≡ sink }
    {
        LogWriter {
            core: WriterCore::new(alloc),
            sink,
        }
    }

    /// For a log that has `off` bytes.
    pub fn new_with_off(alloc: Global, sink: W, off: usize) -> LogWriter<W>
        ensures core { result.core ≡ new_writer log_block_size (off % log_block_size) }
        ensures sink { result.sink ≡ sink }
    {
        LogWriter {
            core: WriterCore::new_with_off(alloc, off),
            sink,
        }
    }

    /// For a log that begins with what is written, in blocks of `block_size` bytes.
    pub fn sized(alloc: Global, sink: W, block_size: usize) -> LogWriter<W>
        requires { IsBlockSize block_size }
        ensures core { result.core ≡ new_writer block_size 0 }
        ensures sink { result.sink ≡ sink }
    {
        LogWriter {
            core: WriterCore::sized(alloc, block_size),
            sink,
        }
    }

    /// Frames a record and puts it into the sink. Returns the length of the framing.
    /// An empty record puts nothing. After an error of the sink every call is `IOError`.
    pub fn add_record(&mut self, text: &[u8]) -> Result<usize>
        ensures { AddRecordResult W.puts self.old.core self.old.sink text.now
            result self.new.core self.new.sink }
    {
        self.core.add_record(&mut self.sink, text)
    }

    /// Flushes the sink.
    pub fn flush(&mut self) -> Result<()>
        ensures { FlushResult W.flushes self.old.core self.old.sink
            result self.new.core self.new.sink }
    {
        self.core.flush(&mut self.sink)
    }
}
