//! The records of a log's file, read block by block, with what is damaged between them.
// LevelDB: db/dumpfile.cc, PrintLogContents
ghost use Rattle.std.specs.Prelude.{◌≡◌, ◌≤◌, ◌<◌, ◌+◌, ◌⊎◌, ◌^◌, IfErr, IfOk, length};
ghost use Rattle.leveldb_base.specs.Error.{IsOutOfMemory};
ghost use Rattle.leveldb_base.specs.declared.error.Status.{Status};
ghost use Rattle.leveldb_table.specs.TableBlock.{KeepsDisk};

use crate::fragments::{Front, front_at, next_whole};
use leveldb_base::error::{Result, Status};
use leveldb_env::env::Env;
use leveldb_mem::log::{BLOCK_SIZE, HEADER_SIZE};
use std::alloc::Global;

/// What is done with the records of a log, in the order in which they come.
pub(crate) trait Records {
    /// The errors of its calls.
    ghost fails: { Status → Type 0 };

    /// A record, whose first fragment is at this offset.
    fn record(&mut self, offset: usize, bytes: &[u8]) -> Result<()>
        ensures cause { IfErr result fails };

    /// At this offset is no whole fragment, or one that can't come there. Where `is_torn`, a crash
    /// may leave that at a log's end.
    fn damage(&mut self, offset: usize, reason: &str, is_torn: bool) -> Result<()>
        ensures cause { IfErr result fails };

    /// The file can't be read from this offset on.
    fn failure(&mut self, offset: usize, status: &Status) -> Result<()>
        ensures cause { IfErr result fails };
}

// Joins the fragments of a log to records.
#[derive(Drop)]
struct Joiner<'a, V: Records> {
    records: &'a mut V,
    // the parts so far of a record that has begun, and where it begins
    parts: Vec<u8>,
    start: usize,
    is_open: bool,
    // whether nothing whole has come since the last damage
    is_lost: bool,
}

impl<V: Records> Joiner<'_, V> {
    // Takes all fragments of a block that begins at this offset of the file.
    fn take_block(&mut self, block: &[u8], base: usize) -> Result<()>
        requires block { length block.now ≤ 32768 }
        requires fits { base + length block.now < 2 ^ 64 }
        ensures cause { IfErr result (λ status. IsOutOfMemory status ⊎ V.fails status) }
    {
        let mut at = 0;
        while at < block.len() {
            at = self.take_front(block, at, base)?;
        }
        Ok(())
    }

    // Takes what comes at an offset of a block. Returns where the next fragment may begin.
    fn take_front(&mut self, block: &[u8], at: usize, base: usize) -> Result<usize>
        requires within { at < length block.now }
        requires block { length block.now ≤ 32768 }
        requires fits { base + length block.now < 2 ^ 64 }
        ensures later { IfOk result (λ next. at < next) }
        ensures within { IfOk result (λ next. next ≤ length block.now) }
        ensures cause { IfErr result (λ status. IsOutOfMemory status ⊎ V.fails status) }
    {
        let (reason, is_torn) = match front_at(block, at) {
            Front::End => return Ok(block.len()),
            Front::Whole(kind, count) => {
                let data = &block[at + HEADER_SIZE..at + count];
                self.take_fragment(kind, data, base + at)?;
                return Ok(at + count);
            }
            Front::Torn(reason) => (reason, true),
            Front::Bad(reason) => (reason, false),
        };
        self.tell_damage(base + at, reason, is_torn)?;
        Ok(next_whole(block, at + 1).unwrap_or(block.len()))
    }

    // Takes a whole fragment.
    fn take_fragment(&mut self, kind: u8, data: &[u8], offset: usize) -> Result<()>
        ensures cause { IfErr result (λ status. IsOutOfMemory status ⊎ V.fails status) }
    {
        match kind {
            1 | 2 => self.begin(kind == 1, data, offset),
            3 | 4 if self.is_open => self.go_on(kind == 4, data),
            3 | 4 => self.tell_damage(offset, "record without its first part", false),
            _ => self.tell_damage(offset, "unknown record type", false),
        }
    }

    // Takes the first fragment of a record, which may be the whole of it.
    fn begin(&mut self, is_whole: bool, data: &[u8], offset: usize) -> Result<()>
        ensures cause { IfErr result (λ status. IsOutOfMemory status ⊎ V.fails status) }
    {
        if self.is_open {
            self.tell_damage(self.start, "record without its last part", false)?;
        }
        self.is_lost = false;
        if is_whole {
            return self.records.record(offset, data);
        }
        self.parts.clear();
        self.parts.extend_from_slice(data)?;
        self.start = offset;
        self.is_open = true;
        Ok(())
    }

    // Takes another fragment of the record that has begun.
    fn go_on(&mut self, is_last: bool, data: &[u8]) -> Result<()>
        ensures cause { IfErr result (λ status. IsOutOfMemory status ⊎ V.fails status) }
    {
        self.parts.extend_from_slice(data)?;
        if is_last {
            self.is_open = false;
            return self.records.record(self.start, &self.parts);
        }
        Ok(())
    }

    // Tells of damage once, up to where something whole comes again. The record that has begun is
    // lost.
    fn tell_damage(&mut self, offset: usize, reason: &str, is_torn: bool) -> Result<()>
        ensures cause { IfErr result (λ status. IsOutOfMemory status ⊎ V.fails status) }
    {
        self.is_open = false;
        if self.is_lost && is_torn {
            return Ok(());
        }
        self.is_lost = true;
        self.records.damage(offset, reason, is_torn)
    }

    // Tells of a record that has begun where the file ends.
    fn finish(&mut self) -> Result<()>
        ensures cause { IfErr result (λ status. IsOutOfMemory status ⊎ V.fails status) }
    {
        if self.is_open {
            return self.tell_damage(self.start, "record cut short", true);
        }
        Ok(())
    }
}

/// Reads an open log from its start on, a block at a time: it takes memory for a block and for one
/// record. After damage it goes on where something whole begins again.
pub(crate) fn read_records<E: Env, V: Records>(
    alloc: Global,
    env: &mut E,
    file: &E::File,
    records: &mut V,
) -> Result<()>
    ensures keeps { KeepsDisk E.Env env.old env.new }
    ensures cause { IfErr result (λ status. IsOutOfMemory status ⊎ V.fails status) }
{
    let mut block = [0; BLOCK_SIZE];
    let mut joiner = Joiner {
        records,
        parts: Vec::new(alloc),
        start: 0,
        is_open: false,
        is_lost: false,
    };
    let mut base = 0usize;
    for _ in 0..u64::MAX {
        let Some(next) = base.checked_add(BLOCK_SIZE) else {
            break;
        };
        let count = match read_full(env, file, base, &mut block) {
            Ok(count) => count,
            Err(status) => return joiner.records.failure(base, &status),
        };
        joiner.take_block(&block[..count], base)?;
        if count < BLOCK_SIZE {
            break;
        }
        base = next;
    }
    joiner.finish()
}

/// Reads the bytes of a file from an offset on, until the target is full or the file ends. Returns
/// how many came.
pub(crate) fn read_full<E: Env>(
    env: &mut E,
    file: &E::File,
    offset: usize,
    target: &mut [u8],
) -> Result<usize>
    requires { offset + length target.old < 2 ^ 64 }
    ensures keeps { KeepsDisk E.Env env.old env.new }
    ensures fits { IfOk result (λ count. count ≤ length target.new) }
    ensures length { length target.new ≡ length target.old }
{
    let mut count = 0;
    while count < target.len() {
        let came = env.read_at(file, offset + count, &mut target[count..])?;
        if came == 0 {
            break;
        }
        count += came;
    }
    Ok(count)
}
