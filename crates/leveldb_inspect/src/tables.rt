//! The tables of a store as text.
// LevelDB: db/dumpfile.cc, DumpTable
ghost use Rattle.std.specs.Prelude.{◌≡◌, None, IfErr, IfSome};
ghost use Rattle.leveldb_table.specs.TableBlock.{KeepsDisk};
ghost use Rattle.leveldb_inspect.specs.Inspect.{IsOutputError};

use crate::keys::key_parts;
use crate::lines::Lines;
use crate::records::read_full;
use leveldb_base::blockhandle::BlockHandle;
use leveldb_base::cmp::{Cmp, DefaultCmp, InternalKeyCmp};
use leveldb_base::error::{Result, Status, StatusCode, err};
use leveldb_base::types::LdbIterator;
use leveldb_env::compressor::{CompressorList, Compressors};
use leveldb_env::env::{Env, Sink};
use leveldb_env::filter::NoFilterPolicy;
use leveldb_table::block::Block;
use leveldb_table::table_block::{read_filter_block, read_table_block};
use leveldb_table::table_builder::{FULL_FOOTER_LENGTH, Footer};
use std::alloc::Global;

/// What is printed of a table. What is damaged always is.
#[derive(Clone, Copy, Debug, PartialEq, Eq)]
pub(crate) enum Shown {
    /// Its pairs.
    Pairs,
    /// Its pairs, and before them its footer, its metaindex and each block.
    Blocks,
    /// Nothing: all of it is read, to find what is damaged.
    Nothing,
}

// A table's file that is open.
#[derive(Drop)]
struct TableFile<'a, E: Env> {
    alloc: Global,
    name: &'a str,
    file: E::File,
    footer: Footer,
    compressors: &'a CompressorList,
    shown: Shown,
}

/// Prints a table, a block at a time. After a block that is damaged, or that none of the
/// compressors decodes, it goes on with the next.
pub(crate) fn print_table<E: Env, O: Sink>(
    alloc: Global,
    env: &mut E,
    compressors: &CompressorList,
    lines: &mut Lines<O>,
    name: &str,
    shown: Shown,
) -> Result<()>
    ensures keeps { KeepsDisk E.Env env.old env.new }
    ensures cause { IfErr result (IsOutputError O.Sink) }
{
    let table = match open(alloc, env, compressors, name, shown) {
        Ok(table) => table,
        Err(status) => return lines.failure(name, &status),
    };
    if shown != Shown::Pairs {
        table.print_footer(lines)?;
        table.print_metas(env, lines)?;
    }
    table.print_blocks(env, lines)
}

// Opens a table's file, and reads its footer.
fn open<'a, E: Env>(
    alloc: Global,
    env: &mut E,
    compressors: &'a CompressorList,
    name: &'a str,
    shown: Shown,
) -> Result<TableFile<'a, E>>
    ensures keeps { KeepsDisk E.Env env.old env.new }
{
    let size = env.size_of(name)?;
    let file = env.open_random_access_file(name)?;
    let footer = read_footer(alloc, env, &file, size)?;
    Ok(TableFile {
        alloc,
        name,
        file,
        footer,
        compressors,
        shown,
    })
}

// The footer of a file of this size.
fn read_footer<E: Env>(alloc: Global, env: &mut E, file: &E::File, size: usize) -> Result<Footer>
    ensures keeps { KeepsDisk E.Env env.old env.new }
{
    let Some(offset) = size.checked_sub(FULL_FOOTER_LENGTH) else {
        return err(alloc, StatusCode::Corruption, "too short for a footer");
    };
    let mut bytes = [0; FULL_FOOTER_LENGTH];
    read_full(env, file, offset, &mut bytes)?;
    match Footer::decode(&bytes) {
        Some(footer) => Ok(footer),
        None => err(
            alloc,
            StatusCode::Corruption,
            "no footer: no magic number, or bad handles",
        ),
    }
}

impl<E: Env> TableFile<'_, E> {
    // Prints the footer.
    fn print_footer<O: Sink>(&self, lines: &mut Lines<O>) -> Result<()>
        ensures cause { IfErr result (IsOutputError O.Sink) }
    {
        self.print_handle(lines, "metaindex", self.footer.meta_index)?;
        self.print_handle(lines, "index", self.footer.index)
    }

    // Prints where a block is, and its size.
    fn print_handle<O: Sink>(
        &self,
        lines: &mut Lines<O>,
        part: &str,
        handle: BlockHandle,
    ) -> Result<()>
        ensures cause { IfErr result (IsOutputError O.Sink) }
    {
        if self.shown != Shown::Blocks {
            return Ok(());
        }
        lines.text(part)?;
        lines.text(" at ")?;
        lines.number(handle.offset() as u64)?;
        lines.text(", ")?;
        lines.number(handle.size() as u64)?;
        lines.text(" bytes")?;
        lines.end()
    }

    // Reads the metaindex, and the filters that it names.
    fn print_metas<O: Sink>(&self, env: &mut E, lines: &mut Lines<O>) -> Result<()>
        ensures keeps { KeepsDisk E.Env env.old env.new }
        ensures cause { IfErr result (IsOutputError O.Sink) }
    {
        let handle = self.footer.meta_index;
        let metas = match self.read_block(env, DefaultCmp, handle) {
            Ok(block) => block,
            Err(status) => return self.print_unread(env, lines, handle, &status),
        };
        let mut walk = metas.iter(self.alloc);
        for _ in 0..u64::MAX {
            if !walk.advance()? {
                break;
            }
            let Some((key, value)) = walk.current() else {
                break;
            };
            self.print_meta(env, lines, key, value)?;
        }
        Ok(())
    }

    // Prints a line of the metaindex, and how many filters it names.
    fn print_meta<O: Sink>(
        &self,
        env: &mut E,
        lines: &mut Lines<O>,
        key: &[u8],
        value: &[u8],
    ) -> Result<()>
        ensures keeps { KeepsDisk E.Env env.old env.new }
        ensures cause { IfErr result (IsOutputError O.Sink) }
    {
        let Some((handle, _)) = BlockHandle::decode(value) else {
            return lines.fault(self.name, "the metaindex has a value that is no handle");
        };
        if !key.starts_with(b"filter.") || handle.size() == 0 {
            return Ok(());
        }
        match read_filter_block(self.alloc, NoFilterPolicy, env, &self.file, handle) {
            Ok(filters) => self.print_filters(lines, key, handle, filters.num()),
            Err(status) => lines.failure(self.name, &status),
        }
    }

    // Prints how many filters there are under a key.
    fn print_filters<O: Sink>(
        &self,
        lines: &mut Lines<O>,
        key: &[u8],
        handle: BlockHandle,
        count: usize,
    ) -> Result<()>
        ensures cause { IfErr result (IsOutputError O.Sink) }
    {
        if self.shown != Shown::Blocks {
            return Ok(());
        }
        lines.quoted(key)?;
        lines.text(": ")?;
        lines.number(count as u64)?;
        lines.text(" filters, ")?;
        self.print_handle(lines, "a block", handle)
    }

    // Prints the blocks that the index names, one after another.
    fn print_blocks<O: Sink>(&self, env: &mut E, lines: &mut Lines<O>) -> Result<()>
        ensures keeps { KeepsDisk E.Env env.old env.new }
        ensures cause { IfErr result (IsOutputError O.Sink) }
    {
        let handle = self.footer.index;
        let index = match self.read_block(env, InternalKeyCmp(DefaultCmp), handle) {
            Ok(block) => block,
            Err(status) => return self.print_unread(env, lines, handle, &status),
        };
        let mut walk = index.iter(self.alloc);
        for _ in 0..u64::MAX {
            if !walk.advance()? {
                break;
            }
            let Some((_, value)) = walk.current() else {
                break;
            };
            self.print_block(env, lines, value)?;
        }
        Ok(())
    }

    // Prints the block at the handle that this is a value of the index for.
    fn print_block<O: Sink>(&self, env: &mut E, lines: &mut Lines<O>, value: &[u8]) -> Result<()>
        ensures keeps { KeepsDisk E.Env env.old env.new }
        ensures cause { IfErr result (IsOutputError O.Sink) }
    {
        let Some((handle, _)) = BlockHandle::decode(value) else {
            return lines.fault(self.name, "the index has a value that is no handle");
        };
        self.print_handle(lines, "block", handle)?;
        match self.read_block(env, InternalKeyCmp(DefaultCmp), handle) {
            Ok(block) => self.print_pairs(lines, &block),
            Err(status) => self.print_unread(env, lines, handle, &status),
        }
    }

    // Prints why the block at a handle wasn't read.
    fn print_unread<O: Sink>(
        &self,
        env: &mut E,
        lines: &mut Lines<O>,
        handle: BlockHandle,
        status: &Status,
    ) -> Result<()>
        ensures keeps { KeepsDisk E.Env env.old env.new }
        ensures cause { IfErr result (IsOutputError O.Sink) }
    {
        if status.code == StatusCode::NotSupported {
            if let Some(id) = self.unset_id(env, handle) {
                return print_unset(lines, self.name, id);
            }
        }
        lines.failure(self.name, status)
    }

    // The id under which the block at a handle is stored, where it has no compressor.
    fn unset_id(&self, env: &mut E, handle: BlockHandle) -> Option<u8>
        ensures keeps { KeepsDisk E.Env env.old env.new }
        ensures unset { IfSome result (λ id.
            ⟦<CompressorList as Compressors>⟧.codings self.now.compressors.now id ≡ None) }
    {
        let after = handle.offset().checked_add(handle.size())?.checked_add(1)?;
        let mut id = [0];
        match read_full(env, &self.file, after - 1, &mut id) {
            Ok(1) if !self.compressors.is_set(id[0]) => Some(id[0]),
            _ => None,
        }
    }

    // The block at a handle.
    fn read_block<C: Cmp + Drop>(
        &self,
        env: &mut E,
        cmp: C,
        handle: BlockHandle,
    ) -> Result<Block<C>>
        ensures keeps { KeepsDisk E.Env env.old env.new }
    {
        read_table_block(self.alloc, cmp, env, &self.file, self.compressors, handle)
    }

    // Prints the pairs of a block.
    fn print_pairs<O: Sink, C: Cmp + Drop>(
        &self,
        lines: &mut Lines<O>,
        block: &Block<C>,
    ) -> Result<()>
        ensures cause { IfErr result (IsOutputError O.Sink) }
    {
        if self.shown == Shown::Nothing {
            return Ok(());
        }
        let mut walk = block.iter(self.alloc);
        for _ in 0..u64::MAX {
            if !walk.advance()? {
                break;
            }
            let Some((key, value)) = walk.current() else {
                break;
            };
            print_pair(lines, key, value)?;
        }
        Ok(())
    }
}

// Prints that a block of this file is stored under an id that has no compressor.
fn print_unset<O: Sink>(lines: &mut Lines<O>, name: &str, id: u8) -> Result<()>
    ensures cause { IfErr result (IsOutputError O.Sink) }
{
    lines.begin_fault(name)?;
    lines.text("a block is compressed by ")?;
    lines.text(match id {
        1 => "Snappy",
        2 => "Zstandard",
        _ => "another compressor",
    })?;
    lines.text(" (id ")?;
    lines.number(u64::from(id))?;
    lines.text("), which this program doesn't have")?;
    lines.end()
}

// Prints a pair as `'key' @ 7 : val => 'value'`.
fn print_pair<O: Sink>(lines: &mut Lines<O>, key: &[u8], value: &[u8]) -> Result<()>
    ensures cause { IfErr result (IsOutputError O.Sink) }
{
    match key_parts(key) {
        None => {
            lines.text("badkey ")?;
            lines.quoted(key)?;
        }
        Some(parts) => {
            lines.quoted(parts.user)?;
            lines.text(" @ ")?;
            lines.number(parts.sequence)?;
            lines.text(if parts.is_deletion {
                " : del"
            } else {
                " : val"
            })?;
        }
    }
    lines.text(" => ")?;
    lines.quoted(value)?;
    lines.end()
}
