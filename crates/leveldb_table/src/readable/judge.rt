//! The judge of a file that may be a table.
// LevelDB: db/repair.cc, Repairer::ScanTable
ghost use Rattle.std.specs.Prelude.{◌≡◌, ◌<◌, ◌^◌, length, List, None, IfOk, Contains};
ghost use Rattle.leveldb_base.specs.Types.{Pair};
ghost use Rattle.leveldb_table.specs.Block.{pairs_of};
ghost use Rattle.leveldb_table.specs.BlockCheck.{key_before};
ghost use Rattle.leveldb_table.specs.ReadableTable.{ForFileOf, HasUndecodedBlock, IsNumberedTable, IsUndecodedLine, LineHolds, LinesHold, TestsByMore};
ghost use Rattle.leveldb_table.specs.TableBlock.{IsLackError, ReadsFile};

use crate::block::Block;
use crate::readable::keys::{LineKeys, are_between};
use crate::table_reader::handle_in;
use leveldb_base::cmp::{Cmp, DefaultCmp};
use leveldb_base::error::Result;
use leveldb_base::types::LdbIterator;
use leveldb_env::compressor::{CompressorList, Compressors};
use leveldb_env::env::Env;
use std::alloc::Global;

/// An open file that may be a table, and what it is judged by: the order of its keys, and the
/// compressors of its blocks.
#[derive(Drop)]
pub(crate) struct Judge<'a, E: Env, C: Cmp> {
    pub alloc: Global,
    pub cmp: C,
    pub compressors: &'a CompressorList,
    pub file: E::File,
    /// How many bytes the file has.
    pub size: usize,
}

impl<'a, E: Env, C: Cmp + Copy + Drop> Judge<'a, E, C> {
    /// Whether the file is a table, but for its filters, whose keys all have their tag.
    pub(crate) fn is_table(&self, env: &mut E) -> Result<bool>
        ensures reads { let codings = ⟦<CompressorList as Compressors>⟧.codings
            self.now.compressors.now in ReadsFile E.Env (IsLackError E.Env codings
            (λ bytes status. self.now.size ≡ length bytes
            → HasUndecodedBlock codings (C.cmp self.now.cmp) bytes status) env.old self.now.file)
            env.old env.new result }
        ensures ok { let codings = ⟦<CompressorList as Compressors>⟧.codings
            self.now.compressors.now in IfOk result (λ holds. ForFileOf E.Env env.old
            self.now.file self.now.size (λ bytes. TestsByMore codings (λ Decodes.
            (pairs : List Pair) × IsNumberedTable Decodes (C.accepts self.now.cmp)
            (C.cmp self.now.cmp) bytes pairs) holds)) }
        ensures fits { self.now.size < 2 ^ 64 }
    {
        let Some(footer) = self.footer(env)? else {
            return Ok(false);
        };
        let Some(index) = self.block(env, self.cmp, footer.index)? else {
            return Ok(false);
        };
        if self.block(env, DefaultCmp, footer.meta_index)?.is_none() {
            return Ok(false);
        }
        self.lines_hold(env, &index)
    }

    // Whether each line of the index names a data block, whose keys are between the line before
    // and its own.
    fn lines_hold(&self, env: &mut E, index: &Block<C>) -> Result<bool>
        ensures reads { let codings = ⟦<CompressorList as Compressors>⟧.codings
            self.now.compressors.now in ReadsFile E.Env (IsLackError E.Env codings
            (λ bytes status. self.now.size ≡ length bytes → (line : Pair)
            × Contains (pairs_of None index.now.entries) line
            × IsUndecodedLine codings bytes line.1 status) env.old self.now.file) env.old env.new
            result }
        ensures ok { let codings = ⟦<CompressorList as Compressors>⟧.codings
            self.now.compressors.now in IfOk result (λ holds. ForFileOf E.Env env.old
            self.now.file self.now.size (λ bytes. TestsByMore codings (λ Decodes.
            LinesHold Decodes (C.accepts self.now.cmp) (C.cmp self.now.cmp) bytes None
            (pairs_of None index.now.entries)) holds)) }
    {
        let mut lines = index.iter(self.alloc);
        let mut before = Vec::new(self.alloc);
        let mut first = true;
        lines.seek_to_first()?;
        'lines: while let Some((key, value)) = lines.current() {
            let keys = LineKeys {
                first,
                before: before.as_slice(),
                here: key,
            };
            if !self.line_holds(env, keys, value)? {
                return Ok(false);
            }
            before.clear();
            before.extend_from_slice(key)?;
            first = false;
            lines.advance()?;
        }
        Ok(true)
    }

    // Whether the line of these keys and this value does.
    fn line_holds(&self, env: &mut E, keys: LineKeys<'_>, value: &[u8]) -> Result<bool>
        ensures reads { let codings = ⟦<CompressorList as Compressors>⟧.codings
            self.now.compressors.now in ReadsFile E.Env (IsLackError E.Env codings
            (λ bytes status. self.now.size ≡ length bytes
            → IsUndecodedLine codings bytes value.now status) env.old self.now.file) env.old
            env.new result }
        ensures ok { let codings = ⟦<CompressorList as Compressors>⟧.codings
            self.now.compressors.now in IfOk result (λ holds. ForFileOf E.Env env.old
            self.now.file self.now.size (λ bytes. TestsByMore codings (λ Decodes.
            LineHolds Decodes (C.accepts self.now.cmp) (C.cmp self.now.cmp) bytes
            (key_before keys.entry.first keys.entry.before.now)
            (keys.entry.here.now, value.now)) holds)) }
    {
        let Some(handle) = handle_in(value) else {
            return Ok(false);
        };
        if !self.cmp.accepts(keys.here) {
            return Ok(false);
        }
        let Some(block) = self.block(env, self.cmp, handle)? else {
            return Ok(false);
        };
        are_between(self.alloc, &self.cmp, keys, &block)
    }
}
