//! Compressors: what is stored for a block, and the list of those that a store knows.
// LevelDB: table/format.cc and table/table_builder.cc, where they compress
ghost use Rattle.std.specs.Prelude.{◌≡◌, ◌⊎◌, ℕ, true, false, if◌then◌else◌, [], Option, None, Some, map, length, ◌<◌, ◌≤◌, is_some, option_map, ◌==◌, IfOk, IfErr, IfSome, IfNone, OnOk, OnErr};
ghost use Rattle.std.specs.List.{position_or_len};
ghost use Rattle.leveldb_base.specs.Error.{IsOutOfMemory};
ghost use Rattle.leveldb_env.specs.Compressor.{plain, Coding, IsEncodeError, IsDecodeError, Codings, no_codings, plain_codings, with_coding, SetsCoding, first_coding, listed_items, IsUnset};

use leveldb_base::error::{Result, Status, StatusCode};
use std::alloc::Global;

/// What is stored for a block, and how the block is read from it. What was encoded decodes to the
/// block.
pub trait Compressor: Drop {
    /// The block that stored bytes are decoded to, where there is one, and the codes with which a
    /// block or stored bytes may fail.
    ghost coding: { Self → Coding };

    /// What is to be stored for a block. A compressor may fail for this very block, with a code of
    /// its own.
    fn encode(&self, alloc: Global, block: Vec<u8>) -> Result<Vec<u8>>
        ensures ok { IfOk result
            (λ stored. (coding self.now).decoded stored.items ≡ Some block.items) }
        ensures cause { IfErr result
            (λ status. IsOutOfMemory status
            ⊎ IsEncodeError (coding self.now) block.items status) };

    /// The block that is stored so. An error comes only where there is none, with a code that the
    /// compressor has for these very bytes, or out of memory.
    fn decode(&self, alloc: Global, stored: Vec<u8>) -> Result<Vec<u8>>
        ensures ok { IfOk result
            (λ block. (coding self.now).decoded stored.items ≡ Some block.items) }
        ensures cause { IfErr result
            (λ status. IsOutOfMemory status
            ⊎ IsDecodeError (coding self.now) stored.items status) };
}

/// The id under which a compressor is known.
pub trait CompressorId {
    ghost ID: { ℕ };

    const ID: u8;
}

/// Stores each block as it is.
#[derive(Clone, Copy)]
pub struct NoneCompressor;

impl CompressorId for NoneCompressor {
    ghost ID = { 0 };

    const ID: u8 = 0;
}

impl Compressor for NoneCompressor {
    ghost coding = { λ _. plain };

    fn encode(&self, _alloc: Global, block: Vec<u8>) -> Result<Vec<u8>> {
        Ok(block)
    }

    fn decode(&self, _alloc: Global, stored: Vec<u8>) -> Result<Vec<u8>> {
        Ok(stored)
    }
}

/// A compressor that is borrowed from a list.
#[derive(Drop)]
pub enum ListedCompressor<'a> {
    /// The one that stores blocks as they are.
    Plain(NoneCompressor),
    /// One that was set.
    Boxed(&'a Box<dyn Compressor>),
}

impl Compressor for ListedCompressor<'_> {
    ghost use Rattle.leveldb_env.specs.declared.compressor.ListedCompressor.TheVariants.{Plain, Boxed};

    ghost coding = { elim [
      | Plain _ ↦ plain
      | Boxed compressor ↦
          (Compressor-box compressor.now).coding compressor.now.value
    ] };

    fn encode(&self, alloc: Global, block: Vec<u8>) -> Result<Vec<u8>> {
        match self {
            ListedCompressor::Plain(compressor) => compressor.encode(alloc, block),
            ListedCompressor::Boxed(compressor) => compressor.encode(alloc, block),
        }
    }

    fn decode(&self, alloc: Global, stored: Vec<u8>) -> Result<Vec<u8>> {
        match self {
            ListedCompressor::Plain(compressor) => compressor.decode(alloc, stored),
            ListedCompressor::Boxed(compressor) => compressor.decode(alloc, stored),
        }
    }
}

// A compressor in a box, and its id.
#[derive(Drop)]
struct Listed {
    id: u8,
    compressor: Box<dyn Compressor>,
}

/// Which coding each id has.
pub trait Compressors {
    ghost codings: { Self → Codings };
}

/// The compressors that a store knows, each under its id.
#[derive(Drop)]
pub struct CompressorList {
    // those that were set, one for each id; none where none was
    listed: Option<Vec<Listed>>,

    // whether the id 0, where no compressor is listed for it, stores blocks as they are
    plain: bool,
}

impl Compressors for CompressorList {
    ghost codings = { λ list. first_coding (map
        (λ listed. (listed.id, (Compressor-box listed.compressor).coding listed.compressor.value))
        (listed_items list.listed)) (if list.plain then plain_codings else no_codings) };
}

impl CompressorList {
    /// A list without compressors.
    pub fn new() -> CompressorList
        ensures { ⟦<CompressorList as Compressors>⟧.codings result ≡ no_codings }
    {
        CompressorList {
            listed: None,
            plain: false,
        }
    }

    /// A list where the id 0 stores blocks as they are, and no other is set.
    pub fn default() -> CompressorList
        ensures { ⟦<CompressorList as Compressors>⟧.codings result ≡ plain_codings }
    {
        CompressorList {
            listed: None,
            plain: true,
        }
    }

    /// Sets the compressor of its id, which replaces one that the id had. An error changes nothing.
    pub fn set<I: CompressorId>(
        &mut self,
        alloc: Global,
        compressor: Box<dyn Compressor>,
    ) -> Result<()>
        ensures { SetsCoding I.ID (coding compressor)
            (⟦<CompressorList as Compressors>⟧.codings self.old) result
            (⟦<CompressorList as Compressors>⟧.codings self.new) }
    {
        self.set_with_id(alloc, I::ID, compressor)
    }

    /// Sets the compressor of an id, which replaces one that the id had. An error changes nothing.
    pub fn set_with_id(
        &mut self,
        alloc: Global,
        id: u8,
        compressor: Box<dyn Compressor>,
    ) -> Result<()>
        ensures { SetsCoding id (coding compressor)
            (⟦<CompressorList as Compressors>⟧.codings self.old) result
            (⟦<CompressorList as Compressors>⟧.codings self.new) }
    {
        let Some(listed) = &mut self.listed else {
            let mut listed = Vec::new(alloc);
            listed.push(Listed { id, compressor })?;
            self.listed = Some(listed);
            return Ok(());
        };
        put(listed, id, compressor)
    }

    /// Whether an id has a compressor.
    pub fn is_set(&self, id: u8) -> bool
        ensures { result ≡ is_some (⟦<CompressorList as Compressors>⟧.codings self.now id) }
    {
        self.found(id).is_some()
    }

    /// The compressor of an id; `NotSupported` where it has none.
    pub fn get(&self, alloc: Global, id: u8) -> Result<ListedCompressor<'_>>
        ensures ok { IfOk result
            (λ compressor. ⟦<CompressorList as Compressors>⟧.codings self.now id ≡ Some
            (⟦<ListedCompressor<'static> as Compressor>⟧.coding compressor)) }
        ensures unset { IfErr result
            (λ status. (⟦<CompressorList as Compressors>⟧.codings self.now id ≡ None)
            × IsUnset id status) }
    {
        self.found(id).ok_or_else(|| Status {
            code: StatusCode::NotSupported,
            err: format!(in alloc; "invalid compression id `{id}`").ok(),
        })
    }

    fn listed(&self) -> &[Listed]
        ensures { result.now ≡ listed_items self.now.listed }
    {
        match &self.listed {
            Some(listed) => listed.as_slice(),
            None => &[],
        }
    }

    // The compressor of an id, where it has one.
    fn found(&self, id: u8) -> Option<ListedCompressor<'_>>
        ensures { option_map ⟦<ListedCompressor<'static> as Compressor>⟧.coding result
            ≡ ⟦<CompressorList as Compressors>⟧.codings self.now id }
    {
        let listed = self.listed();
        if let Some(at) = index_of(listed, id) {
            return Some(ListedCompressor::Boxed(&listed[at].compressor));
        }
        if self.plain && id == NoneCompressor::ID {
            return Some(ListedCompressor::Plain(NoneCompressor));
        }
        None
    }
}

// The index of the first compressor with this id.
fn index_of(listed: &[Listed], id: u8) -> Option<usize>
    ensures some { IfSome result
        (λ at. (at < length listed.now)
        × (at ≡ position_or_len (λ listed. listed.id == id) listed.now)) }
    ensures none { IfNone result (length listed.now ≤ position_or_len
        (λ listed. listed.id == id) listed.now) }
{
    for (at, compressor) in listed.iter().enumerate() {
        if compressor.id == id {
            return Some(at);
        }
    }
    None
}

// Replaces the first compressor with this id, or appends this one to the others.
fn put(listed: &mut Vec<Listed>, id: u8, compressor: Box<dyn Compressor>) -> Result<()>
    ensures ok { OnOk result ((otherwise : Codings)
        → first_coding (map (λ l. (l.id, coding l.compressor)) listed.new.items) otherwise
        ≡ with_coding
        (first_coding (map (λ l. (l.id, coding l.compressor)) listed.old.items) otherwise)
        id (coding compressor)) }
    ensures err { OnErr result (listed.new.items ≡ listed.old.items) }
    ensures cause { IfErr result IsOutOfMemory }
{
    if let Some(at) = index_of(listed, id) {
        listed[at].compressor = compressor;
        return Ok(());
    }
    listed.push(Listed { id, compressor })?;
    Ok(())
}
