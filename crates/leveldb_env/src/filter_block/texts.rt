//! Texts one after another in one vector, so that all of them can be borrowed at once.
// LevelDB: table/filter_block.h, the keys of FilterBlockBuilder
ghost use Rattle.std.specs.Prelude.{◌≡◌, ◌-◌, ◌≤◌, [], ◌∷◌, ◌++◌, length, replicate, OnOk, OnErr, IfErr};
ghost use Rattle.std.specs.List.{concat};
ghost use Rattle.leveldb_base.specs.Error.{IsOutOfMemory};
ghost use Rattle.leveldb_env.specs.FilterBlock.{offsets_from};

use leveldb_base::error::Result;
use std::alloc::Global;
use std::marker::Model;

/// Texts in order.
#[derive(Drop)]
pub(crate) struct Texts {
    // the texts, one after another
    bytes: Vec<u8>,

    // where each text begins
    offsets: Vec<usize>,
}

impl Model for Texts {
    ghost use Rattle.std.specs.Prelude.{ℕ, List};
    ghost use Rattle.leveldb_env.specs.Filter.{keys_at};
    ghost use Rattle.leveldb_env.specs.FilterBlock.{AreTexts};

    ghost Value = { List (List ℕ) };

    ghost view = { λ it. keys_at it.offsets.items it.bytes.items };

    ghost invariant = { λ it. AreTexts it.bytes.items it.offsets.items
        (keys_at it.offsets.items it.bytes.items) };
}

impl Texts {
    pub(crate) fn new(alloc: Global) -> Texts
        ensures { result ≡ [] }
    {
        Texts {
            bytes: Vec::new(alloc),
            offsets: Vec::new(alloc),
        }
    }

    pub(crate) fn allocator(&self) -> Global {
        *self.bytes.allocator()
    }

    /// How many texts there are.
    #[inline]
    pub(crate) fn len(&self) -> usize
        ensures { result ≡ length self.now }
    {
        self.offsets.len()
    }

    /// The bytes of all texts.
    #[inline]
    pub(crate) fn bytes(&self) -> &[u8]
        ensures { result.now ≡ concat self.now }
    {
        self.bytes.as_slice()
    }

    /// Where each text begins in these bytes.
    #[inline]
    pub(crate) fn offsets(&self) -> &[usize]
        ensures { result.now ≡ offsets_from 0 self.now }
    {
        self.offsets.as_slice()
    }

    /// Appends `count` texts: this one, and then empty ones.
    pub(crate) fn push(&mut self, text: &[u8], count: usize) -> Result<()>
        requires { 1 ≤ count }
        ensures ok { OnOk result (self.new ≡ self.old ++ text.now ∷ replicate (count - 1) []) }
        ensures err { OnErr result (self.new ≡ self.old) }
        ensures cause { IfErr result IsOutOfMemory }
    {
        let begin = self.bytes.len();
        self.offsets.reserve(count)?;
        self.bytes.extend_from_slice(text)?;
        let total = self.offsets.len() + count;
        self.offsets.push(begin).unwrap();
        self.offsets.resize(total, self.bytes.len()).unwrap();
        Ok(())
    }

    /// Takes all texts out.
    pub(crate) fn clear(&mut self)
        ensures { self.new ≡ [] }
    {
        self.bytes.clear();
        self.offsets.clear();
    }

    /// The bytes of all texts, and where each begins in them.
    pub(crate) fn into_parts(self) -> (Vec<u8>, Vec<usize>)
        ensures bytes { result.0.items ≡ concat self }
        ensures offsets { result.1.items ≡ offsets_from 0 self }
    {
        (self.bytes, self.offsets)
    }
}
