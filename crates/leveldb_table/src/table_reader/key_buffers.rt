//! The keys of look-ups in tables, kept from one look-up to the next.
ghost use Rattle.std.specs.Prelude.{◌≡◌, []};

use std::alloc::Global;
use std::marker::Model;
use std::mem;

/// Where look-ups in tables keep their keys: one that is used again takes no memory for them. Its
/// value is the key of the pair that was found last.
#[derive(Drop)]
pub struct KeyBuffers {
    // the room for the key of a line of an index
    line_key: Vec<u8>,
    key: Vec<u8>,
}

impl Model for KeyBuffers {
    ghost use Rattle.std.specs.Prelude.{ℕ, List};

    ghost Value = { List ℕ };

    ghost view = { λ key_buffers. key_buffers.key.items };
}

impl KeyBuffers {
    /// A finder that has found nothing. It takes no memory yet.
    pub fn new(alloc: Global) -> KeyBuffers
        ensures { result ≡ [] }
    {
        KeyBuffers {
            line_key: Vec::new(alloc),
            key: Vec::new(alloc),
        }
    }

    /// The key of the pair that was found last. After a look-up that found no pair or failed it is
    /// of no use.
    pub fn key(&self) -> &[u8]
        ensures { result.now ≡ self.now }
    {
        self.key.as_slice()
    }

    /// The key's bytes.
    pub fn into_key(self) -> Vec<u8>
        ensures { result.items ≡ self }
    {
        self.key
    }

    /// Takes the room for the key of an index's line and for the key of a pair. The finder has none
    /// then.
    pub(crate) fn take_room(&mut self, alloc: Global) -> (Vec<u8>, Vec<u8>)
        ensures key { result.1.items ≡ self.old }
        ensures none { self.new ≡ [] }
    {
        let KeyBuffers { line_key, key } = mem::replace(self, KeyBuffers::new(alloc));
        (line_key, key)
    }

    /// Keeps the room for the key of an index's line, and the key of the pair that was found.
    pub(crate) fn keep(&mut self, line_key: Vec<u8>, key: Vec<u8>)
        ensures { self.new ≡ key.items }
    {
        *self = KeyBuffers { line_key, key };
    }
}
