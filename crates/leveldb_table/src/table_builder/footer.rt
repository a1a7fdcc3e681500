//! The footer, a table's last bytes, which say where its metaindex and its index are.
// LevelDB: table/format.cc, Footer
ghost use Rattle.std.specs.Prelude.{◌≡◌, ◌+◌, ◌≤◌, ◌++◌, Option, Some, length, drop, IsTrue, ◌↔◌, replicate};
ghost use Rattle.leveldb_table.specs.Footer.{footer_bytes, ReadsFooter};
ghost use Rattle.leveldb_table.specs.declared.table_builder.footer.Footer.{Footer};

use leveldb_base::blockhandle::BlockHandle;

/// How many bytes of a footer the handles and the filler have.
pub const FOOTER_LENGTH: usize = 40;

/// How many bytes a footer has.
pub const FULL_FOOTER_LENGTH: usize = FOOTER_LENGTH + 8;

/// The number at the end of each table.
pub const MAGIC_FOOTER_NUMBER: u64 = 0xdb47_7524_8b80_fb57;

/// The eight bytes of that number, the lowest first.
pub const MAGIC_FOOTER_ENCODED: [u8; 8] = [0x57, 0xfb, 0x80, 0x8b, 0x24, 0x75, 0x47, 0xdb];

/// Where a table's metaindex and its index are.
#[derive(Clone, Debug, Drop)]
pub struct Footer {
    pub meta_index: BlockHandle,
    pub index: BlockHandle,
}

impl Footer {
    /// The footer of these two handles.
    pub fn new(meta_index: BlockHandle, index: BlockHandle) -> Footer
        ensures { result ≡ record { meta_index = meta_index; index = index } }
    {
        Footer { meta_index, index }
    }

    /// The footer that these bytes are. `None` for anything else, also where the filler isn't
    /// zeros or another number of bytes is there.
    pub fn decode(from: &[u8]) -> Option<Footer>
        ensures { ReadsFooter from.now result }
    {
        if from.len() != FULL_FOOTER_LENGTH {
            return None;
        }
        let (handles, end) = from.split_at(FOOTER_LENGTH);
        if end != MAGIC_FOOTER_ENCODED.as_slice() {
            return None;
        }
        let (meta_index, first) = BlockHandle::decode(handles)?;
        let (index, second) = BlockHandle::decode(&handles[first..])?;
        if !is_filler(&handles[first + second..]) {
            return None;
        }
        Some(Footer::new(meta_index, index))
    }

    /// Writes the footer over the first 48 bytes of `to`.
    #[tactic(auto, using(leveldb_base::proofs::BlockHandleLemmas::handle_lengths))]
    pub fn encode(&self, to: &mut [u8])
        requires { 48 ≤ length to.old }
        ensures { to.new ≡ footer_bytes self.now.meta_index self.now.index ++ drop 48 to.old }
    {
        let first = self.meta_index.encode_to(to);
        let used = first + self.index.encode_to(&mut to[first..]);
        to[used..FOOTER_LENGTH].fill(0);
        to[FOOTER_LENGTH..FULL_FOOTER_LENGTH].copy_from_slice(&MAGIC_FOOTER_ENCODED);
    }
}

// Whether all bytes are zeros.
fn is_filler(bytes: &[u8]) -> bool
    ensures { IsTrue result ↔ (bytes.now ≡ replicate (length bytes.now) 0) }
{
    bytes.iter().all(|byte| *byte == 0)
}
