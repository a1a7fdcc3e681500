//! The order of bytes, eight of them at a time.
// LevelDB: include/leveldb/slice.h, Slice::compare
ghost use Rattle.std.specs.Prelude.{◌≡◌};
ghost use Rattle.leveldb_base.specs.Cmp.{bytewise};

use byteorder::{BigEndian, ByteOrder};
use std::cmp::Ordering;

const WORD: usize = 8;

// Compares keys by their bytes. Where both have a whole word, it is compared as a number.
#[inline]
pub(crate) fn cmp_by_words(a: &[u8], b: &[u8]) -> Ordering
    ensures { result ≡ bytewise a.now b.now }
{
    let words = a.len().min(b.len()) / WORD;
    for i in 0..words {
        let x = BigEndian::read_u64(&a[i * WORD..]);
        let y = BigEndian::read_u64(&b[i * WORD..]);
        if x != y {
            return x.cmp(&y);
        }
    }
    cmp_by_bytes(&a[words * WORD..], &b[words * WORD..])
}

#[inline]
fn cmp_by_bytes(a: &[u8], b: &[u8]) -> Ordering
    ensures { result ≡ bytewise a.now b.now }
{
    for i in 0..a.len().min(b.len()) {
        if a[i] != b[i] {
            return a[i].cmp(&b[i]);
        }
    }
    a.len().cmp(&b.len())
}
