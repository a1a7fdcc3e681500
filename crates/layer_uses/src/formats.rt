//! The bytes of each format: an example of LevelDB's documents, or one worked by hand.
use leveldb_base::blockhandle::BlockHandle;
use leveldb_base::error::Result;
use leveldb_base::key_types::{ValueType, build_memtable_key};
use leveldb_base::varint::put_varint64;
use leveldb_env::filter::{BloomPolicy, FilterPolicy};
use leveldb_mem::log::LogWriter;
use leveldb_mem::write_batch::WriteBatch;
use leveldb_table::table_builder::{FULL_FOOTER_LENGTH, Footer};

#[test]
fn varint(rt: HostRuntime) -> Result<()> {
    let mut bytes = Vec::new(rt.alloc());
    put_varint64(&mut bytes, 1 << 35)?;
    assert!(rt; bytes.as_slice() == b"\x80\x80\x80\x80\x80\x01".as_slice());
    Ok(())
}

// How many bytes are written, and a byte of 7 at least after them.
#[tactic(auto, using(leveldb_base::proofs::BlockHandleLemmas::handle_lengths))]
fn encoded(offset: usize, size: usize) -> (usize, [u8; 21]) {
    let mut bytes = [7; 21];
    let count = BlockHandle::new(offset, size).encode_to(&mut bytes);
    (count, bytes)
}

#[test]
fn handle(rt: HostRuntime) {
    let (count, bytes) = encoded(300, 127);
    assert!(rt; count == 3 && bytes.starts_with(&[0xac, 2, 0x7f, 7]));
}

#[test]
fn entry(rt: HostRuntime) -> Result<()> {
    let entry = build_memtable_key(rt.alloc(), b"abc", b"123", ValueType::TypeValue, 231)?;
    assert!(rt; entry.as_slice() == b"\x0babc\x01\xe7\0\0\0\0\0\0\x03123".as_slice());
    Ok(())
}

#[test]
fn batch(rt: HostRuntime) -> Result<()> {
    let mut batch = WriteBatch::new(rt.alloc())?;
    batch.put(b"a", b"1")?;
    batch.delete(b"b")?;
    let bytes = batch.encode(1);
    assert!(rt;
        bytes.as_slice() == b"\x01\0\0\0\0\0\0\0\x02\0\0\0\x01\x01a\x011\0\x01b".as_slice()
    );
    Ok(())
}

/// A whole record: the masked sum of its kind and text, its length and its kind.
#[test]
fn record(rt: HostRuntime) -> Result<()> {
    let mut writer = LogWriter::new(rt.alloc(), Vec::new(rt.alloc()));
    writer.add_record(b"abc")?;
    assert!(rt; writer.sink.len() == 10);
    assert!(rt; writer.sink.ends_with(b"\x03\0\x01abc"));
    Ok(())
}

/// The filter of four keys with 32 bits a key.
const FILTER: [u8; 17] = [
    234, 195, 25, 155, 61, 141, 173, 140, 221, 28, 222, 92, 220, 112, 234, 227, 22,
];

#[test]
fn filter(rt: HostRuntime) -> Result<()> {
    let keys = b"abcdefghijklmnopqrstuvwxyz";
    let filter = BloomPolicy::new(32).create_filter(rt.alloc(), keys, &[0, 4, 8, 12])?;
    assert!(rt; filter.as_slice() == FILTER.as_slice());
    Ok(())
}

#[test]
fn footer(rt: HostRuntime) {
    let mut bytes = [7; FULL_FOOTER_LENGTH];
    Footer::new(BlockHandle::new(44, 4), BlockHandle::new(55, 5)).encode(&mut bytes);
    assert!(rt; bytes.starts_with(&[44, 4, 55, 5, 0, 0]));
    assert!(rt; bytes.ends_with(&[0x57, 0xfb, 0x80, 0x8b, 0x24, 0x75, 0x47, 0xdb]));
}
