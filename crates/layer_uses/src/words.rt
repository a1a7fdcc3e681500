//! Numbers, keys, names and errors.
use leveldb_base::cmp::{DefaultCmp, InternalKeyCmp};
use leveldb_base::crc::{mask_crc, unmask_crc};
use leveldb_base::error::{Result, Status, StatusCode};
use leveldb_base::key_types::{
    LookupKey, ValueType, build_memtable_key, cmp_memtable_key, parse_memtable_key, parse_tag,
    truncate_to_userkey,
};
use leveldb_base::names::lock_file_name;
use leveldb_base::varint::{encode_varint32, get_varint32, put_varint32};
use std::cmp::Ordering;

#[test]
fn sums(rt: HostRuntime) {
    assert!(rt; unmask_crc(mask_crc(0xe306_9283)) == 0xe306_9283);
}

// How many bytes of five a number takes, and these.
fn encoded(n: u32) -> (usize, [u8; 5]) {
    let mut bytes = [7; 5];
    let length = encode_varint32(&mut bytes, n);
    (length, bytes)
}

#[test]
fn numbers_of_32_bits(rt: HostRuntime) -> Result<()> {
    let mut put = Vec::new(rt.alloc());
    put_varint32(&mut put, 300)?;
    let (length, bytes) = encoded(300);
    assert!(rt; length == 2 && bytes.starts_with(&put));
    assert!(rt; get_varint32(&bytes) == Some((300, 2)));
    Ok(())
}

#[test]
fn entries(rt: HostRuntime) -> Result<()> {
    let entry = build_memtable_key(rt.alloc(), b"abc", b"123", ValueType::TypeValue, 231)?;
    assert!(rt; parse_memtable_key(entry.as_slice()) == (3, 1, 231 << 8 | 1, 3, 13));
    Ok(())
}

#[test]
fn orders_and_tags(rt: HostRuntime) {
    assert!(rt; cmp_memtable_key(&DefaultCmp, b"\x08", b"\x08") == Ordering::Equal);
    assert!(rt; parse_tag(231 << 8 | 1) == (ValueType::TypeValue, 231));
}

#[test]
fn look_up_keys(rt: HostRuntime) -> Result<()> {
    let key = LookupKey::new_full(rt.alloc(), b"a", 1, ValueType::TypeDeletion)?;
    assert!(rt; key.memtable_key() == b"\x09a\0\x01\0\0\0\0\0\0".as_slice());
    let mut user_key = key.internal_key().to_vec(rt.alloc())?;
    truncate_to_userkey(&mut user_key);
    assert!(rt; user_key.as_slice() == b"a".as_slice());
    assert!(rt; InternalKeyCmp(DefaultCmp).cmp_inner(b"a", b"b") == Ordering::Less);
    Ok(())
}

#[test]
fn names(rt: HostRuntime) -> Result<()> {
    assert!(rt; lock_file_name(rt.alloc(), "db")?.as_str() == "db/LOCK");
    Ok(())
}

#[test]
fn errors(rt: HostRuntime) {
    let status = Status::new(rt.alloc(), StatusCode::Corruption, "cut");
    assert!(rt; status.annotate(rt.alloc(), "log").code == StatusCode::Corruption);
}
