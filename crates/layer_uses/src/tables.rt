//! Tables without filters, and with blocks in Snappy's format.
use leveldb_base::cmp::{DefaultCmp, InternalKeyCmp};
use leveldb_base::error::Result;
use leveldb_base::key_types::LookupKey;
use leveldb_env::compressor::CompressorId;
use leveldb_env::env::Env;
use leveldb_env::filter::BloomPolicy;
use leveldb_env::mem_env::MemEnv;
use leveldb_env::options::Options;
use leveldb_snappy::Snappy;
use leveldb_table::cache::Cache;
use leveldb_table::table_builder::TableBuilder;
use leveldb_table::table_reader::Table;
use std::alloc::Global;

/// A table of the one entry that sets `a` to `1`.
fn one_pair(alloc: Global, options: &Options<DefaultCmp, BloomPolicy>) -> Result<Vec<u8>> {
    let mut builder = TableBuilder::new_no_filter(alloc, options, Vec::new(alloc));
    let key = LookupKey::new(alloc, b"a", 1)?;
    builder.add(&options.compressor_list, key.internal_key(), b"1")?;
    let (bytes, size) = builder.finish(&options.compressor_list);
    size?;
    Ok(bytes)
}

/// A new file of these bytes.
fn file_of<E: Env>(env: &mut E, bytes: &[u8]) -> Result<E::File> {
    let mut file = env.open_writable_file("table")?;
    env.append(&mut file, bytes)?;
    Ok(file)
}

#[test]
fn by_snappy(rt: HostRuntime) -> Result<()> {
    let alloc = rt.alloc();
    let mut options = Options::default();
    let list = &mut options.compressor_list;
    list.set::<Snappy>(alloc, Box::new(alloc, Snappy)?)?;
    options.compressor = Snappy::ID;
    let bytes = one_pair(alloc, &options)?;
    let mut env = MemEnv::new(alloc);
    let file = file_of(&mut env, &bytes)?;
    let mut cache = Cache::new(alloc, 1)?;
    let table = Table::new_no_filter(alloc, &options, &mut env, &mut cache, file, bytes.len())?;
    let list = &options.compressor_list;
    let found = table.get(alloc, &mut env, &mut cache, list, b"a\x01\x01\0\0\0\0\0\0")?;
    assert!(rt; found.is_some_and(|found| found.1.as_slice() == b"1".as_slice()));
    Ok(())
}

#[test]
fn without_filters(rt: HostRuntime) -> Result<()> {
    let alloc = rt.alloc();
    let options = Options::default();
    let bytes = one_pair(alloc, &options)?;
    let mut env = MemEnv::new(alloc);
    let file = file_of(&mut env, &bytes)?;
    let mut cache = Cache::new(alloc, 1)?;
    let table: Table<MemEnv, _, BloomPolicy> = Table::open_no_filter(
        alloc,
        InternalKeyCmp(DefaultCmp),
        &options.compressor_list,
        &mut env,
        &mut cache,
        file,
        bytes.len(),
    )?;
    assert!(rt; table.approx_offset_of(alloc, b"a\x01\x01\0\0\0\0\0\0")? == 0);
    Ok(())
}
