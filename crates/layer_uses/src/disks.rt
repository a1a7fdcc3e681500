//! Disks in memory, what a crash leaves of them, options and filter blocks.
use leveldb_base::error::Result;
use leveldb_disks::mem_env::{MemEnv, Pick, RecordEnv};
use leveldb_env::compressor::CompressorList;
use leveldb_env::env::Env;
use leveldb_env::filter::BloomPolicy;
use leveldb_env::filter_block::{FilterBlockBuilder, FilterBlockReader};
use leveldb_env::options::{for_test, in_memory};
use std::alloc::Global;

/// Appends three bytes to a new file.
fn append<E: Env>(env: &mut E) -> Result<()> {
    let mut file = env.open_writable_file("a")?;
    env.append(&mut file, b"one")
}

/// The choice of what a crash leaves by which nothing is left that isn't durable.
fn no_tails(alloc: Global) -> Pick {
    Pick {
        tails: Vec::new(alloc),
        after: false,
    }
}

#[test]
fn crash_of_a_disk(rt: HostRuntime) -> Result<()> {
    let mut env = MemEnv::new(rt.alloc());
    env.set_micros(7);
    append(&mut env)?;
    let mut left = env.crashed(rt.alloc(), &no_tails(rt.alloc()))?;
    assert!(rt; left.micros()? == 7 && left.size_of("a")? == 0);
    Ok(())
}

#[test]
fn crash_at_a_moment(rt: HostRuntime) -> Result<()> {
    let mut env = RecordEnv::new(rt.alloc());
    append(&mut env)?;
    assert!(rt; env.tails(rt.alloc(), env.moment(), true)?.len() == 1);
    let mut left = env.disk_at(rt.alloc(), env.moment(), &no_tails(rt.alloc()))?;
    assert!(rt; left.size_of("a")? == 0);
    Ok(())
}

#[test]
fn filters(rt: HostRuntime) -> Result<()> {
    let policy = BloomPolicy::new(10);
    let mut builder = FilterBlockBuilder::new(rt.alloc(), policy);
    builder.start_block(0)?;
    builder.add_key(b"a")?;
    let reader = FilterBlockReader::new_owned(rt.alloc(), policy, builder.finish()?)?;
    assert!(rt; reader.num() == 1 && reader.key_may_match(0, b"a"));
    Ok(())
}

#[test]
fn fresh_disks(rt: HostRuntime) -> Result<()> {
    let (mut disk, _) = in_memory(rt.alloc());
    assert!(rt; !disk.exists("a")?);
    let (mut disk, options) = for_test(rt.alloc());
    assert!(rt; !disk.exists("a")? && options.compressor_list.is_set(0));
    Ok(())
}
