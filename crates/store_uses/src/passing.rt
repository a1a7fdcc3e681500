//! A program whose functions pass a store, an engine and options on: how many of each thing are in
//! stock.
use leveldb_base::error::Result;
use rusty_leveldb::db_impl::{Engine, Store};
use rusty_leveldb::{BloomPolicy, DefaultCmp, MemDB, MemEnv, Options, Scan};
use std::alloc::Global;

/// An engine over an environment in memory, whose memtables are small.
pub fn open_stock(
    alloc: Global,
    env: &mut MemEnv,
    mut options: Options<DefaultCmp, BloomPolicy>,
) -> Result<Engine<MemEnv, DefaultCmp, BloomPolicy>> {
    limit_memory(&mut options);
    Engine::open(alloc, "stock", env, options)
}

fn limit_memory(options: &mut Options<DefaultCmp, BloomPolicy>) {
    options.write_buffer_size = 1 << 16;
}

/// Says how many there are of a thing.
pub fn set_count(db: &mut MemDB<'_>, thing: &[u8], count: u8) -> Result<()> {
    db.put(thing, &[count])
}

/// How many there are of it.
pub fn count_of(db: &mut MemDB<'_>, thing: &[u8]) -> Result<u8> {
    match db.get(thing)? {
        Some(count) => Ok(count.as_slice().first().copied().unwrap_or(0)),
        None => Ok(0),
    }
}

/// Takes one, if there is one, and returns whether there was.
pub fn take_one(db: &mut MemDB<'_>, thing: &[u8]) -> Result<bool> {
    let count = count_of(db, thing)?;
    if count == 0 {
        return Ok(false);
    }
    set_count(db, thing, count - 1)?;
    Ok(true)
}

/// Appends the things of the first page that come at or after this one, with their counts.
pub fn page_from(
    db: &mut MemDB<'_>,
    thing: &[u8],
    page: &mut Vec<(Vec<u8>, Vec<u8>)>,
) -> Result<()> {
    db.scan(None, Scan::From(thing), 20, page)
}

/// Makes all durable, and gives back the lock.
pub fn end_stock(
    engine: &mut Engine<MemEnv, DefaultCmp, BloomPolicy>,
    env: &mut MemEnv,
) -> Result<()> {
    engine.flush(env)?;
    engine.close(env)
}

#[cfg(test)]
#[test]
fn stock(rt: HostRuntime) -> Result<()> {
    let alloc = rt.alloc();
    let mut env = MemEnv::new(alloc);
    let mut engine = open_stock(alloc, &mut env, Options::default())?;
    engine.put(&mut env, b"nail", &[2])?;
    let mut db = Store::around(&mut env, engine);
    set_count(&mut db, b"screw", 1)?;
    assert!(rt; take_one(&mut db, b"screw")? && !take_one(&mut db, b"screw")?);
    assert!(rt; take_one(&mut db, b"nail")? && count_of(&mut db, b"nail")? == 1);
    let mut page = Vec::new(alloc);
    page_from(&mut db, b"o", &mut page)?;
    assert!(rt; page.len() == 1 && page[0].0.as_slice() == b"screw".as_slice());
    db.close()?;
    db.abandon()?;
    let mut engine = open_stock(alloc, &mut env, Options::default())?;
    end_stock(&mut engine, &mut env)
}
