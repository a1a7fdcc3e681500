//! The calls of a store.
use leveldb_base::error::Result;
use rusty_leveldb::db_impl::open_read_only;
use rusty_leveldb::{DB, MemEnv, Move, Options, Scan, repair};

#[test]
fn snapshots(rt: HostRuntime) -> Result<()> {
    let alloc = rt.alloc();
    let mut env = MemEnv::new(alloc);
    let mut db = DB::open(alloc, "db", &mut env, Options::default())?;
    db.put(b"a", b"1")?;
    let snapshot = db.get_snapshot()?;
    db.delete(b"a")?;
    assert!(rt; db.get(b"a")?.is_none() && db.get_at(&snapshot, b"a")?.is_some());
    db.release_snapshot(snapshot)?;
    db.flush()?;
    db.abandon()
}

#[test]
fn iterators(rt: HostRuntime) -> Result<()> {
    let alloc = rt.alloc();
    let mut env = MemEnv::new(alloc);
    let mut db = DB::open(alloc, "db", &mut env, Options::default())?;
    db.put(b"a", b"1")?;
    let snapshot = db.get_snapshot()?;
    db.put(b"b", b"2")?;
    let mut it = db.new_iter_at(&snapshot)?;
    it.seek_to_first()?;
    assert!(rt; it.valid() && !it.advance()?);
    Ok(())
}

#[test]
fn compactions(rt: HostRuntime) -> Result<()> {
    let alloc = rt.alloc();
    let mut env = MemEnv::new(alloc);
    let mut db = DB::open(alloc, "db", &mut env, Options::default())?;
    db.put(b"a", b"1")?;
    db.delete(b"b")?;
    db.compact_range(b"a", b"b")?;
    assert!(rt; db.get(b"a")?.is_some() && db.get(b"b")?.is_none());
    db.compact_range(b"", b"")?;
    assert!(rt; db.last_removal().is_ok());
    db.close()
}

#[test]
fn reading_alone(rt: HostRuntime) -> Result<()> {
    let alloc = rt.alloc();
    let mut env = MemEnv::new(alloc);
    let mut db = DB::open(alloc, "db", &mut env, Options::default())?;
    db.put(b"a", b"1")?;
    db.close()?;
    db.abandon()?;
    let mut store = open_read_only(alloc, "db", &mut env, Options::default())?;
    assert!(rt; store.get(b"a")?.is_some());
    let mut steps = Vec::new(alloc);
    store.walk(&[Move::First], &mut steps)?;
    assert!(rt; steps.len() == 1);
    let mut pairs = Vec::new(alloc);
    store.scan(Scan::Last, 2, &mut pairs)?;
    assert!(rt; pairs.len() == 1);
    let mut it = store.new_iter()?;
    assert!(rt; it.advance()?);
    Ok(())
}

#[test]
fn repairs(rt: HostRuntime) -> Result<()> {
    let alloc = rt.alloc();
    let mut env = MemEnv::new(alloc);
    let mut db = DB::open(alloc, "db", &mut env, Options::default())?;
    db.put(b"a", b"1")?;
    db.close()?;
    db.abandon()?;
    repair(alloc, "db", &mut env, Options::default())?;
    let mut db = DB::open(alloc, "db", &mut env, Options::default())?;
    assert!(rt; db.get(b"a")?.is_some());
    db.close()
}
