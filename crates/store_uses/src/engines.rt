//! An engine, which borrows its environment in each call.
use leveldb_base::error::Result;
use rusty_leveldb::db_impl::Engine;
use rusty_leveldb::{MemEnv, Options};

#[test]
fn snapshots(rt: HostRuntime) -> Result<()> {
    let alloc = rt.alloc();
    let mut env = MemEnv::new(alloc);
    let mut engine = Engine::open(alloc, "db", &mut env, Options::default())?;
    engine.put(&mut env, b"a", b"1")?;
    let snapshot = engine.get_snapshot()?;
    engine.delete(&mut env, b"a")?;
    assert!(rt; engine.get_at(&mut env, snapshot, b"a")?.is_some());
    engine.release_snapshot(snapshot)?;
    engine.abandon(&mut env)
}
