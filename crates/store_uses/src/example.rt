//! The example of README.md, word for word (`tools/quotes` compares the two).
use leveldb_base::error::Result;
use rusty_leveldb::db_impl::{Engine, Store};
use rusty_leveldb::{MemEnv, Options, WriteBatch};

#[test]
fn readme_example(rt: HostRuntime) -> Result<()> {
    let alloc = rt.alloc();

    let mut env = MemEnv::new(alloc);
    let engine = Engine::open(alloc, "db", &mut env, Options::default())?;
    let mut db = Store::around(&mut env, engine); // a DB
    db.put(b"a", b"1")?; // not durable until flush, close or a synced write returns
    let mut batch = WriteBatch::new(alloc)?;
    batch.put(b"b", b"2")?;
    batch.delete(b"a")?;
    db.write(batch, true)?; // all or nothing, and durable once it returns
    let a = db.get(b"a")?; // None
    let b = db.get(b"b")?; // Some(2)
    db.close()?; // a store that is only dropped keeps its lock

    assert!(rt; a.is_none());
    assert!(rt;
        match b {
            Some(value) => value.as_slice() == b"2".as_slice(),
            None => false,
        }
    );
    Ok(())
}
