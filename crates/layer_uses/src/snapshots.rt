//! Held snapshots.
use leveldb_base::error::Result;
use leveldb_iter::snapshot::SnapshotList;

#[test]
fn held_snapshots(rt: HostRuntime) -> Result<()> {
    let mut list = SnapshotList::new(rt.alloc());
    let first = list.new_snapshot(1)?;
    list.new_snapshot(2)?;
    assert!(rt; list.oldest() == 1 && list.newest() == 2);
    assert!(rt; list.release(first) && !list.empty());
    Ok(())
}
