//! Memtables, batches and logs.
use leveldb_base::cmp::DefaultCmp;
use leveldb_base::error::Result;
use leveldb_base::types::Lookup;
use leveldb_mem::log::{LogWriter, read_records};
use leveldb_mem::memtable::MemTable;
use leveldb_mem::skipmap::SkipMap;
use leveldb_mem::write_batch::WriteBatch;

#[test]
fn a_batch_in_a_memtable(rt: HostRuntime) -> Result<()> {
    let mut batch = WriteBatch::new(rt.alloc())?;
    batch.put(b"a", b"1")?;
    batch.delete(b"b")?;
    let mut table = MemTable::new(rt.alloc(), DefaultCmp);
    batch.insert_into_memtable(7, &mut table)?;
    assert!(rt; table.newest(b"a", 7).into_value() == Some(b"1"));
    assert!(rt; table.newest(b"b", 8) == Lookup::Deleted && table.newest(b"b", 7).is_absent());
    Ok(())
}

#[test]
fn a_map_of_memtable_keys(rt: HostRuntime) {
    let map = SkipMap::new_memtable_map(rt.alloc(), DefaultCmp);
    assert!(rt; map.is_empty() && map.approx_memory() == 128);
}

#[test]
fn records_of_a_log(rt: HostRuntime) -> Result<()> {
    let mut writer = LogWriter::new(rt.alloc(), Vec::new(rt.alloc()));
    writer.add_record(b"one")?;
    let mut source = writer.sink.as_slice();
    let (records, is_clean) = read_records(rt.alloc(), &mut source, true)?;
    assert!(rt; is_clean && records.len() == 1);
    Ok(())
}
