//! What a caller may conclude of a store by what each call says (`says`), in the words of the
//! headline alone.
ghost use Rattle.std.specs.Prelude.{◌≡◌, ℕ, List, Some, IfOk};
ghost use Rattle.leveldb_files.specs.Stores.Format.{format_of};
ghost use Rattle.rusty_leveldb.specs.Engines.Witness.{shown_by};
ghost use Rattle.rusty_leveldb.specs.Headline.{UserStore};
ghost use Rattle.store_uses.specs.Held.{HoldsStore, HoldsValue};

use bytes::Bytes;
use leveldb_base::cmp::{Cmp, InternalKeyCmp, UserCmp};
use leveldb_base::error::Result;
use leveldb_env::compressor::{CompressorList, Compressors};
use leveldb_env::env::Env;
use leveldb_env::filter::FilterPolicy;
use rusty_leveldb::promises::batches_are_atomic;
use rusty_leveldb::{DB, Options, WriteBatch};
use std::alloc::Global;

/// Adds a value of a key to a batch, writes the batch into a store, and looks the key up. From each
/// store that the disk holds, it finds the value, whatever else the batch had before.
pub fn put_and_get<E: Env, C: UserCmp + Copy, FP: FilterPolicy + Copy>(
    alloc: Global,
    name: &str,
    env: &mut E,
    options: Options<C, FP>,
    mut batch: WriteBatch,
    key: &[u8],
    value: &[u8],
) -> Result<Option<Bytes>>
    ensures { let codings = ⟦<CompressorList as Compressors>⟧.codings in
        (store : UserStore) → HoldsStore E.Env (shown_by ⟦<InternalKeyCmp<C> as Cmp>⟧ E.Env C.Cmp
        FP.FilterPolicy codings) (format_of C.Cmp FP.FilterPolicy codings) options name.now env.old
        store → IfOk result (λ found. found ≡ Some value.now) }
{
    batches_are_atomic();
    batch.put(key, value)?;
    let mut db = DB::open(alloc, name, &mut *env, options)?;
    db.write(batch, true)?;
    let found = db.get(key)?;
    db.abandon()?;
    Ok(found)
}

/// Opens a store and looks a key up. It finds the value that the disk holds.
pub fn find<E: Env, C: UserCmp + Copy, FP: FilterPolicy + Copy>(
    alloc: Global,
    name: &str,
    env: &mut E,
    options: Options<C, FP>,
    key: &[u8],
) -> Result<Option<Bytes>>
    ensures { let codings = ⟦<CompressorList as Compressors>⟧.codings in
        (value : List ℕ) → HoldsValue E.Env (shown_by ⟦<InternalKeyCmp<C> as Cmp>⟧ E.Env C.Cmp
        FP.FilterPolicy codings) (format_of C.Cmp FP.FilterPolicy codings) options name.now env.old
        key.now value → IfOk result (λ found. found ≡ Some value) }
{
    let mut db = DB::open(alloc, name, &mut *env, options)?;
    let found = db.get(key)?;
    db.abandon()?;
    Ok(found)
}
