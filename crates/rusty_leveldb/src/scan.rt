//! Scans of a walk: its pairs from a key on, or back from it.
ghost use Rattle.std.specs.Prelude.{◌≡◌, ◌++◌, ℕ, Bool, true, false, List, [], map, IfErr, OnErr, OnOk};
ghost use Rattle.std.specs.Global.{Vec};
ghost use Rattle.leveldb_base.specs.declared.error.StatusCode.TheVariants.{InvalidArgument};
ghost use Rattle.leveldb_base.specs.KeyTypes.{IsLongKey};
ghost use Rattle.leveldb_iter.specs.Walk.{MovesWalk};
ghost use Rattle.rusty_leveldb.specs.Walks.Scan.{BeginsScan, ScansWalk, before_position, begin_position, bytes_of_copy, scan_key, next_in_scan};

use leveldb_base::error::Result;
use leveldb_base::key_types::check_key_size;
use leveldb_base::types::copy_pair;
use leveldb_iter::walk::Walk;
use std::alloc::Global;

/// Which pairs a scan gives, one after another.
#[derive(Clone, Copy, Debug)]
pub enum Scan<'k> {
    /// From the first pair on.
    First,
    /// From the first pair on whose key is at or after this one.
    From(&'k [u8]),
    /// Back from the last pair whose key is before this one.
    Before(&'k [u8]),
    /// Back from the last pair.
    Last,
}

impl Scan<'_> {
    // Checks the length of its key, if it has one.
    pub(crate) fn check_key(&self, alloc: Global) -> Result<()>
        ensures ok { OnOk result (IsLongKey (scan_key self.now) → ⊥) }
        ensures long { IfErr result
            (λ status. (status.code ≡ InvalidArgument) × IsLongKey (scan_key self.now)) }
    {
        match self {
            Scan::From(key) | Scan::Before(key) => check_key_size(alloc, key),
            _ => Ok(()),
        }
    }

    // Moves a walk to the first of its pairs.
    fn begin<E, T, W: Walk<E, T>>(&self, walk: &mut W, env: &mut E, tables: &mut T) -> Result<()>
        ensures { MovesWalk W.over W.is_at W.here W.fails W.keeps (BeginsScan W.Walk self.now)
            (begin_position self.now) (env.old, tables.old) walk.old result (env.new, tables.new)
            walk.new }
    {
        match self {
            Scan::First => walk.seek_to_first(env, tables),
            Scan::From(key) => walk.seek(env, tables, key),
            Scan::Before(key) => seek_before(walk, env, tables, key),
            Scan::Last => walk.seek_to_last(env, tables),
        }
    }

    // Moves a walk from one of its pairs to the next.
    fn go_on<E, T, W: Walk<E, T>>(&self, walk: &mut W, env: &mut E, tables: &mut T) -> Result<()>
        ensures { MovesWalk W.over W.is_at W.here W.fails W.keeps W.is_at
            (next_in_scan self.now) (env.old, tables.old) walk.old result (env.new, tables.new)
            walk.new }
    {
        match self {
            Scan::First | Scan::From(_) => walk.advance(env, tables)?,
            Scan::Before(_) | Scan::Last => walk.prev(env, tables)?,
        };
        Ok(())
    }

    // Moves a walk to the first of its pairs, or from one of them to the next.
    fn go<E, T, W: Walk<E, T>>(
        &self,
        is_first: bool,
        walk: &mut W,
        env: &mut E,
        tables: &mut T,
    ) -> Result<()>
        ensures first { is_first ≡ true → MovesWalk W.over W.is_at W.here W.fails W.keeps
            (BeginsScan W.Walk self.now) (begin_position self.now) (env.old, tables.old) walk.old
            result (env.new, tables.new) walk.new }
        ensures next { is_first ≡ false → MovesWalk W.over W.is_at W.here W.fails W.keeps W.is_at
            (next_in_scan self.now) (env.old, tables.old) walk.old result (env.new, tables.new)
            walk.new }
    {
        if is_first {
            self.begin(walk, env, tables)
        } else {
            self.go_on(walk, env, tables)
        }
    }
}

// Moves a walk to the last pair before a key, or to no position where none is.
fn seek_before<E, T, W: Walk<E, T>>(
    walk: &mut W,
    env: &mut E,
    tables: &mut T,
    key: &[u8],
) -> Result<()>
    ensures { MovesWalk W.over W.is_at W.here W.fails W.keeps
        (λ world it order pairs _. W.over world it order pairs × (order.accepts key.now ≡ true))
        (before_position key.now) (env.old, tables.old) walk.old result (env.new, tables.new)
        walk.new }
{
    walk.seek(env, tables, key)?;
    if walk.valid() {
        walk.prev(env, tables)?;
        Ok(())
    } else {
        walk.seek_to_last(env, tables)
    }
}

/// Appends copies of the first `count` pairs of a scan of a walk. After an error `pairs` is as it
/// was.
pub(crate) fn scan_walk<E, T, W: Walk<E, T>>(
    alloc: Global,
    walk: &mut W,
    env: &mut E,
    tables: &mut T,
    scan: Scan<'_>,
    count: usize,
    pairs: &mut Vec<(Vec<u8>, Vec<u8>)>,
) -> Result<()>
    ensures { (given : List (Vec ℕ × Vec ℕ)) × (pairs.new.items ≡ pairs.old.items ++ given)
        × ScansWalk W.Walk scan.entry count (map bytes_of_copy given) (env.old, tables.old) walk.old
        result (env.new, tables.new) × OnErr result (given ≡ []) }
{
    let before = pairs.len();
    let scanned = append_pairs(alloc, walk, env, tables, scan, count, pairs);
    if scanned.is_err() {
        pairs.truncate(before);
    }
    scanned
}

// Appends copies of the first pairs of a scan, and after an error leaves those that came before it.
fn append_pairs<E, T, W: Walk<E, T>>(
    alloc: Global,
    walk: &mut W,
    env: &mut E,
    tables: &mut T,
    scan: Scan<'_>,
    count: usize,
    pairs: &mut Vec<(Vec<u8>, Vec<u8>)>,
) -> Result<()>
    ensures { (given : List (Vec ℕ × Vec ℕ)) × (pairs.new.items ≡ pairs.old.items ++ given)
        × ScansWalk W.Walk scan.entry count (map bytes_of_copy given) (env.old, tables.old) walk.old
        result (env.new, tables.new) }
{
    for i in 0..count {
        scan.go(i == 0, walk, env, tables)?;
        match copy_pair(alloc, walk.current())? {
            Some(pair) => pairs.push(pair)?,
            None => return Ok(()),
        }
    }
    Ok(())
}
