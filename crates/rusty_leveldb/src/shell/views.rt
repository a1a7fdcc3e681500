//! The commands that name snapshots. A snapshot is named by how many were given out before it.
ghost use Rattle.std.specs.Prelude.{◌≡◌, ◌++◌, ◌∷◌, [], Err, Ok, Some, length, slice_get, IfErr, IfOk};
ghost use Rattle.std.specs.Option.{option_map};
ghost use Rattle.leveldb_iter.specs.declared.snapshot.Snapshot.{Snapshot as HeldSnapshot};
ghost use Rattle.leveldb_store.specs.Tables.BuildTable.{choices_of};
ghost use Rattle.rusty_leveldb.specs.Engines.Calls.{EngineGets, EngineHolds, EngineReleases, EngineWalks, result_map};
ghost use Rattle.rusty_leveldb.specs.Programs.RunCalls.{held_named, view_named};
ghost use Rattle.rusty_leveldb.specs.Engines.Serves.{snapshot_of};
ghost use Rattle.rusty_leveldb.specs.Programs.Views.{steps_in};

use crate::db_impl::Engine;
use bytes::Bytes;
use leveldb_base::cmp::{Cmp, InternalKeyCmp, UserCmp};
use leveldb_base::error::Result;
use leveldb_env::compressor::{CompressorList, Compressors};
use leveldb_env::env::Env;
use leveldb_env::filter::{FilterPolicy, InternalFilterPolicy};
use leveldb_iter::moves::{Move, Step};
use leveldb_iter::snapshot::Snapshot;
use std::alloc::Global;

// Takes a snapshot, and returns how many were taken before.
pub(super) fn take<E: Env, C: UserCmp + Copy, FP: FilterPolicy + Copy>(
    engine: &mut Engine<E, C, FP>,
    taken: &mut Vec<Snapshot>,
) -> Result<usize>
    ensures ok { let choices = choices_of C.Cmp FP.FilterPolicy
        ⟦<InternalKeyCmp<C> as Cmp>⟧ ⟦<InternalFilterPolicy<FP> as FilterPolicy>⟧
        ⟦<CompressorList as Compressors>⟧.codings in
        IfOk result (λ number. (number ≡ length taken.old.items) × (one : HeldSnapshot)
        × (taken.new.items ≡ taken.old.items ++ one ∷ [])
        × ((at : E) → EngineHolds E.Env choices engine.old at (Ok one) engine.new at)) }
    ensures err { let choices = choices_of C.Cmp FP.FilterPolicy
        ⟦<InternalKeyCmp<C> as Cmp>⟧ ⟦<InternalFilterPolicy<FP> as FilterPolicy>⟧
        ⟦<CompressorList as Compressors>⟧.codings in
        IfErr result (λ status. (taken.new.items ≡ taken.old.items)
        × ((at : E) → EngineHolds E.Env choices engine.old at (Err status) engine.new at)) }
{
    engine.check_not_closed()?;
    let number = taken.len();
    taken.reserve(1)?;
    let snapshot = engine.get_snapshot()?;
    taken.push(snapshot).unwrap();
    Ok(number)
}

// The snapshot of this number, if one was taken.
fn named(taken: &[Snapshot], number: usize) -> Option<Snapshot>
    ensures { result ≡ slice_get taken.now number }
{
    taken.get(number).copied()
}

// The key's value at the snapshot that is named.
pub(super) fn get_at<E: Env, C: UserCmp + Copy, FP: FilterPolicy + Copy>(
    engine: &mut Engine<E, C, FP>,
    env: &mut E,
    taken: &[Snapshot],
    number: usize,
    key: &[u8],
) -> Result<Option<Bytes>>
    ensures { let choices = choices_of C.Cmp FP.FilterPolicy
        ⟦<InternalKeyCmp<C> as Cmp>⟧ ⟦<InternalFilterPolicy<FP> as FilterPolicy>⟧
        ⟦<CompressorList as Compressors>⟧.codings in
        EngineGets E.Env choices engine.old env.old (Some (view_named taken.now number)) key.now
        result engine.new env.new }
{
    match named(taken, number) {
        Some(snapshot) => engine.get_at(env, snapshot, key),
        None => Err(engine.refuse_unknown()),
    }
}

// Releases the snapshot that is named.
pub(super) fn release<E: Env, C: UserCmp + Copy, FP: FilterPolicy + Copy>(
    engine: &mut Engine<E, C, FP>,
    taken: &[Snapshot],
    number: usize,
) -> Result<()>
    ensures { let choices = choices_of C.Cmp FP.FilterPolicy
        ⟦<InternalKeyCmp<C> as Cmp>⟧ ⟦<InternalFilterPolicy<FP> as FilterPolicy>⟧
        ⟦<CompressorList as Compressors>⟧.codings in
        (at : E) → EngineReleases E.Env choices engine.old at (held_named taken.now number) result
        engine.new at }
{
    match named(taken, number) {
        Some(snapshot) => engine.release_snapshot(snapshot),
        None => Err(engine.refuse_unknown()),
    }
}

// Where each of these moves leads, now or at the snapshot that is named.
pub(super) fn walk<E: Env, C: UserCmp + Copy, FP: FilterPolicy + Copy>(
    alloc: Global,
    engine: &mut Engine<E, C, FP>,
    env: &mut E,
    taken: &[Snapshot],
    at: Option<usize>,
    moves: &[Move],
) -> Result<Vec<Step>>
    ensures { let choices = choices_of C.Cmp FP.FilterPolicy
        ⟦<InternalKeyCmp<C> as Cmp>⟧ ⟦<InternalFilterPolicy<FP> as FilterPolicy>⟧
        ⟦<CompressorList as Compressors>⟧.codings in
        EngineWalks E.Env choices engine.old env.old (option_map (view_named taken.now) at)
        moves.now (steps_in result) (result_map (λ steps. tt) result) engine.new env.new }
{
    let Some(number) = at else {
        return walk_over(alloc, engine, env, None, moves);
    };
    match named(taken, number) {
        Some(snapshot) => walk_over(alloc, engine, env, Some(snapshot), moves),
        None => Err(engine.refuse_unknown()),
    }
}

// Where each of these moves leads, now or at a snapshot.
fn walk_over<E: Env, C: UserCmp + Copy, FP: FilterPolicy + Copy>(
    alloc: Global,
    engine: &mut Engine<E, C, FP>,
    env: &mut E,
    at: Option<Snapshot>,
    moves: &[Move],
) -> Result<Vec<Step>>
    ensures { let choices = choices_of C.Cmp FP.FilterPolicy
        ⟦<InternalKeyCmp<C> as Cmp>⟧ ⟦<InternalFilterPolicy<FP> as FilterPolicy>⟧
        ⟦<CompressorList as Compressors>⟧.codings in
        EngineWalks E.Env choices engine.old env.old (option_map snapshot_of at) moves.now
        (steps_in result) (result_map (λ steps. tt) result) engine.new env.new }
{
    let mut steps = Vec::new(alloc);
    engine.walk(env, at, moves, &mut steps)?;
    Ok(steps)
}
