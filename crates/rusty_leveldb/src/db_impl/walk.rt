//! Walks over a store's view.
ghost use Rattle.std.specs.Prelude.{◌≡◌, ◌++◌, List, IfOk, IfErr};
ghost use Rattle.std.specs.Option.{option_map};
ghost use Rattle.leveldb_base.specs.declared.error.StatusCode.TheVariants.{InvalidArgument};
ghost use Rattle.leveldb_store.specs.Tables.BuildTable.{choices_of};
ghost use Rattle.rusty_leveldb.specs.Engines.Calls.{EngineWalks};
ghost use Rattle.rusty_leveldb.specs.Machines.Causes.{IsNotHeld};
ghost use Rattle.rusty_leveldb.specs.Engines.Engine.{IsEngineSequence, held_in};
ghost use Rattle.rusty_leveldb.specs.Engines.Serves.{snapshot_of};
ghost use Rattle.rusty_leveldb.specs.Engines.AnyValue.{IsAnyValue};

use super::engine::Engine;
use leveldb_base::cmp::{Cmp, InternalKeyCmp, UserCmp};
use leveldb_base::error::Result;
use leveldb_base::types::SequenceNumber;
use leveldb_env::compressor::{CompressorList, Compressors};
use leveldb_env::env::Env;
use leveldb_env::filter::{FilterPolicy, InternalFilterPolicy};
use leveldb_iter::moves::{Move, Step};
use leveldb_iter::snapshot::Snapshot;

impl<E: Env, C: UserCmp + Copy, FP: FilterPolicy + Copy> Engine<E, C, FP> {
    /// Makes moves of a walk over the store as it is now, or over a snapshot, from no position on.
    /// `steps` gains where each led. A move that fails leaves no position, and the next one goes on
    /// from there. A snapshot that isn't held is `InvalidArgument`.
    pub fn walk(
        &mut self,
        env: &mut E,
        at: Option<Snapshot>,
        moves: &[Move],
        steps: &mut Vec<Step>,
    ) -> Result<()>
        requires any { IsAnyValue self.old }
        ensures { let choices = choices_of C.Cmp FP.FilterPolicy
            ⟦<InternalKeyCmp<C> as Cmp>⟧ ⟦<InternalFilterPolicy<FP> as FilterPolicy>⟧
            ⟦<CompressorList as Compressors>⟧.codings in
            (given : List Step) × (steps.new.items ≡ steps.old.items ++ given)
            × EngineWalks E.Env choices self.old env.old (option_map snapshot_of at) moves.now given
            result self.new env.new }
    {
        self.check_not_closed()?;
        let sequence = self.sequence_at(at)?;
        steps.reserve(moves.len())?;
        self.options.cmp = self.store.cmp();
        self.store.walk(env, &self.options, &mut self.tables, sequence, moves, steps)
    }

    // The number at which it is read: its last one, or that of a snapshot, which is to be held.
    pub(super) fn sequence_at(&self, at: Option<Snapshot>) -> Result<SequenceNumber>
        ensures ok { IfOk result (IsEngineSequence self.now (option_map snapshot_of at)) }
        ensures cause { IfErr result (λ status. (status.code ≡ InvalidArgument)
            × IsNotHeld (held_in self.now) (option_map snapshot_of at)) }
    {
        match at {
            None => Ok(self.store.last_sequence()),
            Some(snapshot) => {
                self.check_held(snapshot)?;
                Ok(snapshot.sequence())
            }
        }
    }
}
