//! Samples of the keys that iterators read: each charges a file with a seek.
// LevelDB: db/db_iter.cc, the read samples of DBIter
ghost use Rattle.std.specs.Prelude.{◌≡◌, ◌%◌, [], IfErr, OnErr, OnOk, Some};
ghost use Rattle.leveldb_base.specs.Error.{IsOutOfMemory};
ghost use Rattle.rand_core.specs.Stream.{next_u64};
ghost use Rattle.rusty_leveldb.specs.Walks.ReadSamples.{DrawsPeriod, SamplesKey, TakesBytes, after_charges, seeded, with_charge_of};

use leveldb_base::cmp::UserCmp;
use leveldb_base::error::Result;
use leveldb_base::key_types::UserKey;
use leveldb_base::types::FileNum;
use leveldb_env::env::Env;
use leveldb_store::open_store::OpenStore;
use leveldb_version::version::GetStats;
use rand_core::{Rng, SeedableRng};
use rand_xoshiro::Xoshiro256PlusPlus;
use std::alloc::Global;
use std::marker::Model;

// What the periods are drawn from, so that they are the same in each run.
const SEED: u64 = 0xdeadbeef;

// How many bytes are read between two samples, in the mean.
const READ_BYTES_PERIOD: u64 = 1 << 20;

// The most charges that are kept: as many as a file of 64 MiB has seeks.
const MOST_CHARGES: usize = 4096;

/// The samples of the keys that a store's iterators read. Once in a while, by the bytes that they
/// read, a key is sampled, and the file that this charges with a seek is kept, until a compaction
/// is looked for.
#[derive(Drop)]
pub struct ReadSamples {
    // What the periods are drawn from.
    random: Xoshiro256PlusPlus,
    // How many bytes are read until a key is sampled.
    left: u64,
    // The files to be charged, by level and number.
    charges: Vec<(usize, FileNum)>,
}

impl Model for ReadSamples {
    ghost use Rattle.std.specs.Prelude.{◌≤◌, length};
    ghost use Rattle.rusty_leveldb.specs.Walks.ReadSamples.{SamplesValue};

    ghost Value = { SamplesValue };

    ghost view = { λ it. record {
      random = it.random;
      left = it.left;
      charges = it.charges.items;
    } };

    ghost invariant = { λ it. length it.charges.items ≤ 4096 };
}

impl ReadSamples {
    /// No sample yet. The first period is drawn.
    pub fn new(alloc: Global) -> ReadSamples
        ensures { DrawsPeriod seeded result }
    {
        let mut random = Xoshiro256PlusPlus::seed_from_u64(SEED);
        let left = sample_period(&mut random);
        ReadSamples {
            random,
            left,
            charges: Vec::new(alloc),
        }
    }

    /// Takes the bytes that were read off those that are left until a key is sampled. Returns
    /// whether one is to be sampled now: more were read than were left, and one new period is
    /// drawn.
    #[inline]
    pub fn count(&mut self, bytes: u64) -> bool
        ensures { TakesBytes bytes self.old result self.new }
    {
        if bytes <= self.left {
            self.left -= bytes;
            return false;
        }
        self.left = sample_period(&mut self.random);
        true
    }

    /// Samples a user key: keeps the file that this charges in the store, if it charges one and
    /// fewer than 4096 are kept. Where there is no memory for it, the sample is lost.
    pub fn sample<E: Env, C: UserCmp + Copy + Drop>(
        &mut self,
        store: &OpenStore<E, C>,
        key: UserKey<'_>,
    ) -> Result<()>
        ensures { SamplesKey (C.cmp store.now.cmp) store.now key.now self.old result self.new }
    {
        match store.sampled(key) {
            None => Ok(()),
            Some(file) => self.keep(file),
        }
    }

    // Keeps a file to be charged, if fewer than the most are kept.
    fn keep(&mut self, file: (usize, FileNum)) -> Result<()>
        ensures ok { OnOk result (self.new ≡ with_charge_of (Some file) self.old) }
        ensures err { OnErr result (self.new ≡ self.old) }
        ensures memory { IfErr result IsOutOfMemory }
    {
        if self.charges.len() == MOST_CHARGES {
            return Ok(());
        }
        self.charges.push(file)?;
        Ok(())
    }

    /// Charges the files that are kept, each with a seek, and keeps none of them.
    pub fn charge<E: Env, C: UserCmp + Copy + Drop>(&mut self, store: &mut OpenStore<E, C>)
        ensures charges { store.new ≡ after_charges self.old.charges store.old }
        ensures version { store.new ≡ record store.old { current = store.new.current } }
        ensures none { self.new ≡ record self.old { charges = [] } }
    {
        charge_all(store, self.charges.as_slice());
        self.charges.clear();
    }
}

// Charges files of a store's version, each with a seek.
fn charge_all<E: Env, C: UserCmp + Copy + Drop>(
    store: &mut OpenStore<E, C>,
    files: &[(usize, FileNum)],
)
    ensures { store.new ≡ after_charges files.now store.old }
{
    for file in files {
        store.charge(GetStats { file: Some(*file) });
    }
}

/// Draws how many bytes are read until the next sample, fewer than 2 MiB: one number of the
/// generator, modulo 2097152.
pub fn sample_period<G: Rng>(rng: &mut G) -> u64
    ensures period { result ≡ (next_u64 (G.stream rng.old)).0 % 2097152 }
    ensures rest { G.stream rng.new ≡ (next_u64 (G.stream rng.old)).1 }
{
    rng.next_u64() % (2 * READ_BYTES_PERIOD)
}
