//! `leveldbutil dump|stat|check`: prints what a store's files hold.
// LevelDB: db/leveldbutil.cc
#![tactic(auto)]

use leveldb_base::error::Result;
use leveldb_disks::disk_env::{PosixDiskEnv, reserve_descriptors};
use leveldb_env::compressor::CompressorList;
use leveldb_env::env::Sink;
use leveldb_inspect::util_main;
use leveldb_snappy::Snappy;
use std::io::Write;
use std::process::ExitCode;
use std::{env, io};

/// A writer, as the standard output.
#[derive(Drop)]
struct Output<W: Write + Drop>(W);

impl<W: Write + Drop> Sink for Output<W> {
    ghost puts = { λ old bytes result new. Unit {0} };

    ghost flushes = { λ old result new. Unit {0} };

    fn put_all(&mut self, bytes: &[u8]) -> Result<()> {
        self.0.write_all(bytes)?;
        Ok(self.0.flush()?)
    }

    fn flush(&mut self) -> Result<()> {
        Ok(self.0.flush()?)
    }
}

fn main(rt: HostRuntime) -> io::Result<ExitCode> {
    if let Err(status) = reserve_descriptors(&rt) {
        eprintln!(rt; "leveldbutil: {}", status.code)?;
        return Ok(ExitCode::from(1));
    }
    let mut compressors = CompressorList::default();
    let snappy = Box::new(rt.alloc(), Snappy)?;
    if let Err(status) = compressors.set::<Snappy>(rt.alloc(), snappy) {
        eprintln!(rt; "leveldbutil: {}", status.code)?;
        return Ok(ExitCode::from(1));
    }
    let words: Vec<String> = env::args(&rt)?.skip(1).collect(rt.alloc())?;
    let mut files = PosixDiskEnv::new(&rt);
    let status = util_main(
        rt.alloc(),
        &mut files,
        &compressors,
        &words,
        &mut Output(rt.stdout()),
        &mut rt.stderr(),
    );
    Ok(ExitCode::from(status))
}
