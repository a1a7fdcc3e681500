//! A compressor of one's own, and any compressor at work.
ghost use Rattle.std.specs.Prelude.{◌≡◌, ◌+◌, ◌%◌, ◌⊎◌, Some, false, map, IfOk, IfErr};
ghost use Rattle.leveldb_base.specs.Error.{IsOutOfMemory};
ghost use Rattle.leveldb_env.specs.Compressor.{IsEncodeError};

use leveldb_base::error::Result;
use leveldb_env::compressor::{Compressor, CompressorId, CompressorList};
use std::alloc::Global;

/// Adds 1 modulo 256 to each byte.
#[derive(Clone, Copy)]
struct Shift;

impl CompressorId for Shift {
    ghost ID = { 7 };

    const ID: u8 = 7;
}

impl Compressor for Shift {
    ghost coding = { λ _. record {
      decoded = λ stored. Some (map
          (λ byte. (byte + 255) % 256) stored);
      encode_fails = λ block code. false;
      decode_fails = λ stored code. false;
    } };

    fn encode(&self, alloc: Global, block: Vec<u8>) -> Result<Vec<u8>> {
        let mut stored = Vec::new(alloc);
        for byte in &block {
            stored.push(byte.wrapping_add(1))?;
        }
        Ok(stored)
    }

    fn decode(&self, alloc: Global, stored: Vec<u8>) -> Result<Vec<u8>> {
        let mut block = Vec::new(alloc);
        for byte in &stored {
            block.push(byte.wrapping_add(255))?;
        }
        Ok(block)
    }
}

/// A block that is stored and read again, by any compressor. An error is that of encoding this
/// very block, or out of memory.
fn read_again<C: Compressor>(compressor: C, alloc: Global, block: Vec<u8>) -> Result<Vec<u8>>
    ensures same { IfOk result (λ read. read.items ≡ block.items) }
    ensures cause { IfErr result
        (λ status. IsOutOfMemory status
        ⊎ IsEncodeError (C.coding compressor) block.items status) }
{
    let stored = compressor.encode(alloc, block)?;
    compressor.decode(alloc, stored)
}

#[test]
fn of_a_list(rt: HostRuntime) -> Result<()> {
    let alloc = rt.alloc();
    let mut list = CompressorList::default();
    list.set::<Shift>(alloc, Box::new(alloc, Shift)?)?;
    list.set_with_id(alloc, 9, Box::new(alloc, Shift)?)?;
    let read = read_again(list.get(alloc, 7)?, alloc, b"abc".to_vec(alloc)?)?;
    assert!(rt; list.is_set(9) && read.as_slice() == b"abc".as_slice());
    Ok(())
}
