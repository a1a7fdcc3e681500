//! Laws of the definitions, each the contract of a function that does nothing: a filter block has
//! one reading, and a key that was added passes.
ghost use Rattle.leveldb_env.specs.FilterBlock.{FilterBlocksAreInjective, FilterBlocksAreUnique, KeepsKeys};

use crate::filter::FilterPolicy;

/// Bytes are a filter block in one way, and filters have one block.
pub fn filter_blocks_have_one_reading()
    ensures reading { FilterBlocksAreInjective }
    ensures encoding { FilterBlocksAreUnique }
{}

/// A key that was added for a block passes in the finished filter block at the block's offset: its
/// filter is open when the block begins, and whatever is added or begun after that, it is kept.
pub fn added_keys_pass<FP: FilterPolicy>(_policy: &FP)
    ensures { KeepsKeys FP FP.filter_for FP.matches }
{}
