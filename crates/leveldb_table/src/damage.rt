//! Texts of damage: which part of a table is damaged, at which offset of its file, and how.
ghost use Rattle.std.specs.Prelude.{◌≡◌, ◌⊎◌, IsErrAnd};
ghost use Rattle.leveldb_base.specs.Error.{IsOutOfMemory};
ghost use Rattle.leveldb_base.specs.declared.error.StatusCode.TheVariants.{Corruption};

use leveldb_base::error::{Result, Status, StatusCode};
use std::alloc::Global;

// An error of damage that says this, or nothing.
fn damage<T>(text: Option<String>) -> Result<T>
    ensures { IsErrAnd result (λ status. status.code ≡ Corruption) }
{
    Err(Status {
        code: StatusCode::Corruption,
        err: text,
    })
}

/// An error as `Corruption: block at 1234: wrong checksum`, without the text where there is no
/// memory for it.
#[cold]
pub(crate) fn corruption<T>(alloc: Global, part: &str, offset: usize, how: &str) -> Result<T>
    ensures { IsErrAnd result (λ status. status.code ≡ Corruption) }
{
    damage(format!(in alloc; "Corruption: {part} at {offset}: {how}").ok())
}

/// An error as `Corruption: table of 47 bytes: too short for a footer`, without the text where
/// there is no memory for it.
#[cold]
pub(crate) fn too_short<T>(alloc: Global, size: usize) -> Result<T>
    ensures { IsErrAnd result (λ status. status.code ≡ Corruption) }
{
    damage(format!(in alloc; "Corruption: table of {size} bytes: too short for a footer").ok())
}

/// An error of what was read from this offset: one of damage gets a text that says where, and each
/// other is as it was.
#[cold]
pub(crate) fn located<T>(
    alloc: Global,
    status: Status,
    part: &str,
    offset: usize,
    how: &str,
) -> Result<T>
    ensures { IsErrAnd result
        (λ other. (other ≡ status) ⊎ ((status.code ≡ Corruption) × (other.code ≡ Corruption))) }
{
    if status.code == StatusCode::Corruption {
        return corruption(alloc, part, offset, how);
    }
    Err(status)
}
