//! Errors whose texts name a file.
// LevelDB: util/env_posix.cc, PosixError
ghost use Rattle.std.specs.Prelude.{◌≡◌, IfSome, IsErrAnd, string_bytes};
ghost use Rattle.leveldb_base.specs.Error.{status_text, annotated};

use leveldb_base::error::{Result, Status, StatusCode};
use std::alloc::Global;

/// An error whose text says what is wrong with which name, where there is memory for it.
#[cold]
pub fn refuse<T>(alloc: Global, code: StatusCode, what: &str, name: &str) -> Result<T>
    ensures code { IsErrAnd result (λ status. status.code ≡ code) }
    ensures text { IsErrAnd result
        (λ status. IfSome status.err
        (λ text. string_bytes text ≡ status_text code (annotated what.now name.now))) }
{
    let Ok(msg) = format!(in alloc; "{what}: {name}") else {
        return Err(Status { code, err: None });
    };
    Err(Status::new(alloc, code, msg.as_str()))
}
