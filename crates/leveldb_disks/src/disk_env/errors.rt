//! The errors of the system as statuses, whose texts name the file.
// LevelDB: util/env_posix.cc, PosixError
ghost use Rattle.std.specs.Prelude.{◌≡◌, None, IfSome, string_bytes};
ghost use Rattle.leveldb_base.specs.Error.{status_text};
ghost use Rattle.leveldb_base.specs.declared.error.StatusCode.TheVariants.{OutOfMemory};
ghost use Rattle.leveldb_disks.specs.DiskEnv.{failed_call, NamesCall};

use leveldb_base::error::{Status, StatusCode};
use std::alloc::{AllocError, Global};
use std::io;

/// The code of an error: `OutOfMemory` where memory was short.
pub(super) fn code_of(error: io::Error) -> StatusCode {
    if error.kind() == io::ErrorKind::OutOfMemory {
        StatusCode::OutOfMemory
    } else {
        Status::from(error).code
    }
}

/// A status with the code, whose text says what was being done to which name, and why it failed,
/// where there is memory for it.
#[cold]
pub(super) fn describe(
    alloc: Global,
    code: StatusCode,
    doing: &str,
    name: &str,
    why: &str,
) -> Status
    ensures code { result.code ≡ code }
    ensures text { IfSome result.err (λ text. string_bytes text
        ≡ status_text code (failed_call doing.now name.now why.now)) }
{
    match format!(in alloc; "{doing} {name}: {why}") {
        Ok(msg) => Status::new(alloc, code, msg.as_str()),
        Err(_) => Status { code, err: None },
    }
}

/// The same with what the system says of the error; out of memory has no text.
#[cold]
pub(super) fn status_of(
    alloc: Global,
    code: StatusCode,
    doing: &str,
    name: &str,
    error: io::Error,
) -> Status
    ensures code { result.code ≡ code }
    ensures text { NamesCall doing.now name.now result }
    ensures memory { code ≡ OutOfMemory → result.err ≡ None }
{
    if code == StatusCode::OutOfMemory {
        return Status::from(AllocError);
    }
    match format!(in alloc; "{error}") {
        Ok(why) => describe(alloc, code, doing, name, why.as_str()),
        Err(_) => Status { code, err: None },
    }
}
