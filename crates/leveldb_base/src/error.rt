//! Errors: a code that names the cause, and a text for the reader.
// LevelDB: util/status.cc
ghost use Rattle.std.specs.Prelude.{◌≡◌, Some, None, IfOk, IfSome, IsErrAnd, string_bytes};
ghost use Rattle.leveldb_base.specs.Error.{status_text, text_of, annotated};

use std::alloc::{AllocError, AllocFailed, Global};
use std::error::Error;
use std::{fmt, io};

/// The kind of an error.
#[derive(Clone, Copy, Debug, PartialEq, Eq)]
pub enum StatusCode {
    /// No error.
    OK,
    /// What is to be added is there.
    AlreadyExists,
    /// A file isn't what its format or its checksum says.
    Corruption,
    /// A compressor failed.
    CompressionError,
    /// The device, or the system below, failed.
    IOError,
    /// An operand doesn't fit, or the store is closed.
    InvalidArgument,
    /// Data don't fit; no call of these crates returns it.
    InvalidData,
    /// A lock is held, or it isn't.
    LockError,
    /// There is no such file or key.
    NotFound,
    /// A number is too large for its format, or what is asked for isn't there in this version.
    NotSupported,
    /// The system doesn't allow it.
    PermissionDenied,
    /// The cause isn't known; no call of these crates returns it.
    Unknown,
    /// An allocation failed.
    OutOfMemory,
}

impl fmt::Display for StatusCode {
    ghost use Rattle.leveldb_base.specs.Error.{code_text};

    ghost output = { λ code. Some (code_text code) };

    fn fmt<W: fmt::Write>(&self, f: &mut fmt::Formatter<W>) -> fmt::Result {
        f.write_str(match self {
            StatusCode::OK => "OK",
            StatusCode::AlreadyExists => "AlreadyExists",
            StatusCode::Corruption => "Corruption",
            StatusCode::CompressionError => "CompressionError",
            StatusCode::IOError => "IOError",
            StatusCode::InvalidArgument => "InvalidArgument",
            StatusCode::InvalidData => "InvalidData",
            StatusCode::LockError => "LockError",
            StatusCode::NotFound => "NotFound",
            StatusCode::NotSupported => "NotSupported",
            StatusCode::PermissionDenied => "PermissionDenied",
            StatusCode::Unknown => "Unknown",
            StatusCode::OutOfMemory => "OutOfMemory",
        })
    }
}

/// An error: its code, and its text, where there was memory for one. No text is the empty text.
#[derive(Clone, Debug, Drop, PartialEq)]
pub struct Status {
    pub code: StatusCode,
    pub err: Option<String>,
}

/// The result of a call that can fail.
pub type Result<T> = std::result::Result<T, Status>;

impl Status {
    /// A status with the text `Code: msg`, or `Code` for an empty message.
    /// Where there is no memory for the text, the status has the code alone.
    pub fn new(alloc: Global, code: StatusCode, msg: &str) -> Status
        ensures code { result.code ≡ code }
        ensures text { IfSome result.err (λ text. string_bytes text ≡ status_text code msg.now) }
    {
        let text = if msg.is_empty() {
            format!(in alloc; "{code}")
        } else {
            format!(in alloc; "{code}: {msg}")
        };
        Status {
            code,
            err: text.ok(),
        }
    }

    /// The same status with `msg: ` before its text.
    /// Where there is no memory for the new text, the status has the code alone.
    pub fn annotate(self, alloc: Global, msg: &str) -> Status
        ensures code { result.code ≡ self.code }
        ensures text { IfSome result.err (λ text. string_bytes text
            ≡ annotated msg.now (text_of self.err)) }
    {
        let text = match &self.err {
            None => annotated_text(alloc, msg, ""),
            Some(text) => annotated_text(alloc, msg, text.as_str()),
        };
        Status {
            code: self.code,
            err: text.ok(),
        }
    }
}

fn annotated_text(alloc: Global, msg: &str, text: &str) -> std::result::Result<String, AllocError>
    ensures { IfOk result (λ made. string_bytes made ≡ annotated msg.now text.now) }
{
    format!(in alloc; "{msg}: {text}")
}

/// An error with this code and message.
pub fn err<T>(alloc: Global, code: StatusCode, msg: &str) -> Result<T>
    ensures code { IsErrAnd result (λ status. status.code ≡ code) }
    ensures text { IsErrAnd result (λ status. IfSome status.err (λ text. string_bytes text
        ≡ status_text code msg.now)) }
{
    Err(Status::new(alloc, code, msg))
}

/// Prints the text.
impl fmt::Display for Status {
    ghost output = { λ status. Some (text_of status.err) };

    fn fmt<W: fmt::Write>(&self, f: &mut fmt::Formatter<W>) -> fmt::Result {
        match &self.err {
            None => Ok(()),
            Some(text) => f.write_str(text.as_str()),
        }
    }
}

impl Error for Status {}

/// `OK`, with no text.
impl Default for Status {
    ghost use Rattle.leveldb_base.specs.declared.error.StatusCode.TheVariants.{OK};

    ghost is_default = { λ status. (status.code ≡ OK) × (status.err ≡ None) };

    fn default() -> Status {
        Status {
            code: StatusCode::OK,
            err: None,
        }
    }
}

/// Out of memory, with no text.
impl From<AllocError> for Status {
    ghost use Rattle.leveldb_base.specs.declared.error.StatusCode.TheVariants.{OutOfMemory};

    ghost from_gives = { λ _ status. (status.code ≡ OutOfMemory) × (status.err ≡ None) };

    fn from(_error: AllocError) -> Status {
        Status {
            code: StatusCode::OutOfMemory,
            err: None,
        }
    }
}

/// Out of memory, with no text.
impl<T: Drop> From<AllocFailed<T>> for Status {
    ghost use Rattle.leveldb_base.specs.declared.error.StatusCode.TheVariants.{OutOfMemory};

    ghost from_gives = { λ _ status. (status.code ≡ OutOfMemory) × (status.err ≡ None) };

    fn from(_error: AllocFailed<T>) -> Status {
        Status {
            code: StatusCode::OutOfMemory,
            err: None,
        }
    }
}

/// The code for the error's kind, with no text.
impl From<io::Error> for Status {
    ghost from_gives = { λ _ status. status.err ≡ None };

    fn from(error: io::Error) -> Status {
        let code = match error.kind() {
            io::ErrorKind::NotFound => StatusCode::NotFound,
            io::ErrorKind::InvalidData => StatusCode::Corruption,
            io::ErrorKind::InvalidInput => StatusCode::InvalidArgument,
            io::ErrorKind::PermissionDenied => StatusCode::PermissionDenied,
            _ => StatusCode::IOError,
        };
        Status { code, err: None }
    }
}
