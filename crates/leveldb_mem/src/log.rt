//! The record log, in LevelDB's format. A file is blocks of one size. A block has fragments: a
//! masked checksum of what follows the length (4 bytes), the length of the data (2), a type (1),
//! the data. A record is one Full fragment, or a First, any Middles and a Last; a fragment is
//! within one block. Fewer than 7 bytes at a block's end are zeros.
// LevelDB: db/log_format.h
ghost use Rattle.std.specs.Prelude.{◌≡◌};
ghost use Rattle.leveldb_mem.specs.Log.{record_type};

mod files;
mod log_file;
mod reader;
mod writer;

pub use files::read_log_file;
pub use log_file::LogFile;
pub use reader::{Found, LogReader, ReaderCore, read_records};
pub use writer::{LogWriter, WriterCore};

/// The size of a block where no other is given.
pub const BLOCK_SIZE: usize = 32 * 1024;

/// The length of a fragment's header: checksum, length and type.
pub const HEADER_SIZE: usize = 4 + 2 + 1;

/// Which part of its record a fragment has.
#[derive(Clone, Copy, Debug, PartialEq, Eq)]
pub enum RecordType {
    /// The whole record.
    Full = 1,
    /// The first of several parts.
    First = 2,
    /// A part between the first and the last.
    Middle = 3,
    /// The last of several parts.
    Last = 4,
}

// The type of a part, as a number, by whether it is the record's first and its last.
fn type_of(first: bool, last: bool) -> u8
    ensures { result ≡ record_type first last }
{
    let kind = match (first, last) {
        (true, true) => RecordType::Full,
        (true, false) => RecordType::First,
        (false, false) => RecordType::Middle,
        (false, true) => RecordType::Last,
    };
    kind as u8
}
