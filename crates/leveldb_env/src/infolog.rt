//! Where a store says what it does, in lines for a reader.
// LevelDB: include/leveldb/env.h, Logger

use leveldb_base::error::Result;
use std::alloc::Global;
use std::fmt::Display;

/// What takes the lines.
pub trait InfoSink: Drop {
    /// Takes a line, with its newline.
    fn write(&mut self, line: &[u8]) -> Result<()>;
}

/// A sink, in a box that the caller makes.
#[derive(Drop)]
pub struct Logger(pub Box<dyn InfoSink>);

impl Logger {
    /// Hands the sink a text as a line. The line is lost if the sink fails or there is no memory
    /// for it, which is no error.
    pub fn log<D: Display + Drop>(&mut self, alloc: Global, text: D) {
        if let Ok(line) = format!(in alloc; "{text}\n") {
            let _ = self.0.write(line.as_bytes());
        }
    }
}

/// Hands a line to the sink of an `Option<Logger>`, as `log!(logger, alloc; "{count} files")`, and
/// does nothing where there is none.
#[macro_export]
macro_rules! log {
    ($logger:expr, $alloc:expr; $($arg:tt)*) => {
        if let Some(logger) = &mut $logger {
            logger.log($alloc, format_args!($($arg)*));
        }
    };
}
