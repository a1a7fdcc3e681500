//! The lines that are printed: they are gathered, and put into a sink in large pieces.
ghost use Rattle.std.specs.Prelude.{◌≡◌, IfErr};
ghost use Rattle.leveldb_inspect.specs.Inspect.{IsOutputError};

use leveldb_base::error::{Result, Status};
use leveldb_env::env::Sink;
use std::alloc::Global;

// So many bytes are gathered before they are put.
const PIECE_SIZE: usize = 1 << 16;

const HEX_DIGITS: [u8; 16] = *b"0123456789abcdef";

/// How keys and values are printed.
#[derive(Clone, Copy, Debug, PartialEq, Eq)]
pub enum Style {
    /// Each byte from the space to `~` as it is, and others as `\x0a`.
    Escaped,
    /// Each byte as two digits.
    Hex,
}

/// Lines on their way to a sink. What is printed is in the sink only after `flush`.
#[derive(Drop)]
pub struct Lines<O: Sink> {
    out: O,
    alloc: Global,
    style: Style,
    gathered: Vec<u8>,
    has_faults: bool,
}

impl<O: Sink> Lines<O> {
    /// No lines yet, for this sink.
    pub fn new(alloc: Global, out: O, style: Style) -> Lines<O> {
        Lines {
            out,
            alloc,
            style,
            gathered: Vec::new(alloc),
            has_faults: false,
        }
    }

    /// Whether a line said that something is wrong.
    pub fn has_faults(&self) -> bool {
        self.has_faults
    }

    /// Notes that something is wrong.
    pub(crate) fn set_faulty(&mut self) {
        self.has_faults = true;
    }

    /// Puts what was gathered into the sink.
    pub fn flush(&mut self) -> Result<()>
        ensures cause { IfErr result (IsOutputError O.Sink) }
    {
        self.out.put_all(&self.gathered)?;
        self.gathered.clear();
        Ok(())
    }

    /// Adds a text as it is.
    pub(crate) fn text(&mut self, text: &str) -> Result<()>
        ensures cause { IfErr result (IsOutputError O.Sink) }
    {
        self.gathered.extend_from_slice(text.as_bytes())?;
        Ok(())
    }

    /// Adds a number in decimal.
    pub(crate) fn number(&mut self, number: u64) -> Result<()>
        ensures cause { IfErr result (IsOutputError O.Sink) }
    {
        let mut digits = [b'0'; 20];
        let first = write_digits(number, &mut digits);
        self.gathered
            .extend_from_slice(digits.get(first..).unwrap_or_default())?;
        Ok(())
    }

    /// Adds bytes in the style of these lines.
    pub(crate) fn bytes(&mut self, bytes: &[u8]) -> Result<()>
        ensures cause { IfErr result (IsOutputError O.Sink) }
    {
        for byte in bytes {
            self.byte(*byte)?;
        }
        Ok(())
    }

    // Adds one byte.
    fn byte(&mut self, byte: u8) -> Result<()>
        ensures cause { IfErr result (IsOutputError O.Sink) }
    {
        match self.style {
            Style::Escaped if (b' '..=b'~').contains(&byte) => self.gathered.push(byte)?,
            Style::Escaped => {
                self.gathered.extend_from_slice(b"\\x")?;
                self.digits(byte)?;
            }
            Style::Hex => self.digits(byte)?,
        }
        Ok(())
    }

    // Adds one byte as two digits.
    fn digits(&mut self, byte: u8) -> Result<()>
        ensures cause { IfErr result (IsOutputError O.Sink) }
    {
        let high = HEX_DIGITS[usize::from(byte / 16)];
        let low = HEX_DIGITS[usize::from(byte % 16)];
        self.gathered.extend_from_slice(&[high, low])?;
        Ok(())
    }

    /// Adds bytes in the style of these lines, between quotes.
    pub(crate) fn quoted(&mut self, bytes: &[u8]) -> Result<()>
        ensures cause { IfErr result (IsOutputError O.Sink) }
    {
        self.text("'")?;
        self.bytes(bytes)?;
        self.text("'")
    }

    /// Ends a line.
    pub(crate) fn end(&mut self) -> Result<()>
        ensures cause { IfErr result (IsOutputError O.Sink) }
    {
        self.gathered.push(b'\n')?;
        if self.gathered.len() >= PIECE_SIZE {
            self.flush()?;
        }
        Ok(())
    }

    /// Adds what a status says: its text, or its code where it has none.
    pub(crate) fn status(&mut self, status: &Status) -> Result<()>
        ensures cause { IfErr result (IsOutputError O.Sink) }
    {
        match &status.err {
            Some(text) => self.text(text),
            None => {
                let code = format!(in self.alloc; "{}", status.code)?;
                self.text(&code)
            }
        }
    }

    /// Begins a line that says what is wrong with a file.
    pub(crate) fn begin_fault(&mut self, name: &str) -> Result<()>
        ensures cause { IfErr result (IsOutputError O.Sink) }
    {
        self.has_faults = true;
        self.text(name)?;
        self.text(": ")
    }

    /// The same of what is at an offset of it.
    pub(crate) fn begin_fault_at(&mut self, name: &str, offset: usize) -> Result<()>
        ensures cause { IfErr result (IsOutputError O.Sink) }
    {
        self.has_faults = true;
        self.begin_note(name, offset)
    }

    /// Begins a line on what is at an offset of a file, which needn't be wrong.
    pub(crate) fn begin_note(&mut self, name: &str, offset: usize) -> Result<()>
        ensures cause { IfErr result (IsOutputError O.Sink) }
    {
        self.text(name)?;
        self.text(": offset ")?;
        self.number(offset as u64)?;
        self.text(": ")
    }

    /// A line that says what is wrong with a file.
    pub(crate) fn fault(&mut self, name: &str, reason: &str) -> Result<()>
        ensures cause { IfErr result (IsOutputError O.Sink) }
    {
        self.begin_fault(name)?;
        self.text(reason)?;
        self.end()
    }

    /// A line that says for which cause a file, or a part of it, wasn't read.
    pub(crate) fn failure(&mut self, name: &str, status: &Status) -> Result<()>
        ensures cause { IfErr result (IsOutputError O.Sink) }
    {
        self.begin_fault(name)?;
        self.status(status)?;
        self.end()
    }
}

// Writes the digits of a number at the end of the array, and returns where they begin.
fn write_digits(number: u64, digits: &mut [u8; 20]) -> usize {
    let mut left = number;
    for at in (0..20).rev() {
        digits[at] = b'0' + (left % 10) as u8;
        left /= 10;
        if left == 0 {
            return at;
        }
    }
    0
}
