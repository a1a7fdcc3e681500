//! What is left out of a log or a manifest, which is read up to its first bad end.
// LevelDB: db/db_impl.cc, LogReporter of DBImpl::RecoverLogFile
ghost use Rattle.std.specs.Prelude.{◌≡◌, ◌≤◌, ◌<◌, ◌+◌, ◌*◌, ◌^◌, ◌↔◌, ◌⊎◌, ◌++◌, All, IfNone, IfSome, IsSomeAnd, IsTrue, List, false, length, slice_index, true, ℕ};
ghost use Rattle.leveldb_mem.specs.Log.{Fragment, NoFragment, filler, log_block_size, room};
ghost use Rattle.leveldb_mem.specs.Log.Taking.{HasRightChecksum, declared_length};
ghost use Rattle.leveldb_store.specs.Logs.Damage.{AreWholeUpTo, ContinuesRecord, HasBegun, HasEndFrom, IsHeaded, IsOfKind, IsWholeFront, LosesRecords, NoneGoesOn, StartsWithEnd, parts_after};

use leveldb_base::crc::{crc32, mask_crc};
use leveldb_mem::log::{BLOCK_SIZE, HEADER_SIZE};

/// What comes after the first bad end of a log's bytes.
#[derive(Clone, Copy, Debug, PartialEq, Eq)]
pub struct LeftOut {
    /// The offset after the last whole record before that end.
    pub from: usize,
    /// How many bytes there are from there on.
    pub count: usize,
    /// Whether a whole record is among them, or the last part of one.
    pub has_records: bool,
}

// A whole fragment: its type, whether it has data, and how many bytes it has with the filler before
// it.
#[derive(Clone, Copy)]
struct Whole {
    kind: u8,
    has_data: bool,
    count: usize,
}

// How far the fragments of a log are whole and in their places.
#[derive(Clone, Copy)]
struct Scan {
    // The offset after the last of them.
    end: usize,
    // The offset after the last of them that ends a record.
    records_end: usize,
    // Whether a record has begun that none of them ends.
    is_open: bool,
    // Whether that record has data so far.
    has_data: bool,
    // Whether the next one is whole, and can't come there: nor may a record end that has no data.
    is_misplaced: bool,
}

/// What comes after the first bad end of these bytes, a log's, if they have one. It has records
/// exactly if the log loses some. None where this end is torn, as a crash leaves it: the bytes end
/// in a fragment, or in zeros in its place, and no record ends after it.
pub fn left_out(text: &[u8]) -> Option<LeftOut>
    ensures loses { LosesRecords text.now → IsSomeAnd result (λ left. IsTrue left.has_records) }
    ensures lost { IfSome result (λ left. IsTrue left.has_records → LosesRecords text.now) }
    ensures counts { IfSome result (λ left. left.from + left.count ≡ length text.now) }
{
    let scan = scan_of(text, usize::MAX);
    let rest = &text[scan.end..];
    let has_records = has_end_from(text, scan.end);
    if !has_records && !scan.is_misplaced && is_torn(rest, scan.end % BLOCK_SIZE) {
        return None;
    }
    Some(LeftOut {
        from: scan.records_end,
        count: text.len() - scan.records_end,
        has_records,
    })
}

/// What comes after the first `records` records of these bytes, a log's, or after all that there
/// are up to its first bad end.
pub fn left_after(text: &[u8], records: usize) -> LeftOut
    ensures { result.from + result.count ≡ length text.now }
{
    let scan = scan_of(text, records);
    LeftOut {
        from: scan.records_end,
        count: text.len() - scan.records_end,
        has_records: has_end_from(text, scan.records_end),
    }
}

// Goes through the fragments of a log, up to one that isn't whole or can't come there, or to the
// end of so many records.
fn scan_of(text: &[u8], records: usize) -> Scan
    ensures whole { AreWholeUpTo text.now result.end result.is_open result.has_data }
    ensures within { result.end ≤ length text.now }
    ensures stops { (2 * records ≤ length text.now)
        ⊎ NoneGoesOn text.now result.end result.is_open result.has_data }
    ensures records { result.records_end ≤ result.end }
{
    let mut left = records;
    let mut scan = Scan {
        end: 0,
        records_end: 0,
        is_open: false,
        has_data: false,
        is_misplaced: false,
    };
    while let Some(found) = whole_at(&text[scan.end..], scan.end % BLOCK_SIZE) {
        if left == 0 {
            return scan;
        }
        if !scan.may_take(found) {
            scan.is_misplaced = true;
            return scan;
        }
        scan.take(found);
        left -= usize::from(!scan.is_open);
    }
    scan
}

impl Scan {
    // Whether a fragment may come next.
    fn may_take(&self, found: Whole) -> bool
        ensures { (parts : List (List ℕ)) → HasBegun parts self.now.is_open self.now.has_data
            → (fragment : Fragment) → IsOfKind fragment found.kind found.has_data
            → IsTrue result ↔ ContinuesRecord parts fragment }
    {
        match found.kind {
            1 => !self.is_open && found.has_data,
            2 => !self.is_open,
            3 => self.is_open,
            4 => self.is_open && (self.has_data || found.has_data),
            _ => false,
        }
    }

    // Goes on after a fragment.
    fn take(&mut self, found: Whole)
        requires fits { self.old.end + found.count < 2 ^ 64 }
        requires records { self.old.records_end ≤ self.old.end }
        ensures end { self.new.end ≡ self.old.end + found.count }
        ensures records { self.new.records_end ≤ self.new.end }
        ensures begun { (parts : List (List ℕ)) → HasBegun parts self.old.is_open self.old.has_data
            → (fragment : Fragment) → IsOfKind fragment found.kind found.has_data
            → HasBegun (parts_after parts fragment) self.new.is_open self.new.has_data }
    {
        self.end += found.count;
        self.is_open = !is_last(found.kind);
        self.has_data = self.is_open && (self.has_data || found.has_data);
        if !self.is_open {
            self.records_end = self.end;
        }
    }
}

// Whether at this offset or after it a whole fragment begins that ends a record.
fn has_end_from(text: &[u8], from: usize) -> bool
    ensures { IsTrue result ↔ HasEndFrom text.now from }
{
    for at in from..text.len() {
        if starts_with_end(&text[at..], at % BLOCK_SIZE) {
            return true;
        }
    }
    false
}

// Whether the bytes, from this offset of a block on, begin with a whole fragment that ends a
// record.
fn starts_with_end(rest: &[u8], offset: usize) -> bool
    requires { offset < log_block_size }
    ensures { IsTrue result ↔ StartsWithEnd offset rest.now }
{
    let Some(body) = after_filler(rest, offset) else {
        return false;
    };
    let Some(fragment) = headed(body, offset) else {
        return false;
    };
    is_last(fragment[6]) && has_right_checksum(fragment)
}

// The whole fragment with which the bytes begin, from this offset of a block on.
fn whole_at(rest: &[u8], offset: usize) -> Option<Whole>
    requires { offset < log_block_size }
    ensures whole { IfSome result (λ found. IsWholeFront offset rest.now found.count found.kind
        found.has_data) }
    ensures within { IfSome result (λ found. found.count ≤ length rest.now) }
    ensures some { IfSome result (λ found. 7 ≤ found.count) }
    ensures none { IfNone result (NoFragment true log_block_size offset rest.now) }
{
    let body = after_filler(rest, offset)?;
    let fragment = headed(body, offset)?;
    if !has_right_checksum(fragment) {
        return None;
    }
    Some(Whole {
        kind: fragment[6],
        has_data: fragment.len() > HEADER_SIZE,
        count: rest.len() - body.len() + fragment.len(),
    })
}

// The bytes after the filler that comes at this offset of a block.
fn after_filler(rest: &[u8], offset: usize) -> Option<&[u8]>
    requires { offset < log_block_size }
    ensures none { IfNone result (NoFragment false log_block_size offset rest.now) }
    ensures some { IfSome result (λ body. rest.now ≡ filler log_block_size offset ++ body.now) }
{
    let space = BLOCK_SIZE - offset;
    if space >= HEADER_SIZE {
        return Some(rest);
    }
    let (zeros, body) = rest.split_at_checked(space)?;
    if !are_zeros(zeros) {
        return None;
    }
    Some(body)
}

// The fragment with which the bytes begin after the filler that comes at this offset of a block,
// whatever its checksum is.
fn headed(body: &[u8], offset: usize) -> Option<&[u8]>
    requires { offset < log_block_size }
    ensures none { IfNone result
        (NoFragment false log_block_size offset (filler log_block_size offset ++ body.now)) }
    ensures some { IfSome result (λ fragment. IsHeaded offset body.now fragment.now) }
    ensures header { IfSome result (λ fragment. 7 ≤ length fragment.now) }
{
    if body.len() < HEADER_SIZE {
        return None;
    }
    let count = data_length(body);
    if count > room_at(offset) {
        return None;
    }
    let (fragment, _) = body.split_at_checked(HEADER_SIZE + count)?;
    Some(fragment)
}

// How many bytes of data the fragment with this header has.
fn data_length(header: &[u8]) -> usize
    requires { 7 ≤ length header.now }
    ensures stated { result ≡ declared_length header.now }
    ensures bytes { slice_index header.now 4 < 256 × (slice_index header.now 5 < 256) }
{
    usize::from(header[4]) + 256 * usize::from(header[5])
}

// The most data that a fragment has at this offset of a block.
fn room_at(offset: usize) -> usize
    requires { offset < log_block_size }
    ensures { result ≡ room log_block_size offset }
{
    let space = BLOCK_SIZE - offset;
    if space < HEADER_SIZE {
        return BLOCK_SIZE - HEADER_SIZE;
    }
    space - HEADER_SIZE
}

// Whether the bytes that are left, from this offset of a block on, are the first part of a
// fragment, or zeros, as a crash leaves them.
fn is_torn(rest: &[u8], offset: usize) -> bool
    requires { offset < log_block_size }
{
    if are_zeros(rest) {
        return true;
    }
    let Some(body) = after_filler(rest, offset) else {
        return false;
    };
    if body.len() < HEADER_SIZE {
        return true;
    }
    let count = data_length(body);
    count <= room_at(offset) && body.len() < HEADER_SIZE + count
}

fn are_zeros(bytes: &[u8]) -> bool
    ensures { IsTrue result ↔ All (λ byte. byte ≡ 0) bytes.now }
{
    bytes.iter().all(|byte| *byte == 0)
}

// Whether a fragment of this type is the last of its record.
fn is_last(kind: u8) -> bool
    ensures { IsTrue result ↔ ((kind ≡ 1) ⊎ (kind ≡ 4)) }
{
    kind == 1 || kind == 4
}

// Whether the header's checksum is that of the fragment.
fn has_right_checksum(fragment: &[u8]) -> bool
    requires { 7 ≤ length fragment.now }
    ensures { IsTrue result ↔ HasRightChecksum fragment.now }
{
    let sum = mask_crc(crc32(&fragment[6..])).to_le_bytes();
    fragment[..4] == sum[..]
}
