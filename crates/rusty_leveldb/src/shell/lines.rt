//! The lines of the command language: one command each, without its newline.
ghost use Rattle.std.specs.Prelude.{◌≡◌, ◌≢◌, ◌∷◌, ◌++◌, [], ℕ, Bool, false, List, IfOk, MatchOption, codes};
ghost use Rattle.hex.specs.Hex.{is_hex_digit};
ghost use Rattle.rusty_leveldb.specs.Programs.Language.{sync_word, HasBytes, IsLine};
ghost use Rattle.rusty_leveldb.specs.Programs.Readings.{IsPairReading, IsItemReading, IsItemsReading, IsLineReading};

use super::commands::{Command, Item};
use super::walks::read_walk;
use super::words::{after, read_number, read_word, split_once};
use std::alloc::{AllocError, Global};

/// The command that a line encodes, or none where it encodes none. Fails out of memory.
pub(super) fn read_line(alloc: Global, line: &[u8]) -> Result<Option<Command>, AllocError>
    ensures { IfOk result (IsLineReading line.now) }
{
    if let Some(command) = read_name(line) {
        return Ok(Some(command));
    }
    if let Some(words) = after(line, b"put ") {
        return read_put(alloc, words);
    }
    if let Some(word) = after(line, b"del ") {
        return read_delete(alloc, word);
    }
    if let Some(words) = after(line, b"write ") {
        return read_write(alloc, words);
    }
    if let Some(word) = after(line, b"get ") {
        return read_get(alloc, word);
    }
    if let Some(words) = after(line, b"getat ") {
        return read_get_at(alloc, words);
    }
    if let Some(digits) = after(line, b"release ") {
        return Ok(read_release(digits));
    }
    if let Some(words) = after(line, b"compact ") {
        return read_compact(alloc, words);
    }
    match after(line, b"walk ") {
        Some(words) => read_walk(alloc, words),
        None => Ok(None),
    }
}

// The command that is a name alone.
fn read_name(line: &[u8]) -> Option<Command>
    ensures { MatchOption result
        ((line.now ≢ codes "snap") × (line.now ≢ codes "flush") × (line.now ≢ codes "close"))
        (λ one. HasBytes one × IsLine line.now one) }
{
    if line == b"snap".as_slice() {
        Some(Command::Snap)
    } else if line == b"flush".as_slice() {
        Some(Command::Flush)
    } else if line == b"close".as_slice() {
        Some(Command::Close)
    } else {
        None
    }
}

// A put, by the words after its name.
fn read_put(alloc: Global, words: &[u8]) -> Result<Option<Command>, AllocError>
    ensures { IfOk result (IsLineReading (codes "put " ++ words.now)) }
{
    let Some(pair) = read_pair(alloc, words, b' ')? else {
        return Ok(None);
    };
    Ok(Some(Command::Put(pair.0, pair.1)))
}

// A compaction, by the words after its name.
fn read_compact(alloc: Global, words: &[u8]) -> Result<Option<Command>, AllocError>
    ensures { IfOk result (IsLineReading (codes "compact " ++ words.now)) }
{
    let Some(pair) = read_pair(alloc, words, b' ')? else {
        return Ok(None);
    };
    Ok(Some(Command::Compact(pair.0, pair.1)))
}

// A delete, by the word after its name.
fn read_delete(alloc: Global, word: &[u8]) -> Result<Option<Command>, AllocError>
    ensures { IfOk result (IsLineReading (codes "del " ++ word.now)) }
{
    let Some(key) = read_word(alloc, word)? else {
        return Ok(None);
    };
    Ok(Some(Command::Delete(key)))
}

// A get, by the word after its name.
fn read_get(alloc: Global, word: &[u8]) -> Result<Option<Command>, AllocError>
    ensures { IfOk result (IsLineReading (codes "get " ++ word.now)) }
{
    let Some(key) = read_word(alloc, word)? else {
        return Ok(None);
    };
    Ok(Some(Command::Get(key)))
}

// A look-up in a snapshot, by the words after its name.
fn read_get_at(alloc: Global, words: &[u8]) -> Result<Option<Command>, AllocError>
    ensures { IfOk result (IsLineReading (codes "getat " ++ words.now)) }
{
    let (digits, word) = split_once(words, b' ');
    let Some(word) = word else {
        return Ok(None);
    };
    let Some(number) = read_number(digits) else {
        return Ok(None);
    };
    let Some(key) = read_word(alloc, word)? else {
        return Ok(None);
    };
    Ok(Some(Command::GetAt(number, key)))
}

// A release, by the digits after its name.
fn read_release(digits: &[u8]) -> Option<Command>
    ensures { IsLineReading (codes "release " ++ digits.now) result }
{
    match read_number(digits) {
        Some(number) => Some(Command::Release(number)),
        None => None,
    }
}

// A write, by the words after its name.
fn read_write(alloc: Global, words: &[u8]) -> Result<Option<Command>, AllocError>
    ensures { IfOk result (IsLineReading (codes "write " ++ words.now)) }
{
    let Some(found) = read_sync(words) else {
        return Ok(None);
    };
    let Some(items) = read_items(alloc, found.1)? else {
        return Ok(None);
    };
    Ok(Some(Command::Write {
        sync: found.0,
        items,
    }))
}

// Whether a write is synced, and what comes after that.
fn read_sync(words: &[u8]) -> Option<(bool, &[u8])>
    ensures { MatchOption result
        ((sync : Bool) (text : List ℕ) → words.now ≢ sync_word sync ++ text)
        (λ found. words.now ≡ sync_word found.0 ++ found.1.now) }
{
    match after(words, b"0") {
        Some(text) => Some((false, text)),
        None => match after(words, b"1") {
            Some(text) => Some((true, text)),
            None => None,
        },
    }
}

// Changes, with a space before each.
fn read_items(alloc: Global, text: &[u8]) -> Result<Option<Vec<Item>>, AllocError>
    ensures { IfOk result (IsItemsReading text.now) }
{
    if text.is_empty() {
        return Ok(Some(Vec::new(alloc)));
    }
    match after(text, b" ") {
        Some(words) => read_words(alloc, words),
        None => Ok(None),
    }
}

// Changes, with a space between.
fn read_words(alloc: Global, words: &[u8]) -> Result<Option<Vec<Item>>, AllocError>
    ensures { IfOk result (IsItemsReading (32 ∷ words.now)) }
{
    let mut items = Vec::new(alloc);
    let mut rest = Some(words);
    while let Some(words) = rest {
        let (word, more) = split_once(words, b' ');
        let Some(item) = read_item(alloc, word)? else {
            return Ok(None);
        };
        items.push(item)?;
        rest = more;
    }
    Ok(Some(items))
}

// A change, by its word.
fn read_item(alloc: Global, word: &[u8]) -> Result<Option<Item>, AllocError>
    ensures { IfOk result (IsItemReading word.now) }
{
    if let Some(words) = after(word, b"+") {
        return read_put_item(alloc, words);
    }
    let Some(word) = after(word, b"-") else {
        return Ok(None);
    };
    read_delete_item(alloc, word)
}

// A put among changes, by the words after its sign.
fn read_put_item(alloc: Global, words: &[u8]) -> Result<Option<Item>, AllocError>
    ensures { IfOk result (IsItemReading (codes "+" ++ words.now)) }
{
    let Some(pair) = read_pair(alloc, words, b'=')? else {
        return Ok(None);
    };
    Ok(Some(Item::Put(pair.0, pair.1)))
}

// A delete among changes, by the word after its sign.
fn read_delete_item(alloc: Global, word: &[u8]) -> Result<Option<Item>, AllocError>
    ensures { IfOk result (IsItemReading (codes "-" ++ word.now)) }
{
    let Some(key) = read_word(alloc, word)? else {
        return Ok(None);
    };
    Ok(Some(Item::Delete(key)))
}

// Two words, parted by a byte that is in no word.
fn read_pair(
    alloc: Global,
    words: &[u8],
    separator: u8,
) -> Result<Option<(Vec<u8>, Vec<u8>)>, AllocError>
    requires no_dot { separator ≢ 46 }
    requires no_digit { is_hex_digit separator ≡ false }
    ensures { IfOk result (IsPairReading separator words.now) }
{
    let (left, right) = split_once(words, separator);
    let Some(right) = right else {
        return Ok(None);
    };
    let Some(left) = read_word(alloc, left)? else {
        return Ok(None);
    };
    let Some(right) = read_word(alloc, right)? else {
        return Ok(None);
    };
    Ok(Some((left, right)))
}
