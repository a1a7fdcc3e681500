//! The lines of walks: a view, and moves over it.
ghost use Rattle.std.specs.Prelude.{◌≡◌, ◌++◌, IfOk, codes};
ghost use Rattle.rusty_leveldb.specs.Programs.Readings.{rest_text, IsViewReading, IsMoveReading, IsMovesReading, IsLineReading};

use super::commands::{Command, Move};
use super::words::{after, read_number, read_word, split_once};
use std::alloc::{AllocError, Global};

/// A walk, by the words after its name, or none where they encode none. Fails out of memory.
pub(super) fn read_walk(alloc: Global, words: &[u8]) -> Result<Option<Command>, AllocError>
    ensures { IfOk result (IsLineReading (codes "walk " ++ words.now)) }
{
    let (word, words) = split_once(words, b' ');
    let Some(at) = read_view(word) else {
        return Ok(None);
    };
    let Some(moves) = read_moves(alloc, words)? else {
        return Ok(None);
    };
    Ok(Some(Command::Walk(at, moves)))
}

// What a walk is over: the store as it is now, or a snapshot.
fn read_view(word: &[u8]) -> Option<Option<usize>>
    ensures { IsViewReading word.now result }
{
    if word == b"now".as_slice() {
        return Some(None);
    }
    match read_number(word) {
        Some(number) => Some(Some(number)),
        None => None,
    }
}

// Moves, with a space between.
fn read_moves(alloc: Global, words: Option<&[u8]>) -> Result<Option<Vec<Move>>, AllocError>
    ensures { IfOk result (IsMovesReading (rest_text words.entry)) }
{
    let mut moves = Vec::new(alloc);
    let mut rest = words;
    while let Some(words) = rest {
        let (word, more) = split_once(words, b' ');
        let Some(one) = read_move(alloc, word)? else {
            return Ok(None);
        };
        moves.push(one)?;
        rest = more;
    }
    Ok(Some(moves))
}

// A move, by its word.
fn read_move(alloc: Global, word: &[u8]) -> Result<Option<Move>, AllocError>
    ensures { IfOk result (IsMoveReading word.now) }
{
    if word == b"first".as_slice() {
        return Ok(Some(Move::First));
    }
    if word == b"next".as_slice() {
        return Ok(Some(Move::Next));
    }
    if word == b"prev".as_slice() {
        return Ok(Some(Move::Prev));
    }
    match after(word, b"seek=") {
        Some(word) => read_seek(alloc, word),
        None => Ok(None),
    }
}

// A seek, by the word of its key.
fn read_seek(alloc: Global, word: &[u8]) -> Result<Option<Move>, AllocError>
    ensures { IfOk result (IsMoveReading (codes "seek=" ++ word.now)) }
{
    let Some(key) = read_word(alloc, word)? else {
        return Ok(None);
    };
    Ok(Some(Move::Seek(key)))
}
