//! Replies as text.
ghost use Rattle.std.specs.Prelude.{◌≡◌, ◌++◌, ℕ, List, length, take, flat_map, codes, decimal, OnOk, OnErr};
ghost use Rattle.rusty_leveldb.specs.Programs.Language.{hex_word, refusal_line, step_line, reply_text, reply_lines, OutputGrows};

use super::commands::{Reply, Step};
use super::words::put_word;
use leveldb_base::error::StatusCode;
use std::alloc::AllocError;

/// Appends the lines of these replies to the text. Where it fails, out of memory, those of the
/// first replies are there.
pub fn put_replies(out: &mut Vec<u8>, replies: &[Reply]) -> Result<(), AllocError>
    ensures { (told : ℕ) × (out.new.items ≡ out.old.items ++ reply_lines (take told replies.now))
        × OnOk result (told ≡ length replies.now) }
{
    for reply in replies {
        put_reply(out, reply)?;
    }
    Ok(())
}

// Appends the lines of a reply to the text, or leaves the text as it was.
fn put_reply(out: &mut Vec<u8>, reply: &Reply) -> Result<(), AllocError>
    ensures ok { OnOk result (out.new.items ≡ out.old.items ++ reply_text reply.now) }
    ensures err { OnErr result (out.new.items ≡ out.old.items) }
{
    let before = out.len();
    let put = put_text(out, reply);
    if put.is_err() {
        out.truncate(before);
    }
    put
}

// Appends the lines of a reply to the text. Where it fails, part of them may be there.
fn put_text(out: &mut Vec<u8>, reply: &Reply) -> Result<(), AllocError>
    ensures { OutputGrows out.old.items out.new.items result (reply_text reply.now) }
{
    match reply {
        Reply::Done => out.extend_from_slice(b"ok\n"),
        Reply::Nothing => out.extend_from_slice(b"none\n"),
        Reply::Value(value) => put_value(out, value.as_slice()),
        Reply::Snapshot(number) => put_snapshot(out, *number),
        Reply::Walk(steps) => put_steps(out, steps),
        Reply::Refused(status) => put_refusal(out, status.code),
    }
}

// Appends the line of a value to the text.
fn put_value(out: &mut Vec<u8>, value: &[u8]) -> Result<(), AllocError>
    ensures { OutputGrows out.old.items out.new.items result
        (codes "value " ++ hex_word value.now ++ codes "\n") }
{
    out.extend_from_slice(b"value ")?;
    put_word(out, value)?;
    out.extend_from_slice(b"\n")
}

// Appends the line of a snapshot's number to the text.
fn put_snapshot(out: &mut Vec<u8>, number: usize) -> Result<(), AllocError>
    ensures { OutputGrows out.old.items out.new.items result
        (codes "snapshot " ++ decimal number ++ codes "\n") }
{
    let line = format!(in *out.allocator(); "snapshot {number}\n")?;
    out.extend_from_slice(line.as_bytes())
}

// Appends the lines that say where moves led to the text.
fn put_steps(out: &mut Vec<u8>, steps: &[Step]) -> Result<(), AllocError>
    ensures { OutputGrows out.old.items out.new.items result (flat_map step_line steps.now) }
{
    for step in steps {
        put_step(out, step)?;
    }
    Ok(())
}

// Appends the line that says where a move led to the text.
fn put_step(out: &mut Vec<u8>, step: &Step) -> Result<(), AllocError>
    ensures { OutputGrows out.old.items out.new.items result (step_line step.now) }
{
    match step {
        Step::At(key, value) => put_pair(out, key, value),
        Step::Invalid => out.extend_from_slice(b"invalid\n"),
        Step::Refused(status) => put_refusal(out, status.code),
    }
}

// Appends the line of a pair to the text.
fn put_pair(out: &mut Vec<u8>, key: &[u8], value: &[u8]) -> Result<(), AllocError>
    ensures { OutputGrows out.old.items out.new.items result
        (codes "at " ++ hex_word key.now ++ codes " " ++ hex_word value.now ++ codes "\n") }
{
    out.extend_from_slice(b"at ")?;
    put_word(out, key)?;
    out.extend_from_slice(b" ")?;
    put_word(out, value)?;
    out.extend_from_slice(b"\n")
}

// Appends the line of a refusal to the text.
fn put_refusal(out: &mut Vec<u8>, code: StatusCode) -> Result<(), AllocError>
    ensures { OutputGrows out.old.items out.new.items result (refusal_line code) }
{
    let line = format!(in *out.allocator(); "refused {code}\n")?;
    out.extend_from_slice(line.as_bytes())
}
