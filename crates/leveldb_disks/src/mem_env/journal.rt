//! Files in memory, with a journal of what they were at each moment of a run of calls.
ghost use Rattle.std.specs.Prelude.{◌≡◌, ◌+◌, ◌*◌, ◌<◌, ◌^◌, ◌&&◌, ◌||◌, true, false, ℕ, List, OnOk, IfOk, Ok, None, vec_len, vec_capacity, nat_le};
ghost use Rattle.std.specs.Option.{option_copied};
ghost use Rattle.leveldb_env.specs.Env.{same, BeforeOrAfter, FilesUnchanged};
ghost use Rattle.leveldb_disks.specs.Journal.{requested, noted, name_in, may_be_made, is_append, files_at, call_after, after, where_done, files_after_calls, are_within, MakesChange};
ghost use Rattle.leveldb_env.specs.MemEnv.{files_of};

use leveldb_env::mem_env::files;
use leveldb_env::mem_env::files::FileMap;
use std::alloc::{AllocError, Global};
use std::collections::BTreeMap;

/// A change of the files that a call asks for, with its names and bytes.
#[derive(Drop)]
pub enum Change<N, B> {
    /// The name has an empty file.
    Emptied(N),
    /// The name has an empty file, if it had none.
    Created(N),
    /// The bytes are appended to the name's file.
    Extended(N, B),
    /// All bytes of the name's file are kept.
    Synced(N),
    /// The name has no file.
    Deleted(N),
    /// The first name's file has the second name.
    Renamed(N, N),
    /// No name under the folder has a file.
    Cleared(N),
}

/// A change as a call asks for it.
pub type Requested<'a> = Change<&'a str, &'a [u8]>;

/// A change as the journal keeps it.
pub type Noted = Change<String, Vec<u8>>;

/// The name of the file that a change is of.
pub fn name_in<'a>(change: &Requested<'a>) -> &'a str
    ensures { result.now ≡ name_in change.now }
{
    match change {
        Change::Emptied(name) => name,
        Change::Created(name) => name,
        Change::Extended(name, _bytes) => name,
        Change::Synced(name) => name,
        Change::Deleted(name) => name,
        Change::Renamed(from, _to) => from,
        Change::Cleared(folder) => folder,
    }
}

/// Whether a change may be made though its call fails or is cut off: all but a sync.
pub fn may_be_made(change: &Requested<'_>) -> bool
    ensures { result ≡ may_be_made change.now }
{
    !matches!(change, Change::Synced(_))
}

// Makes a change of the files where it is done. Returns whether the name that it needs is there.
fn make_change(
    files: &mut FileMap,
    alloc: Global,
    change: &Requested<'_>,
    done: bool,
) -> Result<bool, AllocError>
    ensures { MakesChange change.now done (files_of files.old) result (files_of files.new) }
{
    if !done {
        return Ok(true);
    }
    match change {
        Change::Emptied(name) => files::empty_file(files, alloc, name)?,
        Change::Created(name) => files::create_file(files, alloc, name)?,
        Change::Extended(name, bytes) => return files::extend_file(files, name, bytes),
        Change::Synced(name) => return Ok(files::sync_file(files, name)),
        Change::Deleted(name) => return Ok(files::delete_file(files, name)),
        Change::Renamed(from, to) => return files::rename_file(files, alloc, from, to),
        Change::Cleared(folder) => files::remove_folder(files, folder),
    }
    Ok(true)
}

// The change with names and bytes of its own.
fn note_change(alloc: Global, change: &Requested<'_>) -> Result<Noted, AllocError>
    ensures change { IfOk result (λ own. noted own ≡ requested change.now) }
    ensures may { IfOk result (λ own. may_be_made own ≡ may_be_made change.now) }
{
    Ok(match change {
        Change::Emptied(name) => Change::Emptied(String::from_str(alloc, name)?),
        Change::Created(name) => Change::Created(String::from_str(alloc, name)?),
        Change::Extended(name, bytes) => {
            Change::Extended(String::from_str(alloc, name)?, bytes.to_vec(alloc)?)
        }
        Change::Synced(name) => Change::Synced(String::from_str(alloc, name)?),
        Change::Deleted(name) => Change::Deleted(String::from_str(alloc, name)?),
        Change::Renamed(from, to) => {
            Change::Renamed(String::from_str(alloc, from)?, String::from_str(alloc, to)?)
        }
        Change::Cleared(folder) => Change::Cleared(String::from_str(alloc, folder)?),
    })
}

// The number of the first call that isn't counted.
const UNCOUNTED: u64 = 1 << 62;

/// The call of this number, counted from 1, asked for a change, which was made where it is done.
#[derive(Drop)]
pub struct Call {
    number: u64,
    // what it asked for
    change: Noted,
    // whether that was made
    done: bool,
}

/// The files at first and now, the calls that asked for a change, and how many calls were made.
#[derive(Drop)]
pub struct Journal {
    // the files before the first call
    first: FileMap,
    // the files now
    files: FileMap,
    // the calls that asked for a change
    calls: Vec<Call>,
    // how many calls were made
    count: u64,
    ghost few: { count < 2 ^ 62 },
    ghost numbered: { are_within count calls.items ≡ true },
    ghost replayed: { files_of files ≡ files_after_calls (files_of first) calls.items count },
}

impl Journal {
    ghost use Rattle.leveldb_disks.specs.Record.{files_were, Passed};

    /// No file, and no call made.
    pub fn new(alloc: Global) -> Journal
        ensures count { result.count ≡ 0 }
        ensures files { (name : List ℕ) → files_of result.files name ≡ None }
    {
        Journal {
            first: BTreeMap::new(alloc),
            files: BTreeMap::new(alloc),
            calls: Vec::new(alloc),
            count: 0,
        }
    }

    /// A journal that begins with these files.
    pub fn begin(alloc: Global, files: FileMap) -> Result<Journal, AllocError>
        ensures count { IfOk result (λ journal. journal.count ≡ 0) }
        ensures files { IfOk result (λ journal. files_of journal.files ≡ files_of files) }
    {
        Ok(Journal {
            first: files::copy_files(&files)?,
            files,
            calls: Vec::new(alloc),
            count: 0,
        })
    }

    /// The files at a moment, on this side of a change in flight; an append in flight is whole.
    pub fn files_at(&self, alloc: Global, moment: u64, side: bool) -> Result<FileMap, AllocError>
        ensures { IfOk result
            (λ files. files_of files ≡ files_at
            (files_of self.now.first) self.now.calls.items moment side) }
    {
        let mut files = self.files_after(alloc, moment / 2)?;
        if moment % 2 == 0 {
            return Ok(files);
        }
        if let Some(call) = self.call_after(moment / 2) {
            let change = borrow_change(&call.change);
            make_change(&mut files, alloc, &change, is_made_inside(&change, side))?;
        }
        Ok(files)
    }

    // The call after the first n, if it asked for a change.
    fn call_after(&self, n: u64) -> Option<&Call>
        requires { n + 1 < 2 ^ 64 }
        ensures { option_copied result ≡ call_after self.now.calls.items n }
    {
        self.calls.iter().find(|call| call.number == n + 1)
    }

    // The files after the first n calls.
    fn files_after(&self, alloc: Global, n: u64) -> Result<FileMap, AllocError>
        ensures { IfOk result
            (λ files. files_of files ≡ files_after_calls
            (files_of self.now.first) self.now.calls.items n) }
    {
        let mut files = files::copy_files(&self.first)?;
        for call in &self.calls {
            replay_call(&mut files, alloc, call, n)?;
        }
        Ok(files)
    }

    /// The files now.
    pub fn files(&self) -> &FileMap
        ensures { result.now ≡ self.now.files }
    {
        &self.files
    }

    /// Twice the calls made so far.
    pub fn moment(&self) -> u64
        ensures { result ≡ 2 * self.now.count }
    {
        2 * self.count
    }

    /// Whether no call is counted any more.
    pub fn is_full(&self) -> bool
        ensures { result ≡ nat_le (2 ^ 62) (self.now.count + 1) }
    {
        self.count + 1 >= UNCOUNTED
    }

    /// Counts a call that asks for no change.
    pub fn skip(&mut self)
        requires { self.old.count + 1 < 2 ^ 62 }
        ensures counted { self.new.count ≡ self.old.count + 1 }
        ensures files { self.new.files ≡ self.old.files }
        ensures time { Passed (FilesUnchanged (files_of self.old.files)) self.old self.new }
    {
        self.count += 1;
    }

    /// Counts a call that asks for a change, and makes it where it is done. Returns whether the
    /// name that it needs is there. An error changes no file, and the call isn't one of those that
    /// asked.
    pub fn make(
        &mut self,
        alloc: Global,
        change: &Requested<'_>,
        done: bool,
    ) -> Result<bool, AllocError>
        requires { self.old.count + 1 < 2 ^ 62 }
        ensures counted { self.new.count ≡ self.old.count + 1 }
        ensures makes { MakesChange change.now done
            (files_of self.old.files) result (files_of self.new.files) }
        ensures time { Passed
            (BeforeOrAfter (requested change.now) (files_of self.old.files)) self.old self.new }
        ensures inside { OnOk result
            (files_were self.new (2 * self.old.count + 1)
            (where_done (may_be_made change.now) (requested change.now)
            (files_of self.old.files))) }
    {
        self.count += 1;
        let noted_change = take_memory(&mut self.calls, alloc, change)?;
        let there = make_change(&mut self.files, alloc, change, done)?;
        let call = Call {
            number: self.count,
            change: noted_change,
            done,
        };
        self.calls.push(call).unwrap();
        Ok(there)
    }
}

// The same change, with its names and bytes borrowed.
fn borrow_change(change: &Noted) -> Requested<'_>
    ensures change { requested result ≡ noted change.now }
    ensures may { may_be_made result ≡ may_be_made change.now }
    ensures append { is_append result ≡ is_append change.now }
{
    match change {
        Change::Emptied(name) => Change::Emptied(name.as_str()),
        Change::Created(name) => Change::Created(name.as_str()),
        Change::Extended(name, bytes) => Change::Extended(name.as_str(), bytes.as_slice()),
        Change::Synced(name) => Change::Synced(name.as_str()),
        Change::Deleted(name) => Change::Deleted(name.as_str()),
        Change::Renamed(from, to) => Change::Renamed(from.as_str(), to.as_str()),
        Change::Cleared(folder) => Change::Cleared(folder.as_str()),
    }
}

// Makes the change of a call once more, where it was done and is among the first n.
fn replay_call(files: &mut FileMap, alloc: Global, call: &Call, n: u64) -> Result<(), AllocError>
    ensures { OnOk result (files_of files.new ≡ where_done (nat_le call.now.number n)
        (λ files. after files call.now) (files_of files.old)) }
{
    if call.number > n {
        return Ok(());
    }
    make_change(files, alloc, &borrow_change(&call.change), call.done)?;
    Ok(())
}

// Whether a change in flight is made on this side: an append is, a sync isn't.
fn is_made_inside(change: &Requested<'_>, side: bool) -> bool
    ensures { result ≡ ((side || is_append change.now) && may_be_made change.now) }
{
    match change {
        Change::Extended(_name, _bytes) => true,
        Change::Synced(_name) => false,
        _ => side,
    }
}

// The change with names and bytes of its own, and room for it among the calls.
fn take_memory(
    calls: &mut Vec<Call>,
    alloc: Global,
    change: &Requested<'_>,
) -> Result<Noted, AllocError>
    ensures change { IfOk result (λ own. noted own ≡ requested change.now) }
    ensures may { IfOk result (λ own. may_be_made own ≡ may_be_made change.now) }
    ensures room { OnOk result (vec_len calls.new < vec_capacity calls.new) }
    ensures calls { calls.new.items ≡ calls.old.items }
{
    let own = note_change(alloc, change)?;
    calls.reserve(1)?;
    Ok(own)
}
