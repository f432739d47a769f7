// Files by name, for the programs. Why a file can't be read or written is said on standard error, with its name.
#![tactic(auto)]

ghost use Rattle.std.specs.Prelude.{◌≡◌, ◌≤◌, length, IfSome, MatchResult};
ghost use Rattle.io.specs.Counts.{IsPrefixLen};

use std::fmt::Display;
use std::fs::{File, OpenOptions};
use std::io::{Error, ErrorKind, Read, Write};
use std::{fs, io, str};

// ---- what failed

// Something failed, and why has been said on standard error.
#[derive(Clone, Copy, Debug, PartialEq, Eq)]
pub struct Told;

// A file could not be read to its end, and why has been said on standard error: so many of its bytes were read before, to the start of those lent.
#[derive(Clone, Copy, Debug, PartialEq, Eq)]
pub struct Unread {
    pub bytes: usize,
}

impl From<Unread> for Told {
    fn from(_unread: Unread) -> Told {
        Told
    }
}

// An error's text without its number, which the library puts behind it.
fn say_error(rt: HostRuntime, error: Error) {
    let Ok(text) = format!(in rt.alloc(); "{error}") else {
        let _ = rt.eprint(error);
        return;
    };
    let words = text.as_str();
    let reason = match words.split_once(" (os error ") {
        Some((reason, _)) => reason,
        None => words,
    };
    let _ = rt.eprint(reason);
}

// Writes a line to standard error: what failed, a colon and why. A file's name may be no text, so it is written as its bytes.
fn fail(rt: HostRuntime, what: &[u8], error: Error) -> Told {
    let _ = Print::write_all(&rt.stderr(), what);
    let _ = rt.eprint(": ");
    say_error(rt, error);
    let _ = rt.eprint("\n");
    Told
}

// The same of a file that is read, of which there are so many bytes already.
fn fail_read(rt: HostRuntime, name: &[u8], bytes: usize, error: Error) -> Unread
    ensures { result.bytes ≡ bytes }
{
    fail(rt, name, error);
    Unread { bytes }
}

// A file's name as the library takes it: as text.
fn path(name: &[u8]) -> io::Result<&str> {
    str::from_utf8(name).map_err(|_| Error::new(ErrorKind::InvalidInput, "the name is not UTF-8"))
}

// The file that was opened, or none where it is missing.
fn if_there(opened: io::Result<File>) -> io::Result<Option<File>> {
    match opened {
        Ok(file) => Ok(Some(file)),
        Err(error) if error.kind() == ErrorKind::NotFound => Ok(None),
        Err(error) => Err(error),
    }
}

// ---- reading: as much of a file as there is room for

// Opens a file to be read.
fn open_read(rt: HostRuntime, name: &[u8]) -> io::Result<File> {
    File::open(&rt, path(name)?)
}

// Reads to the end of the file, or until the bytes are full. A read of nothing is the end. A read takes what there is, so no `for` can count the reads.
fn read_on<'a>(
    rt: HostRuntime,
    name: &[u8],
    mut file: File,
    out: &'a mut [u8],
) -> Result<&'a [u8], Unread>
    ensures { MatchResult result (λ text. IsPrefixLen (length text.now) out.old) (λ error. IsPrefixLen error.bytes out.old) }
{
    let mut done = 0;
    while done < out.len() {
        match file.read(&mut out[done..]) {
            Ok(0) => break,
            Ok(n) => done += n,
            Err(error) => return Err(fail_read(rt, name, done, error)),
        }
    }
    Ok(&out[..done])
}

// Reads a file, into the bytes that it is given room in.
pub fn read_file<'a>(rt: HostRuntime, name: &[u8], out: &'a mut [u8]) -> Result<&'a [u8], Unread>
    ensures { MatchResult result (λ text. IsPrefixLen (length text.now) out.old) (λ error. IsPrefixLen error.bytes out.old) }
{
    let file = open_read(rt, name).map_err(|error| fail_read(rt, name, 0, error))?;
    read_on(rt, name, file, out)
}

// Reads a file; a missing one is empty.
pub fn read_or_empty<'a>(
    rt: HostRuntime,
    name: &[u8],
    out: &'a mut [u8],
) -> Result<&'a [u8], Unread>
    ensures { MatchResult result (λ text. IsPrefixLen (length text.now) out.old) (λ error. IsPrefixLen error.bytes out.old) }
{
    match if_there(open_read(rt, name)).map_err(|error| fail_read(rt, name, 0, error))? {
        Some(file) => read_on(rt, name, file, out),
        None => Ok(&out[..0]),
    }
}

// ---- writing: a file is written whole or not at all

// Opens a file that is there, to be written. (Apart from `create`: each is one chain of the options that it opens with.)
fn open_update(rt: HostRuntime, name: &[u8]) -> io::Result<File> {
    OpenOptions::new()
        .read(true)
        .write(true)
        .open(&rt, path(name)?)
}

// May the file be replaced? It may if it is missing, or a plain file, which the system can bring to its disk; so a device never is.
fn may_replace(rt: HostRuntime, name: &[u8]) -> io::Result<()> {
    match if_there(open_update(rt, name))? {
        Some(file) => file.sync_all(),
        None => Ok(()),
    }
}

// What stands behind the name of a file that is being written.
const NEW: &[u8; 4] = b".new";

// The name with `.new` behind it, at the start of the bytes; none where there is no room.
fn new_name<'a>(name: &[u8], out: &'a mut [u8]) -> Option<&'a [u8]>
    ensures { IfSome result (λ text. IsPrefixLen (length text.now) out.old) }
{
    let n = name.len();
    let end = n + NEW.len();
    if out.len() < end {
        return None;
    }
    out[..n].copy_from_slice(name);
    out[n..end].copy_from_slice(NEW);
    Some(&out[..end])
}

// Makes a file. A name that is taken is left as it is.
fn create(rt: HostRuntime, name: &[u8]) -> io::Result<File> {
    OpenOptions::new()
        .write(true)
        .create_new(true)
        .open(&rt, path(name)?)
}

// Writes to the file and brings it to the disk.
fn put(mut file: File, content: &[u8]) -> io::Result<()> {
    file.write_all(content)?;
    file.sync_all()
}

// Removes a file; it may be missing.
fn remove(rt: HostRuntime, name: &[u8]) {
    if let Ok(text) = path(name) {
        let _ = fs::remove_file(&rt, text);
    }
}

// Makes a file and writes it to the disk. A name that is taken is left as it is.
fn write_new(rt: HostRuntime, name: &[u8], content: &[u8]) -> Result<(), Told> {
    let file = create(rt, name).map_err(|error| fail(rt, name, error))?;
    put(file, content).map_err(|error| {
        let told = fail(rt, name, error);
        remove(rt, name);
        told
    })
}

// Gives a file another name, in the place of the file that has it.
fn rename(rt: HostRuntime, from: &[u8], to: &[u8]) -> io::Result<()> {
    fs::rename(&rt, path(from)?, path(to)?)
}

// The longest name that the system takes has 4095 bytes.
const LONGEST_NAME: usize = 4096;

// Writes a file: under a new name first, which then takes the file's place. A pulled stick leaves the old file or the new one, and no torn one.
pub fn write_file(rt: HostRuntime, name: &[u8], content: &[u8]) -> Result<(), Told> {
    may_replace(rt, name).map_err(|error| fail(rt, name, error))?;
    let mut space = [0; LONGEST_NAME + NEW.len()];
    // No file has the empty name: the system refuses it for a name that is too long.
    let new = new_name(name, &mut space).unwrap_or(b"");
    write_new(rt, new, content)?;
    rename(rt, new, name).map_err(|error| {
        let told = fail(rt, name, error);
        remove(rt, new);
        told
    })
}

// ---- standard output

// Writes a text, or what has one, to standard output. Where it can't be written, that is told once for each call, so what calls this keeps its pieces apart.
pub fn say(rt: HostRuntime, text: impl Display + Drop) {
    if let Err(error) = rt.print(text) {
        fail(rt, b"standard output", error);
    }
}

// Writes bytes to standard output.
pub fn say_bytes(rt: HostRuntime, bytes: &[u8]) {
    if let Err(error) = Print::write_all(&rt.stdout(), bytes) {
        fail(rt, b"standard output", error);
    }
}
