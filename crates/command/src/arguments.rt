// The program's words: a fixed one, a number, a file's name.
ghost use Rattle.std.specs.Prelude.{◌≤◌, length, IfSome, MatchResult};
ghost use Rattle.io.specs.Counts.{IsPrefixLen};

use std::env::FillError;
use std::ops::Range;
use std::rt::Env;
use std::str;
use terminal::{Told, Unread};

// How many bytes of a word are taken; a longer one counts as none.
const LONGEST: usize = 4096;

// A word that the program was started with, by its place.
#[derive(Clone, Copy, Debug, PartialEq, Eq)]
pub struct Argument {
    place: usize,
}

// The words that are still to be read, by their places.
#[derive(Drop)]
pub struct Arguments {
    places: Range<usize>,
}

// Is there no word at the place?
fn is_missing(rt: HostRuntime, place: usize) -> bool {
    matches!(rt.arg(place, &mut []), Err(FillError::NotPresent))
}

// The number with one digit more, where it is one and still has 64 bits.
fn with_digit(value: u64, byte: u8) -> Option<u64> {
    let digit = char::from(byte).to_digit(10)?;
    value.checked_mul(10)?.checked_add(u64::from(digit))
}

// The number that the bytes spell.
fn spelled(text: &[u8]) -> Option<u64> {
    if text.is_empty() {
        return None;
    }
    text.iter()
        .try_fold(0, |value, byte| with_digit(value, *byte))
}

impl Argument {
    // Its bytes, at the start of those that are lent; none where there are not so many.
    fn bytes<'a>(self, rt: HostRuntime, out: &'a mut [u8]) -> Option<&'a [u8]>
        ensures { IfSome result (λ word. IsPrefixLen (length word.now) out.old) }
    {
        let n = rt.arg(self.place, out).ok()?;
        Some(&out[..n])
    }

    // Its text; none where the room is too little, or it is no text.
    pub fn text<'a>(self, rt: HostRuntime, out: &'a mut [u8]) -> Option<&'a str> {
        str::from_utf8(self.bytes(rt, out)?).ok()
    }

    // Is it this word?
    pub fn is(self, rt: HostRuntime, word: &str) -> bool {
        let mut space = [0; LONGEST];
        self.bytes(rt, &mut space) == Some(word.as_bytes())
    }

    // The number that it spells.
    pub fn number(self, rt: HostRuntime) -> Option<u64> {
        let mut space = [0; LONGEST];
        spelled(self.bytes(rt, &mut space)?)
    }

    // Reads the file that it names. A name that is too long counts as empty, which no file has.
    pub fn read<'a>(self, rt: HostRuntime, out: &'a mut [u8]) -> Result<&'a [u8], Unread>
        ensures { MatchResult result (λ text. IsPrefixLen (length text.now) out.old) (λ error. IsPrefixLen error.bytes out.old) }
    {
        let mut space = [0; LONGEST];
        let name = self.bytes(rt, &mut space).unwrap_or(b"");
        terminal::read_file(rt, name, out)
    }

    // Writes the file that it names.
    pub fn write(self, rt: HostRuntime, content: &[u8]) -> Result<(), Told> {
        let mut space = [0; LONGEST];
        let name = self.bytes(rt, &mut space).unwrap_or(b"");
        terminal::write_file(rt, name, content)
    }
}

impl Arguments {
    // All words behind the program's own name.
    pub fn all(rt: HostRuntime) -> Arguments {
        let count = (0..usize::MAX)
            .find(|place| is_missing(rt, *place))
            .unwrap_or(usize::MAX);
        Arguments { places: 1..count }
    }

    // Takes off the end `-o` and the name of the file to be written, where they stand behind another word.
    pub fn target(&mut self, rt: HostRuntime) -> Option<Argument> {
        if self.places.len() < 3 {
            return None;
        }
        let place = self.places.end - 1;
        let option = Argument { place: place - 1 };
        if !option.is(rt, "-o") {
            return None;
        }
        self.places.end = option.place;
        Some(Argument { place })
    }
}

impl Iterator for Arguments {
    type Item = Argument;

    fn next(&mut self) -> Option<Argument> {
        self.places.next().map(|place| Argument { place })
    }
}
