// What the engine says of files: a refusal, and what every entry answers, as C receives it. It stands apart from the entries, so that what only shows
// an answer waits for no run.
#![tactic(auto)]

ghost use Rattle.std.specs.Prelude.{◌≡◌};
ghost use Rattle.files.specs.Numbers.{SHORT, refusal_number, output, file_number, refusal};
ghost use Rattle.answers.specs.Refused.{reason_of, file_of, refusal_answer};
ghost use Rattle.answers.specs.Numbered.{IsReasonNumbered, IsFileNumbered};
ghost use Rattle.answers.specs.Shown.{answer_of, shown, at_most_place};

use std::error::Error;
use std::fmt;

// Why a file is refused, in the order of the numbers that a terminal shows.
#[derive(Clone, Copy, Debug, PartialEq, Eq)]
pub enum Reason {
    Cut,
    Mark,
    Place,
    Nocard,
    Bare,
    Many,
    Field,
    Loose,
    Trail,
    Short,
    Strip,
}

// The file that is refused, or the output that is too short.
#[derive(Clone, Copy, Debug, PartialEq, Eq)]
pub enum File {
    Book,
    Strip,
    Board,
    Output,
}

// A number that no reason has.
#[derive(Clone, Copy, Debug, PartialEq, Eq)]
pub struct UnknownReason(pub u8);

// A number that no file has, 0 among them: an answer has it where nothing is refused.
#[derive(Clone, Copy, Debug, PartialEq, Eq)]
pub struct UnknownFile(pub u8);

// A refusal: of which file, why, and the place there.
#[derive(Clone, Copy, Debug, PartialEq, Eq)]
pub struct Refusal {
    pub file: File,
    pub reason: Reason,
    pub place: usize,
}

// Document 01's number, the file it is about (0 none, 1 book, 2 strip, 3 board, 4 output), the last fired rule, the firings done, the place in the
// file, the bytes written.
#[repr(C)]
#[derive(Clone, Copy)]
pub struct Answer {
    pub number: u8,
    pub file: u8,
    pub rule: u8,
    pub firings: u16,
    pub place: u32,
    pub length: u32,
}

impl Reason {
    // The number that a terminal shows.
    pub fn number(self) -> u8
        ensures { result ≡ refusal_number (reason_of self) }
    {
        match self {
            Reason::Cut => 1,
            Reason::Mark => 2,
            Reason::Place => 3,
            Reason::Nocard => 4,
            Reason::Bare => 5,
            Reason::Many => 6,
            Reason::Field => 7,
            Reason::Loose => 8,
            Reason::Trail => 9,
            Reason::Short => 10,
            Reason::Strip => 11,
        }
    }
}

impl File {
    // The number that an answer has for it.
    pub fn number(self) -> u8
        ensures { result ≡ file_number (file_of self) }
    {
        match self {
            File::Book => 1,
            File::Strip => 2,
            File::Board => 3,
            File::Output => 4,
        }
    }
}

impl Refusal {
    // The output is too short for what has to be written: that is no fault of a place.
    pub fn short() -> Refusal
        ensures { refusal_answer result ≡ refusal output SHORT 0 }
    {
        Refusal {
            file: File::Output,
            reason: Reason::Short,
            place: 0,
        }
    }
}

impl TryFrom<u8> for Reason {
    type Error = UnknownReason;

    ghost try_from_gives = { IsReasonNumbered };

    fn try_from(number: u8) -> Result<Reason, UnknownReason> {
        match number {
            1 => Ok(Reason::Cut),
            2 => Ok(Reason::Mark),
            3 => Ok(Reason::Place),
            4 => Ok(Reason::Nocard),
            5 => Ok(Reason::Bare),
            6 => Ok(Reason::Many),
            7 => Ok(Reason::Field),
            8 => Ok(Reason::Loose),
            9 => Ok(Reason::Trail),
            10 => Ok(Reason::Short),
            11 => Ok(Reason::Strip),
            _ => Err(UnknownReason(number)),
        }
    }
}

impl TryFrom<u8> for File {
    type Error = UnknownFile;

    ghost try_from_gives = { IsFileNumbered };

    fn try_from(number: u8) -> Result<File, UnknownFile> {
        match number {
            1 => Ok(File::Book),
            2 => Ok(File::Strip),
            3 => Ok(File::Board),
            4 => Ok(File::Output),
            _ => Err(UnknownFile(number)),
        }
    }
}

impl fmt::Display for UnknownReason {
    fn fmt<W: fmt::Write>(&self, f: &mut fmt::Formatter<W>) -> fmt::Result {
        write!(f, "no reason has the number {}", self.0)
    }
}

impl fmt::Display for UnknownFile {
    fn fmt<W: fmt::Write>(&self, f: &mut fmt::Formatter<W>) -> fmt::Result {
        write!(f, "no file has the number {}", self.0)
    }
}

impl Error for UnknownReason {}

impl Error for UnknownFile {}

impl fmt::Display for Reason {
    fn fmt<W: fmt::Write>(&self, f: &mut fmt::Formatter<W>) -> fmt::Result {
        f.write_str(match self {
            Reason::Cut => "CUT",
            Reason::Mark => "MARK",
            Reason::Place => "PLACE",
            Reason::Nocard => "NOCARD",
            Reason::Bare => "BARE",
            Reason::Many => "MANY",
            Reason::Field => "FIELD",
            Reason::Loose => "LOOSE",
            Reason::Trail => "TRAIL",
            Reason::Short => "SHORT",
            Reason::Strip => "STRIP",
        })
    }
}

impl fmt::Display for File {
    fn fmt<W: fmt::Write>(&self, f: &mut fmt::Formatter<W>) -> fmt::Result {
        f.write_str(match self {
            File::Book => "book",
            File::Strip => "strip",
            File::Board => "board",
            File::Output => "output",
        })
    }
}

impl Answer {
    // A place or a length as C sees it: in 32 bits, a larger one as the largest.
    pub fn at_most(place: usize) -> u32
        ensures { result ≡ at_most_place place }
    {
        u32::try_from(place).unwrap_or(u32::MAX)
    }
}

impl From<Refusal> for Answer {
    ghost from_gives = { λ refusal answer. answer_of answer ≡ shown (refusal_answer refusal) };

    fn from(refusal: Refusal) -> Answer {
        Answer {
            number: refusal.reason.number(),
            file: refusal.file.number(),
            rule: 255,
            firings: 0,
            place: Answer::at_most(refusal.place),
            length: 0,
        }
    }
}
