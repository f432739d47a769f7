// The strip file: words of 8 bytes. Its sizes, the check that a file is a strip, and the kinds that it declares.
#![tactic(auto)]

ghost use Rattle.std.specs.Prelude.{◌≡◌, ℕ, ◌+◌, ◌*◌, ◌≤◌, ◌<◌, length, MatchResult};
ghost use Rattle.meaning.specs.Facts.{longest_strip};
ghost use Rattle.files.specs.Numbers as N;
ghost use Rattle.files.specs.Judge.{told};
ghost use Rattle.files.specs.Strip.{fields_at, is_term, word_is_good, may_be_last, earlier_than_next, judge_strip};
ghost use Rattle.answers.specs.Refused.{about, told_by};
ghost use Rattle.answers.specs.declared.Reason.TheVariants as R;
ghost use Rattle.answers.specs.declared.File.TheVariants as F;
ghost use Rattle.files.specs.InPlace.{byte_at};
ghost use Rattle.strip.specs.Says.{Decodes, fields_of, earlier_of};
ghost use Rattle.strip.specs.Leading.{leading_kinds};

use answers::{File, Reason, Refusal};
use book::Book;
use fields::byte_at;
use kinds::Kinds;

// The home of a strip's sizes.
#[derive(Clone, Copy)]
pub struct Strip {}

impl Strip {
    pub const WORD: usize = 8;

    pub const LONGEST: usize = 44808;

    pub const CURSORS: usize = 14;

    pub const REGISTERS: usize = Book::VARIABLES;
}

// What a word does, in the order of the numbers that stand for it.
#[derive(Clone, Copy)]
enum Code {
    Kind,
    Open,
    Seek,
    Bind,
    Same,
    Lit,
    Test,
    Keep,
    Put,
    Arg,
    Jump,
    Fire,
    Quiet,
}

// A word's fields, in their order.
#[derive(Clone, Copy)]
struct Word {
    code: Code,
    a: u8,
    b: u8,
    c: u8,
    value: u16,
    target: u16,
}

// What stands before a word: how many KINDs, and whether any other code.
#[derive(Clone, Copy)]
struct Earlier {
    kinds: usize,
    others: bool,
}

// Is it a tag, and a variable where it says so?
fn is_term(tag: usize, value: usize) -> bool
    ensures { result ≡ is_term tag value }
{
    (tag <= 1) & ((tag == 0) | (value < Strip::REGISTERS))
}

// (A match on the number with a range arm: docs/DECISIONS.md, 'Forms that document 01 names'.)
impl TryFrom<u8> for Code {
    type Error = Reason;

    ghost try_from_gives = { Decodes };

    fn try_from(number: u8) -> Result<Code, Reason> {
        match number {
            0 => Ok(Code::Kind),
            1 => Ok(Code::Open),
            2 => Ok(Code::Seek),
            3 => Ok(Code::Bind),
            4 => Ok(Code::Same),
            5 => Ok(Code::Lit),
            6 => Ok(Code::Test),
            7 => Ok(Code::Keep),
            8 => Ok(Code::Put),
            9 => Ok(Code::Arg),
            10 => Ok(Code::Jump),
            11 => Ok(Code::Fire),
            12 => Ok(Code::Quiet),
            13..=255 => Err(Reason::Strip),
        }
    }
}

impl Word {
    // The word at a place, if its code is known. (Its other bytes are known to be there: they are read at once, without a test for each.)
    fn at(strip: &[u8], at: usize) -> Result<Word, Reason>
        requires { at + 8 ≤ length strip.now }
        ensures { MatchResult result (λ word. fields_of word ≡ fields_at strip.now at) (λ _. 12 < byte_at strip.now at) }
    {
        Ok(Word {
            code: Code::try_from(byte_at(strip, at))?,
            a: strip[at + 1],
            b: strip[at + 2],
            c: strip[at + 3],
            value: u16::from_le_bytes([strip[at + 4], strip[at + 5]]),
            target: u16::from_le_bytes([strip[at + 6], strip[at + 7]]),
        })
    }

    // Is every field in its range and every unused byte zero? (The tests are joined by `&`: none is skipped. With `&&` a check took up to a fifth longer.)
    fn is_good(self, size: usize, before: Earlier) -> bool
        ensures { result ≡ word_is_good size (earlier_of before) (fields_of self) }
    {
        let a = usize::from(self.a);
        let b = usize::from(self.b);
        let c = usize::from(self.c);
        let value = usize::from(self.value);
        let cursor = a < Strip::CURSORS;
        let argument = b < Kinds::NUMBERS;
        let register = c < Strip::REGISTERS;
        let target = usize::from(self.target) < size;
        let room = before.kinds < Kinds::MOST;
        let no_a = a == 0;
        let no_b = b == 0;
        let no_c = c == 0;
        let no_value = value == 0;
        let no_target = self.target == 0;
        match self.code {
            Code::Kind => {
                (a <= 1)
                    & (b <= Kinds::NUMBERS)
                    & no_c
                    & no_value
                    & no_target
                    & room
                    & !before.others
            }
            Code::Open => cursor & no_b & no_c & no_value & no_target,
            Code::Seek => cursor & (b < before.kinds) & no_c & no_value & target,
            Code::Bind => cursor & argument & register & no_value & no_target,
            Code::Same => cursor & argument & register & no_value & target,
            Code::Lit => cursor & argument & no_c & target,
            Code::Test => {
                (a <= 15) & is_term(a / 2 % 2, b + 256 * c) & is_term(a % 2, value) & target
            }
            Code::Keep => no_a & no_b & no_c & no_value & no_target,
            Code::Put => (a < before.kinds) & no_b & no_c & no_value & no_target,
            Code::Arg => (a < Kinds::NUMBERS) & is_term(b, value) & no_c & no_target,
            Code::Jump => no_a & no_b & no_c & no_value & target,
            Code::Fire => (a < Book::RULES) & no_b & no_c & no_value & no_target,
            Code::Quiet => no_a & no_b & no_c & no_value & no_target,
        }
    }

    // A last word goes on nowhere: it jumps or ends the attempt. So many words are left, this one among them.
    fn may_be_last(self, left: usize) -> bool
        ensures { result ≡ may_be_last left (fields_of self) }
    {
        1 < left || matches!(self.code, Code::Jump | Code::Fire | Code::Quiet)
    }
}

impl Earlier {
    // What stands before the word after this one.
    fn with(self, word: Word) -> Earlier
        requires { self.kinds < longest_strip }
        ensures { earlier_of result ≡ earlier_than_next (earlier_of self) (fields_of word) }
    {
        match word.code {
            Code::Kind => Earlier {
                kinds: self.kinds + 1,
                others: self.others,
            },
            _ => Earlier {
                kinds: self.kinds,
                others: true,
            },
        }
    }
}

// The refusal of a strip at a word.
fn refusal(word: usize) -> Refusal
    ensures { result ≡ record { file = F.Strip; reason = R.Strip; place = word } }
{
    Refusal {
        file: File::Strip,
        reason: Reason::Strip,
        place: word,
    }
}

// Judges a file as a strip, word by word.
pub fn check_strip(strip: &[u8]) -> Result<(), Refusal>
    ensures { told_by result ≡ about N.strip (told (judge_strip strip.now)) }
{
    let n = strip.len();
    if n == 0 || Strip::LONGEST < n || n % Strip::WORD != 0 {
        return Err(refusal(0));
    }
    let size = n / Strip::WORD;
    let mut before = Earlier {
        kinds: 0,
        others: false,
    };
    for i in 0..size {
        match Word::at(strip, Strip::WORD * i) {
            Ok(word) if word.is_good(size, before) && word.may_be_last(size - i) => {
                before = before.with(word);
            }
            _ => return Err(refusal(i)),
        }
    }
    Ok(())
}

// The kinds that the leading KIND words of any bytes declare, as many as there is room for.
pub fn kinds(strip: &[u8]) -> Kinds
    ensures { result ≡ leading_kinds strip.now }
{
    let size = strip.len() / Strip::WORD;
    let mut found = Kinds::none();
    for i in 0..size {
        let Ok(word) = Word::at(strip, Strip::WORD * i) else {
            return found;
        };
        match word.code {
            Code::Kind => found = found.with(word.a, word.b),
            _ => return found,
        }
    }
    found
}
