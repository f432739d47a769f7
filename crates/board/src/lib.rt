// The board file: its sizes and marks, and the check that a file is a board of the kinds that a book or a strip declares.
#![tactic(auto)]

ghost use Rattle.std.specs.Prelude.{◌≡◌};
ghost use Rattle.files.specs.Numbers as N;
ghost use Rattle.files.specs.Judge.{told};
ghost use Rattle.files.specs.Board.{judge_board};
ghost use Rattle.kinds.specs.Listed.{kinds_of};
ghost use Rattle.answers.specs.Refused.{about, told_by};
ghost use Rattle.answers.specs.declared.File.TheVariants as F;
ghost use Rattle.board.specs.Says.{told_at, RowSays, RecordSays};

use answers::{File, Reason, Refusal};
use fields::byte_at;
use kinds::Kinds;

// The home of a board's sizes and marks.
#[derive(Clone, Copy)]
pub struct Board {}

impl Board {
    pub const CARDS: usize = 256;

    pub const NOTICES: usize = 128;

    pub const LONGEST: usize = 4226;

    pub const CA: [u8; 2] = *b"ca";

    pub const NO: [u8; 2] = *b"no";

    pub const EN: [u8; 2] = *b"en";
}

// One record: a card or a notice of so many bytes, or the end.
#[derive(Clone, Copy)]
enum Record {
    Card(usize),
    Notice(usize),
    End,
}

// How many bytes the fields of a row of the class are: its kind, then its numbers.
fn row_fields(kinds: &Kinds, card: bool, rest: &[u8]) -> Result<usize, Reason>
    ensures { RowSays (kinds_of kinds.now) card rest.now result }
{
    if rest.is_empty() {
        return Err(Reason::Cut);
    }
    let kind = byte_at(rest, 0);
    if !kinds.is_of_class(card, kind) {
        return Err(Reason::Field);
    }
    let end = 1 + 2 * usize::from(kinds.arity_of(kind));
    if rest.len() < end {
        return Err(Reason::Cut);
    }
    Ok(end)
}

// Judges the record at the start of what is left, after so many cards and notices.
fn board_record(kinds: &Kinds, rest: &[u8], cards: usize, notices: usize) -> Result<Record, Reason>
    ensures { RecordSays (kinds_of kinds.now) rest.now cards notices result }
{
    let Some((mark, fields)) = rest.split_first_chunk::<2>() else {
        return Err(Reason::Cut);
    };
    match *mark {
        Board::CA => {
            if 0 < notices {
                return Err(Reason::Place);
            }
            if Board::CARDS <= cards {
                return Err(Reason::Many);
            }
            let size = row_fields(kinds, true, fields)?;
            Ok(Record::Card(2 + size))
        }
        Board::NO => {
            if Board::NOTICES <= notices {
                return Err(Reason::Many);
            }
            let size = row_fields(kinds, false, fields)?;
            Ok(Record::Notice(2 + size))
        }
        Board::EN => Ok(Record::End),
        _ => Err(Reason::Mark),
    }
}

// The refusal of a board of so many bytes for a reason that the record at a place gives.
fn refusal(reason: Reason, at: usize, end: usize) -> Refusal
    ensures { result ≡ record { file = F.Board; reason = reason; place = told_at end at reason } }
{
    let place = match reason {
        Reason::Cut => end,
        _ => at,
    };
    Refusal {
        file: File::Board,
        reason,
        place,
    }
}

// Judges a file as a board of those kinds, record by record; what is left of the file is handed on. (A `loop`: it goes on by as many bytes as a record has.)
pub fn check_board(kinds: Kinds, board: &[u8]) -> Result<(), Refusal>
    ensures { told_by result ≡ about N.board (told (judge_board (kinds_of kinds) board.now)) }
{
    let n = board.len();
    let mut rest = board;
    let mut cards = 0;
    let mut notices = 0;
    'records: loop {
        let at = n - rest.len();
        match board_record(&kinds, rest, cards, notices) {
            Ok(Record::Card(size)) => {
                cards += 1;
                rest = &rest[size..];
            }
            Ok(Record::Notice(size)) => {
                notices += 1;
                rest = &rest[size..];
            }
            Ok(Record::End) if rest.len() == 2 => return Ok(()),
            Ok(Record::End) => return Err(refusal(Reason::Trail, at + 2, n)),
            Err(reason) => return Err(refusal(reason, at, n)),
        }
    }
}
