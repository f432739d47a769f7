// The run of a book on a board, from two files to a third.
ghost use Rattle.std.specs.Prelude.{◌≡◌, ◌≤◌, length};
ghost use Rattle.meaning.specs.Facts.{most_kinds};
ghost use Rattle.meaning.specs.Firing as F;
ghost use Rattle.files.specs.InPlace.{book_at, board_at};
ghost use Rattle.files.specs.Entries.{Gives, run_outcome, run_book_file};
ghost use Rattle.kinds.specs.Listed.{kinds_of};
ghost use Rattle.runs.specs.Runs.{board_in, RunEnds, ended_answer};
ghost use Rattle.runs.specs.Answers.{ran_answer};
ghost use Rattle.plain.specs.Playing.{Playable};
ghost use Rattle.plain.specs.Entry.{Ready};

use crate::firing::{Look, fire};
use crate::lists::RowLists;
use crate::rules::{Rules, rules_of};
use answers::Refusal;
use board::{Board, check_board};
use book::check_book;
use kinds::Kinds;
use rows::{Count, MadeCards, Rows};
use runs::{End, Ended, Ran, stopped};

// Firing after firing, until the limit is reached, no rule fits or the board is full. (Not one loop with the strip machine's: docs/DECISIONS.md, 40.)
fn run(book: &[u8], kinds: &Kinds, rules: &Rules, rows: &mut Rows, count: Count, limit: u16) -> Ran
    requires { Playable book.now (kinds_of kinds.now) rules.now rows.old.kind rows.old.numbers count × (kinds.now.count ≤ most_kinds) }
    ensures { RunEnds (F.run (book_at book.now) limit (board_in (kinds_of kinds.now) rows.old.kind rows.old.numbers count)) (kinds_of kinds.now) rows.new.kind rows.new.numbers result }
{
    let mut row_lists = RowLists {
        list: [0; 384],
        spans: [RowLists::UNMADE; 64],
        top: 0,
    };
    let mut made = MadeCards {
        kind: [0; 256],
        numbers: [0; 1024],
    };
    let mut held = count;
    let mut rule = Ran::NO_RULE;
    for firings in 0..limit {
        match fire(book, kinds, rules, rows, held, &mut row_lists, &mut made) {
            Look::Quiet => {
                return stopped(End::Quiet, held, firings, rule);
            }
            Look::Full => {
                return stopped(End::Full, held, firings, rule);
            }
            Look::Fired(number, after) => {
                rule = number;
                held = after;
            }
        }
    }
    stopped(End::Limit, held, limit, rule)
}

// Loads the board of accepted files, runs the book on it and writes the board that it ends with.
fn play(book: &[u8], kinds: Kinds, board: &[u8], limit: u16, out: &mut [u8]) -> Ended
    requires { Ready book.now kinds board.now (length out.old) }
    ensures { Gives (run_outcome (F.run (book_at book.now) limit (board_at board.now (kinds_of kinds)))) out.old (ended_answer result) out.new }
{
    let mut rows = Rows::empty();
    let places = rules_of(book, kinds);
    let count = rows.load(kinds, board);
    let ran = run(book, &kinds, &places, &mut rows, count, limit);
    let length = rows.write(kinds, ran.count, out);
    Ended {
        end: ran.end,
        length,
        firings: ran.firings,
        rule: ran.rule,
    }
}

// Judges book, board and output, in this order, and then runs the book on the board, up to so many firings.
pub fn run_book(book: &[u8], board: &[u8], limit: u16, out: &mut [u8]) -> Result<Ended, Refusal>
    ensures { Gives (run_book_file book.now board.now limit (length out.old)) out.old (ran_answer result) out.new }
{
    check_book(book)?;
    let kinds = book::kinds(book);
    check_board(kinds, board)?;
    if out.len() < Board::LONGEST {
        return Err(Refusal::short());
    }
    Ok(play(book, kinds, board, limit, out))
}
