// The engine: document 01's six entries under one roof. Every function takes any bytes. crates/engine_c hands them to other languages, under these names.
#![tactic(auto)]

ghost use Rattle.std.specs.Prelude.{◌≡◌, ℕ, ◌<◌, length};
ghost use Rattle.files.specs.Numbers as N;
ghost use Rattle.files.specs.Entries.{bytes_after, check_book, check_board, check_strip, run_book_file, translate_file, run_strip_file};
ghost use Rattle.runs.specs.Runs.{end_of, ended_answer};
ghost use Rattle.runs.specs.Answers.{ran_answer};
ghost use Rattle.translate.specs.Answers.{translated_answer};
ghost use Rattle.answers.specs.Refused.{check_answer};
ghost use Rattle.answers.specs.Shown.{answer_of, shown};

use answers::{Answer, Refusal};
use runs::{End, Ended};

// Nothing is refused: a check accepts, with length 0, or a strip of that length is written.
fn acceptance(length: usize) -> Answer
    ensures { answer_of result ≡ shown (N.acceptance length) }
{
    Answer {
        number: 0,
        file: 0,
        rule: 255,
        firings: 0,
        place: 0,
        length: Answer::at_most(length),
    }
}

// The number of a run's end.
fn end_number(end: End) -> u8
    ensures { result ≡ N.end_number (end_of end) }
{
    match end {
        End::Quiet => 20,
        End::Limit => 21,
        End::Full => 22,
        End::Spent => 23,
        End::Stuck => 24,
    }
}

// The answer of a run that was made.
fn of_ended(ended: Ended) -> Answer
    ensures { answer_of result ≡ shown (ended_answer ended) }
{
    let end = ended.end;
    let firings = ended.firings;
    Answer {
        number: end_number(end),
        file: 0,
        rule: ended.rule,
        firings,
        place: 0,
        length: Answer::at_most(ended.length),
    }
}

// The answer of a check.
fn of_check(checked: Result<(), Refusal>) -> Answer
    ensures { answer_of result ≡ shown (check_answer checked) }
{
    checked.map_or_else(Answer::from, |()| acceptance(0))
}

// The answer of a run of a book or of a strip.
fn of_run(ran: Result<Ended, Refusal>) -> Answer
    ensures { answer_of result ≡ shown (ran_answer ran) }
{
    ran.map_or_else(Answer::from, of_ended)
}

// The answer of a translation.
fn of_translation(translated: Result<usize, Refusal>) -> Answer
    ensures { answer_of result ≡ shown (translated_answer translated) }
{
    translated.map_or_else(Answer::from, acceptance)
}

// Judges a book, and then a board of the kinds that it declares.
fn check_both(book: &[u8], board: &[u8]) -> Result<(), Refusal>
    ensures { check_answer result ≡ (check_board book.now board.now).answer }
{
    book::check_book(book)?;
    board::check_board(book::kinds(book), board)
}

// Is the file a rule book?
pub fn llwybrenu_check_book(book: &[u8]) -> Answer
    ensures { answer_of result ≡ shown (check_book book.now).answer }
{
    of_check(book::check_book(book))
}

// Is the file a rule strip?
pub fn llwybrenu_check_strip(strip: &[u8]) -> Answer
    ensures { answer_of result ≡ shown (check_strip strip.now).answer }
{
    of_check(strip::check_strip(strip))
}

// Is the second file a board of the book that the first one is?
pub fn llwybrenu_check_board(book: &[u8], board: &[u8]) -> Answer
    ensures { answer_of result ≡ shown (check_board book.now board.now).answer }
{
    of_check(check_both(book, board))
}

// Runs a rule book on a board, up to so many firings, and writes the board that it ends with from the start of the output.
pub fn llwybrenu_run_book(book: &[u8], board: &[u8], limit: u16, out: &mut [u8]) -> Answer
    ensures { (answer_of result ≡ shown (run_book_file book.now board.now limit (length out.old)).answer)
        × (out.new ≡ bytes_after (run_book_file book.now board.now limit (length out.old)) out.old) }
{
    of_run(plain::run::run_book(book, board, limit, out))
}

// Translates a rule book into a rule strip: gives its length, and writes it from the start of the output.
pub fn llwybrenu_translate(book: &[u8], out: &mut [u8]) -> Answer
    ensures { (answer_of result ≡ shown (translate_file book.now (length out.old)).answer)
        × (out.new ≡ bytes_after (translate_file book.now (length out.old)) out.old) }
{
    of_translation(translate::translate(book, out))
}

// Runs a rule strip on a board, up to so many firings of so many steps each, and writes the board that it ends with from the start of the output.
pub fn llwybrenu_run_strip(
    strip: &[u8],
    board: &[u8],
    limit: u16,
    allowance: u64,
    out: &mut [u8],
) -> Answer
    ensures { (answer_of result ≡ shown (run_strip_file strip.now board.now limit allowance (length out.old)).answer)
        × (out.new ≡ bytes_after (run_strip_file strip.now board.now limit allowance (length out.old)) out.old) }
{
    of_run(machine::run::run_strip(strip, board, limit, allowance, out))
}
