// The commands that run a book or a strip on a board: the display's lines, and the board that the run ends with.
use crate::refusals::refuse;
use crate::written::written;
use answers::{Answer, Reason};
use board::Board;
use book::Book;
use command::arguments::Argument;
use command::refusals::Files;
use kinds::Kinds;
use screen::Screen;
use strip::Strip;
use terminal::{Told, say_bytes};

// What a run came to: the board is written first, so that nothing is shown where that fails.
fn settle(
    rt: HostRuntime,
    answer: Answer,
    kinds: Kinds,
    files: Files,
    after: &[u8],
    target: Option<Argument>,
) -> Result<(), Told> {
    if Reason::try_from(answer.number).is_ok() {
        refuse(rt, answer, files);
        return Ok(());
    }
    let board = written(answer, after);
    if let Some(target) = target {
        target.write(rt, board)?;
    }
    let mut text = [0; Screen::BYTES];
    let end = screen::text(answer, kinds, board, &mut text);
    say_bytes(rt, &text[..end]);
    Ok(())
}

// Runs a book or a strip, as it was read, on the board that a word names: the entry runs it, and its kinds are those that it declares.
fn run_on<F: FnOnce(&[u8], &[u8], &mut [u8]) -> Answer>(
    rt: HostRuntime,
    first: &[u8],
    kinds: Kinds,
    board: Argument,
    target: Option<Argument>,
    entry: F,
) -> Result<(), Told>
    requires { F.IsAlwaysCallable entry }
{
    let mut space = [0; Board::LONGEST + 1];
    let board = board.read(rt, &mut space)?;
    let mut after = [0; Board::LONGEST];
    let answer = entry(first, board, &mut after);
    settle(rt, answer, kinds, Files { first, board }, &after, target)
}

// run BOOK BOARD [LIMIT] [-o FILE]
pub fn run(
    rt: HostRuntime,
    book: Argument,
    board: Argument,
    limit: u16,
    target: Option<Argument>,
) -> Result<(), Told> {
    let mut space = [0; Book::LONGEST + 1];
    let book = book.read(rt, &mut space)?;
    run_on(
        rt,
        book,
        book::kinds(book),
        board,
        target,
        |book, board, after| engine::llwybrenu_run_book(book, board, limit, after),
    )
}

// run-strip STRIP BOARD [LIMIT] [ALLOWANCE] [-o FILE]
pub fn run_strip(
    rt: HostRuntime,
    strip: Argument,
    board: Argument,
    limit: u16,
    allowance: u64,
    target: Option<Argument>,
) -> Result<(), Told> {
    let mut space = [0; Strip::LONGEST + 1];
    let strip = strip.read(rt, &mut space)?;
    run_on(
        rt,
        strip,
        strip::kinds(strip),
        board,
        target,
        |strip, board, after| engine::llwybrenu_run_strip(strip, board, limit, allowance, after),
    )
}
