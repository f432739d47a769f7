// The commands that run nothing: check, check-strip, list and translate. Each ends early where a file can't be read or written.
use crate::refusals::refuse;
use crate::written::written;
use answers::{Answer, Reason};
use board::Board;
use book::Book;
use command::arguments::Argument;
use command::listing::say_strip;
use command::refusals::Files;
use strip::Strip;
use terminal::{Told, say};

// What a check found.
fn tell(rt: HostRuntime, answer: Answer, files: Files) {
    match Reason::try_from(answer.number) {
        Ok(_) => refuse(rt, answer, files),
        Err(_) => say(rt, "accepted\n"),
    }
}

// check BOOK [BOARD]
pub fn check(rt: HostRuntime, book: Argument, board: Option<Argument>) -> Result<(), Told> {
    let mut book_space = [0; Book::LONGEST + 1];
    let book = book.read(rt, &mut book_space)?;
    let Some(board) = board else {
        tell(
            rt,
            engine::llwybrenu_check_book(book),
            Files::without_board(book),
        );
        return Ok(());
    };
    let mut board_space = [0; Board::LONGEST + 1];
    let board = board.read(rt, &mut board_space)?;
    tell(
        rt,
        engine::llwybrenu_check_board(book, board),
        Files { first: book, board },
    );
    Ok(())
}

// check-strip STRIP
pub fn check_strip(rt: HostRuntime, strip: Argument) -> Result<(), Told> {
    let mut space = [0; Strip::LONGEST + 1];
    let strip = strip.read(rt, &mut space)?;
    tell(
        rt,
        engine::llwybrenu_check_strip(strip),
        Files::without_board(strip),
    );
    Ok(())
}

// list STRIP
pub fn list(rt: HostRuntime, strip: Argument) -> Result<(), Told> {
    let mut space = [0; Strip::LONGEST + 1];
    let strip = strip.read(rt, &mut space)?;
    let answer = engine::llwybrenu_check_strip(strip);
    match Reason::try_from(answer.number) {
        Ok(_) => refuse(rt, answer, Files::without_board(strip)),
        Err(_) => say_strip(rt, strip),
    }
    Ok(())
}

// translate BOOK -o STRIP
pub fn translate(rt: HostRuntime, book: Argument, target: Argument) -> Result<(), Told> {
    let mut book_space = [0; Book::LONGEST + 1];
    let book = book.read(rt, &mut book_space)?;
    let mut space = [0; Strip::LONGEST];
    let answer = engine::llwybrenu_translate(book, &mut space);
    if Reason::try_from(answer.number).is_ok() {
        refuse(rt, answer, Files::without_board(book));
        return Ok(());
    }
    let strip = written(answer, &space);
    target.write(rt, strip)?;
    say(rt, "translated: ");
    let _ = rt.print(strip.len() / Strip::WORD);
    say(rt, " words\n");
    Ok(())
}
