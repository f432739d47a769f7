// The display program of document 01, from files to screen.
#![tactic(auto)]

mod plain_run;

use board::Board;
use book::Book;
pub use plain_run::display;
use screen::Screen;
use terminal::{read_or_empty, say_bytes};

// Shows the run of the files `book` and `board` of the folder that it is run in. One byte more than the longest file is enough for every answer.
pub fn show(rt: HostRuntime) {
    let mut book_space = [0; Book::LONGEST + 1];
    let mut board_space = [0; Board::LONGEST + 1];
    let Ok(book) = read_or_empty(rt, b"book", &mut book_space) else {
        return;
    };
    let Ok(board) = read_or_empty(rt, b"board", &mut board_space) else {
        return;
    };
    let mut text = [0; Screen::BYTES];
    let end = display(book, board, &mut text);
    say_bytes(rt, &text[..end]);
}
