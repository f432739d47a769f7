// Document 01's display: the plain run of two files, as text.
ghost use Rattle.screen.specs.Shows.{TextPut};
ghost use Rattle.screen.specs.Displayed.{screen_text};

use board::Board;
use engine::llwybrenu_run_book;
use screen::text;

// The text for the files `book` and `board`, with the firing limit 100.
pub fn display(book: &[u8], board: &[u8], out: &mut [u8]) -> usize
    ensures { TextPut (screen_text book.now board.now) out.old out.new result }
{
    let mut after = [0; Board::LONGEST];
    let answer = llwybrenu_run_book(book, board, 100, &mut after);
    text(
        answer,
        book::kinds(book),
        &after[..answer.length as usize],
        out,
    )
}
