// The engine for other languages: the six entries of crates/engine as functions of C, under the same clauses. Every function takes any bytes.
#![tactic(auto)]

ghost use Rattle.std.specs.Prelude.{◌≡◌, length};
ghost use Rattle.files.specs.Entries.{bytes_after, check_book, check_board, check_strip, run_book_file, translate_file, run_strip_file};
ghost use Rattle.answers.specs.Shown.{answer_of, shown};

use answers::Answer;

// Is the file a rule book?
#[unsafe(no_mangle)]
pub extern "C" fn llwybrenu_check_book(book: &[u8]) -> Answer
    ensures { answer_of result ≡ shown (check_book book.now).answer }
{
    engine::llwybrenu_check_book(book)
}

// Is the file a rule strip?
#[unsafe(no_mangle)]
pub extern "C" fn llwybrenu_check_strip(strip: &[u8]) -> Answer
    ensures { answer_of result ≡ shown (check_strip strip.now).answer }
{
    engine::llwybrenu_check_strip(strip)
}

// Is the second file a board of the book that the first one is?
#[unsafe(no_mangle)]
pub extern "C" fn llwybrenu_check_board(book: &[u8], board: &[u8]) -> Answer
    ensures { answer_of result ≡ shown (check_board book.now board.now).answer }
{
    engine::llwybrenu_check_board(book, board)
}

// Runs a rule book on a board, up to so many firings, and writes the board that it ends with from the start of the output.
#[unsafe(no_mangle)]
pub extern "C" fn llwybrenu_run_book(
    book: &[u8],
    board: &[u8],
    limit: u16,
    out: &mut [u8],
) -> Answer
    ensures { (answer_of result ≡ shown (run_book_file book.now board.now limit (length out.old)).answer)
        × (out.new ≡ bytes_after (run_book_file book.now board.now limit (length out.old)) out.old) }
{
    engine::llwybrenu_run_book(book, board, limit, out)
}

// Translates a rule book into a rule strip: gives its length, and writes it from the start of the output.
#[unsafe(no_mangle)]
pub extern "C" fn llwybrenu_translate(book: &[u8], out: &mut [u8]) -> Answer
    ensures { (answer_of result ≡ shown (translate_file book.now (length out.old)).answer)
        × (out.new ≡ bytes_after (translate_file book.now (length out.old)) out.old) }
{
    engine::llwybrenu_translate(book, out)
}

// Runs a rule strip on a board, up to so many firings of so many steps each, and writes the board that it ends with from the start of the output.
#[unsafe(no_mangle)]
pub extern "C" fn llwybrenu_run_strip(
    strip: &[u8],
    board: &[u8],
    limit: u16,
    allowance: u64,
    out: &mut [u8],
) -> Answer
    ensures { (answer_of result ≡ shown (run_strip_file strip.now board.now limit allowance (length out.old)).answer)
        × (out.new ≡ bytes_after (run_strip_file strip.now board.now limit allowance (length out.old)) out.old) }
{
    engine::llwybrenu_run_strip(strip, board, limit, allowance, out)
}
