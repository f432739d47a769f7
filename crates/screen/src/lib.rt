// What a screen shows of an answer, as text in lent bytes: document 01's display. A writer puts one piece of text behind another, as much as fits.
#![tactic(auto)]

ghost use Rattle.std.specs.Prelude.{◌≡◌, [], ◌∷◌, ◌+◌, ◌*◌, ◌%◌, ◌≤◌, ◌<◌};
ghost use Rattle.files.specs.Display.{digits_before, decimal};
ghost use Rattle.files.specs.Marks.{is_mark};
ghost use Rattle.files.specs.InPlace.{byte_at, two_at, many_at, fact_at, records_at, board_at};
ghost use Rattle.kinds.specs.Listed.{kinds_of};
ghost use Rattle.answers.specs.Shown.{answer_of};
ghost use Rattle.screen.specs.Text.{numbers_text, file_text, end_line, refusal_line, board_lines, answer_text};
ghost use Rattle.screen.specs.Shows.{Puts, RowPut, RowsPut, TextPut};

use answers::Answer;
use board::Board;
use fields::{byte_at, two_at};
use kinds::Kinds;

// The home of a screen's size.
#[derive(Clone, Copy)]
pub struct Screen {}

impl Screen {
    // Enough for every display: a line for the end, 256 of 32 bytes for cards and 128 of 34 for notices (Fits `display-fits`).
    pub const BYTES: usize = 12608;
}

// The text so far: it stands in the lent bytes up to the place where the next byte goes. What finds no room is left out.
#[derive(Drop)]
struct Writer<'a> {
    out: &'a mut [u8],
    at: usize,
}

// The last digit of a number, in ASCII.
fn last_digit(n: u64) -> u8
    ensures { result ≡ 48 + n % 10 }
{
    b'0' + (n % 10) as u8
}

// Does a record with the mark stand at the place? (As `marked_at` of rows: shared it would be public, and public functions ask nothing of a caller.)
fn is_marked(board: &[u8], at: usize, mark: &[u8; 2]) -> bool
    requires { at < 1000000 }
    ensures { result ≡ is_mark mark.now (byte_at board.now at) (byte_at board.now (at + 1)) }
{
    byte_at(board, at) == mark[0] && byte_at(board, at + 1) == mark[1]
}

impl Writer<'_> {
    // One byte.
    fn put_byte(&mut self, byte: u8)
        ensures { Puts self.old self.new (byte ∷ []) }
    {
        if self.at < self.out.len() {
            self.out[self.at] = byte;
            self.at += 1;
        }
    }

    // Some bytes.
    fn put(&mut self, text: &[u8])
        ensures { Puts self.old self.new text.now }
    {
        for byte in text {
            self.put_byte(*byte);
        }
    }

    // The last digits of a number, at most so many.
    fn put_digits(&mut self, most: usize, n: u64)
        ensures { Puts self.old self.new (digits_before most n []) }
    {
        if most == 0 {
            return;
        }
        if 10 <= n {
            self.put_digits(most - 1, n / 10);
        }
        self.put_byte(last_digit(n));
    }

    // A number in decimal.
    fn put_number(&mut self, n: u64)
        ensures { Puts self.old self.new (decimal n) }
    {
        self.put_digits(20, n);
    }

    // The numbers that stand from a place of the board on, each behind a space.
    fn put_numbers(&mut self, board: &[u8], from: usize, count: u8)
        requires { from ≤ 1000000 }
        ensures { Puts self.old self.new (numbers_text (many_at (two_at board.now) 2 count from)) }
    {
        for number in 0..usize::from(count) {
            self.put_byte(b' ');
            self.put_number(u64::from(two_at(board, from + 2 * number)));
        }
    }

    // The line of a row: the word for its class, its kind and its numbers, which stand at a place of the board. Gives the place after the row.
    fn put_row(&mut self, word: &[u8], kinds: Kinds, board: &[u8], from: usize) -> usize
        requires { from < 1000000 }
        ensures { RowPut (fact_at board.now (kinds_of kinds) from) word.now self.old self.new result from }
    {
        let kind = byte_at(board, from);
        let arity = kinds.arity_of(kind);
        self.put(word);
        self.put_number(u64::from(kind));
        self.put_numbers(board, from + 1, arity);
        self.put_byte(b'\n');
        from + 1 + 2 * usize::from(arity)
    }

    // The lines of the rows of a class: the records that have its mark, at most so many, from a place of the board on. Gives the place after them.
    fn put_rows(
        &mut self,
        word: &[u8],
        mark: &[u8; 2],
        most: usize,
        kinds: Kinds,
        board: &[u8],
        from: usize,
    ) -> usize
        requires { (most ≤ 256) × (from ≤ 513 * 256) }
        ensures { RowsPut (records_at board.now mark.now (fact_at board.now (kinds_of kinds)) most from) word.now self.old self.new result from most }
    {
        let mut place = from;
        for _row in 0..most {
            if !is_marked(board, place, mark) {
                return place;
            }
            place = self.put_row(word, kinds, board, place + 2);
        }
        place
    }

    // Every row of the board, the cards first.
    fn put_board(&mut self, kinds: Kinds, board: &[u8])
        ensures { Puts self.old self.new (board_lines (board_at board.now (kinds_of kinds))) }
    {
        let notices = self.put_rows(b"card ", &Board::CA, Board::CARDS, kinds, board, 0);
        self.put_rows(
            b"notice ",
            &Board::NO,
            Board::NOTICES,
            kinds,
            board,
            notices,
        );
    }

    // The line of a run's end.
    fn put_end(&mut self, answer: Answer)
        ensures { Puts self.old self.new (end_line (answer_of answer)) }
    {
        self.put(b"fired ");
        self.put_number(u64::from(answer.firings));
        self.put(b" end ");
        self.put_number(u64::from(answer.number));
        self.put(b" rule ");
        self.put_number(u64::from(answer.rule));
        self.put_byte(b'\n');
    }

    // The name of a file, by the number that an answer of the C interface has for it.
    fn put_file(&mut self, file: u8)
        ensures { Puts self.old self.new (file_text file) }
    {
        match file {
            1 => self.put(b"book "),
            2 => self.put(b"strip "),
            3 => self.put(b"board "),
            _ => self.put(b"output "),
        }
    }

    // The line of a refusal.
    fn put_refusal(&mut self, answer: Answer)
        ensures { Puts self.old self.new (refusal_line (answer_of answer)) }
    {
        self.put(b"refused ");
        self.put_file(answer.file);
        self.put_number(u64::from(answer.number));
        self.put_byte(b' ');
        self.put_number(u64::from(answer.place));
        self.put_byte(b'\n');
    }

    // The whole text; an answer has its number as the C interface has it.
    fn put_answer(&mut self, answer: Answer, kinds: Kinds, board: &[u8])
        ensures { Puts self.old self.new (answer_text (answer_of answer) (board_at board.now (kinds_of kinds))) }
    {
        match answer.number {
            0 => self.put(b"accepted\n"),
            1..=19 => self.put_refusal(answer),
            _ => {
                self.put_end(answer);
                self.put_board(kinds, board);
            }
        }
    }
}

// An answer's text: of a run's end with the rows of the board that it gives, of a refusal, or that a file is accepted.
pub fn text(answer: Answer, kinds: Kinds, board: &[u8], out: &mut [u8]) -> usize
    ensures { TextPut (answer_text (answer_of answer) (board_at board.now (kinds_of kinds))) out.old out.new result }
{
    let mut writer = Writer { out, at: 0 };
    writer.put_answer(answer, kinds, board);
    writer.at
}
