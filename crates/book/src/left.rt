// What is left of a book from a record on, and its refusals.
ghost use Rattle.std.specs.Prelude.{◌≡◌, ◌≤◌, length, drop};

use answers::{File, Reason, Refusal};

// The bytes from a record on, and the place of the book's end.
#[derive(Clone, Copy)]
pub(crate) struct Rest<'a> {
    pub(crate) bytes: &'a [u8],
    pub(crate) end: usize,
    ghost within: { length bytes.now ≤ end },
}

impl<'a> Rest<'a> {
    ghost use Rattle.answers.specs.declared.Reason.TheVariants as R;
    ghost use Rattle.book.specs.Left.{place, of_book};

    // All of a book.
    pub(crate) fn whole(book: &'a [u8]) -> Rest<'a>
        ensures bytes { result.bytes.now ≡ book.now }
        ensures end { result.end ≡ length book.now }
    {
        Rest {
            bytes: book,
            end: book.len(),
        }
    }

    // The place where the record starts.
    pub(crate) fn place(&self) -> usize
        ensures { result ≡ place self.now }
    {
        self.end - self.bytes.len()
    }

    // The book ends within the record.
    pub(crate) fn cut(&self) -> Refusal
        ensures { result ≡ of_book R.Cut self.now.end }
    {
        Refusal {
            file: File::Book,
            reason: Reason::Cut,
            place: self.end,
        }
    }

    // The record is refused as a whole: at its place.
    pub(crate) fn refused(&self, reason: Reason) -> Refusal
        ensures { result ≡ of_book reason (place self.now) }
    {
        Refusal {
            file: File::Book,
            reason,
            place: self.place(),
        }
    }

    // What is left after so many bytes more.
    pub(crate) fn after(&self, bytes: usize) -> Rest<'a>
        requires { bytes ≤ length self.now.bytes.now }
        ensures bytes { result.bytes.now ≡ drop bytes self.now.bytes.now }
        ensures end { result.end ≡ self.now.end }
    {
        Rest {
            bytes: &self.bytes[bytes..],
            end: self.end,
        }
    }
}
