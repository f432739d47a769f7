// The places of a book's rules, found by one walk over the bytes of an accepted book.
ghost use Rattle.std.specs.Prelude.{◌≡◌, ◌≤◌, ◌<◌, length, get_or};
ghost use Rattle.meaning.specs.Facts.{most_kinds, longest_book};
ghost use Rattle.files.specs.InPlace.{kinds_at};
ghost use Rattle.kinds.specs.Listed.{kinds_of};
ghost use Rattle.plain.specs.Stands.{places_from};
ghost use Rattle.plain.specs.Playing.{places_of};

use book::Book;
use kinds::Kinds;
use places::{is_marked, rule_end};

// The places of the rules' bodies in the book, found once. (An array and a count, since the engine has no heap.)
#[derive(Clone, Copy)]
pub(in crate) struct Rules {
    pub at: [u16; 32],
    pub count: usize,
}

impl Rules {
    // The place of rule i's body.
    pub(in crate) fn place(&self, i: usize) -> usize
        requires { i < 32 }
        ensures { (result ≡ get_or self.now.at i 0) × (result < 65536) }
    {
        let place = self.at[i];
        place as usize
    }
}

// Finds them. Each kind takes four bytes, and the rules come after the kinds.
pub(in crate) fn rules_of(book: &[u8], kinds: Kinds) -> Rules
    requires { (length book.now ≤ longest_book) × (kinds_of kinds ≡ (kinds_at book.now).value) × (kinds.count ≤ most_kinds) }
    ensures { places_from result.at 0 result.count ≡ places_of book.now }
{
    let mut at = [0u16; 32];
    let mut next = 4 * kinds.count;
    for count in 0..Book::RULES {
        if !is_marked(book, next, &Book::RU) {
            return Rules { at, count };
        }
        let place = next + 2;
        at[count] = place as u16;
        next = rule_end(book, kinds, place);
    }
    Rules {
        at,
        count: Book::RULES,
    }
}
