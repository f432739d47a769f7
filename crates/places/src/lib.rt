// Where things stand in a book: readers by position for whoever reads an accepted book in place. They judge nothing, and take any bytes.
#![tactic(auto)]

ghost use Rattle.std.specs.Prelude.{◌≡◌, ℕ, ◌+◌, ◌*◌, ◌≤◌, ◌<◌, length};
ghost use Rattle.meaning.specs.Facts.{longest_book};
ghost use Rattle.kinds.specs.Listed.{kinds_of};
ghost use Rattle.files.specs.InPlace.{term_at, test_at};
ghost use Rattle.words.specs.Meant.{as_term, as_test};
ghost use Rattle.places.specs.Stands.{mark_stands, term_stands, test_stands, term_said, test_said, atom_size, Computes, records_from, atoms_from, tests_from, conditions_from, groups_end, sweeps_from, rule_end, rules_from};

use book::Book;
use fields::{byte_at, two_at};
use kinds::Kinds;
use words::Comparison;

// A term: its tag (0 constant, 1 variable) and its value. What it says is a `words::Term`.
#[derive(Clone, Copy)]
pub struct Term {
    pub tag: u8,
    pub value: u16,
}

// A test: its number (0 equal, 1 unequal, 2 less, 3 less or equal) and its terms. What it says is a `words::Test`.
#[derive(Clone, Copy)]
pub struct Test {
    pub number: u8,
    pub left: Term,
    pub right: Term,
}

// So many records, and the place after them.
#[derive(Clone, Copy)]
pub struct Span {
    pub count: usize,
    pub next: usize,
}

// What a rule or a sweep asks for: where its body atoms and its tests stand, and how many they are; its heads stand after them.
#[derive(Clone, Copy)]
pub struct Conditions {
    pub body_at: usize,
    pub body: usize,
    pub tests_at: usize,
    pub tests: usize,
    pub heads_at: usize,
}

// Does a record with the mark stand at the place? Past the longest book none does.
pub fn is_marked(book: &[u8], at: usize, mark: &[u8; 2]) -> bool
    ensures { result ≡ mark_stands book.now mark.now at }
{
    at < Book::LONGEST && byte_at(book, at) == mark[0] && byte_at(book, at + 1) == mark[1]
}

// The term at a place, whatever its tag; past the end it is of zeros.
pub fn term_at(book: &[u8], at: usize) -> Term
    ensures { result ≡ term_stands book.now at }
{
    match book.get(at) {
        None => Term { tag: 0, value: 0 },
        Some(tag) => Term {
            tag: *tag,
            value: two_at(book, at + 1),
        },
    }
}

// The test whose number stands at a place, whatever the number; past the longest book one of zeros.
pub fn test_at(book: &[u8], at: usize) -> Test
    ensures { result ≡ test_stands book.now at }
{
    if Book::LONGEST <= at {
        return Test {
            number: 0,
            left: Term { tag: 0, value: 0 },
            right: Term { tag: 0, value: 0 },
        };
    }
    Test {
        number: byte_at(book, at),
        left: term_at(book, at + 1),
        right: term_at(book, at + 4),
    }
}

// What the term at a place says: a constant, or by any other tag than 0 a variable.
pub fn term_said(book: &[u8], at: usize) -> words::Term
    ensures { (result ≡ term_said book.now at) × (as_term result ≡ term_at book.now at) }
{
    let term = term_at(book, at);
    words::Term::tagged(term.tag, term.value)
}

// What the test says whose number stands at a place: by any number above 2 it is of less or equal.
#[tactic(auto, using(crate::specs::StandsLaws::test_said_reads))]
pub fn test_said(book: &[u8], at: usize) -> words::Test
    ensures { (result ≡ test_said book.now at) × (length book.now ≤ longest_book → as_test result ≡ (test_at book.now at).value) }
{
    let test = test_at(book, at);
    words::Test {
        comparison: Comparison::from(test.number),
        left: words::Term::tagged(test.left.tag, test.left.value),
        right: words::Term::tagged(test.right.tag, test.right.value),
    }
}

// How many bytes the atom takes whose kind stands at a place.
pub fn atom_size(book: &[u8], kinds: Kinds, at: usize) -> usize
    ensures { (result ≡ atom_size book.now (kinds_of kinds) at) × (result < 1000) }
{
    let arity = usize::from(kinds.arity_of(byte_at(book, at)));
    1 + 3 * arity
}

// The records that have the mark, at most so many, from a place on; `after` tells the place after a record by that of its fields.
fn records<F: Fn(usize) -> usize>(
    book: &[u8],
    mark: &[u8; 2],
    most: usize,
    at: usize,
    after: F,
) -> Span
    requires { (p : ℕ) → p < longest_book + 2 → F.pre after p }
    ensures { (g : ℕ → ℕ) → Computes (F.post after) g → result ≡ records_from book.now mark.now g most 0 at }
{
    let mut next = at;
    for count in 0..most {
        if !is_marked(book, next, mark) {
            return Span { count, next };
        }
        next = after(next + 2);
    }
    Span { count: most, next }
}

// The atoms that have the mark, at most so many, from a place on.
#[tactic(auto, unfolding(crate::specs::Stands::atom_end))]
pub fn atoms(book: &[u8], kinds: Kinds, mark: &[u8; 2], most: usize, at: usize) -> Span
    ensures { result ≡ atoms_from book.now (kinds_of kinds) mark.now most at }
{
    records(
        book,
        mark,
        most,
        at,
        |p|
            requires { p < longest_book + 2 }
        { p + atom_size(book, kinds, p) },
    )
}

// The tests, at most so many, from a place on.
pub fn tests(book: &[u8], most: usize, at: usize) -> Span
    ensures { result ≡ tests_from book.now most at }
{
    records(
        book,
        &Book::TE,
        most,
        at,
        |p|
            requires { p < longest_book + 2 }
        { p + 7 },
    )
}

// A body and its tests, at most so many of each, from a place on.
#[tactic(auto, unfolding(crate::specs::Stands::conditions_from))]
pub fn conditions_at(book: &[u8], kinds: Kinds, most: usize, at: usize) -> Conditions
    ensures { result ≡ conditions_from book.now (kinds_of kinds) most at }
{
    let body = atoms(book, kinds, &Book::BA, most, at);
    let tested = tests(book, most, body.next);
    Conditions {
        body_at: at,
        body: body.count,
        tests_at: body.next,
        tests: tested.count,
        heads_at: tested.next,
    }
}

// The place after a body, its tests and its heads, at most so many of each, from a place on.
#[tactic(auto, unfolding(crate::specs::Stands::groups_end))]
pub fn groups_end(book: &[u8], kinds: Kinds, most: usize, at: usize) -> usize
    ensures { result ≡ groups_end book.now (kinds_of kinds) most at }
{
    let own = conditions_at(book, kinds, most, at);
    let heads = atoms(book, kinds, &Book::HE, most, own.heads_at);
    heads.next
}

// The sweeps of a rule, from the place after its heads on.
pub fn sweeps(book: &[u8], kinds: Kinds, at: usize) -> Span
    ensures { result ≡ sweeps_from book.now (kinds_of kinds) at }
{
    records(
        book,
        &Book::SW,
        Book::SWEEPS,
        at,
        |p| groups_end(book, kinds, Book::IN_SWEEP, p),
    )
}

// The place after a rule whose body stands at the place.
#[tactic(auto, unfolding(crate::specs::Stands::rule_end))]
pub fn rule_end(book: &[u8], kinds: Kinds, at: usize) -> usize
    ensures { result ≡ rule_end book.now (kinds_of kinds) at }
{
    let own = groups_end(book, kinds, Book::IN_RULE, at);
    let swept = sweeps(book, kinds, own);
    swept.next
}

// The rules, at most so many, from a place on.
pub fn rules(book: &[u8], kinds: Kinds, most: usize, at: usize) -> Span
    ensures { result ≡ rules_from book.now (kinds_of kinds) most at }
{
    records(book, &Book::RU, most, at, |p| rule_end(book, kinds, p))
}
