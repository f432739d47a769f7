// The book: its sizes and marks, the reader that judges a file as a book, and the kinds that it declares.
#![tactic(auto)]

ghost use Rattle.std.specs.Prelude.{◌≡◌, ℕ, ◌≤◌, ◌<◌, List, [], ◌∷◌, length, drop, get_or};
ghost use Rattle.files.specs.Numbers as N;
ghost use Rattle.files.specs.Judge.{told};
ghost use Rattle.files.specs.Book.{mark_of, judge_book, Reading, fields};
ghost use Rattle.files.specs.Book as B;
ghost use Rattle.files.specs.InPlace.{byte_at, term_at};
ghost use Rattle.meaning.specs.Facts.{variables};
ghost use Rattle.answers.specs.Refused.{about, told_by};
ghost use Rattle.book.specs.Sets.{is_in, with_variable};
ghost use Rattle.book.specs.Kinds.{KindsRead};
ghost use Rattle.book.specs.Left.{place};
ghost use Rattle.book.specs.Reads.{Ends, Known, TermReads, TermsRead, AtomReads, KindReads, TestReads};
ghost use Rattle.book.specs.Holds.{with_rules, mark_is, marked, in_body, MayStand, Lacks, Most, FieldsRead, FieldsLed, RecordReads};

mod left;

use answers::{Reason, Refusal};
use fields::{byte_at, starts_with, two_at};
use kinds::Kinds;
use left::Rest;

// A set of variables: bit v is variable v.
#[derive(Clone, Copy)]
struct Variables {
    bits: u16,
}

// A book as far as it is read.
#[derive(Clone, Copy)]
pub struct Book {
    kinds: Kinds,
    // how many rules, the open one among them
    rules: usize,
    // of the open rule or sweep: how many body atoms, tests and head atoms
    body: usize,
    tests: usize,
    heads: usize,
    // of the open rule: how many sweeps, the open one among them; has its body a card atom; the variables of its body
    sweeps: usize,
    carded: bool,
    own: Variables,
    // the variables that a test or head may have here
    bound: Variables,
}

// The marks that a book has.
#[derive(Clone, Copy)]
enum Mark {
    Kd,
    Ru,
    Ba,
    Te,
    He,
    Sw,
    En,
}

// Terms: how many bytes of the record are read with them, and the variables that are known after them.
#[derive(Clone, Copy)]
struct Scan {
    bytes: usize,
    known: Variables,
}

// A record: how many bytes it has, and the book as far as it is read after it.
#[derive(Clone, Copy)]
struct Next {
    bytes: usize,
    book: Book,
}

impl Variables {
    const NONE: Variables = Variables { bits: 0 };

    const ALL: Variables = Variables { bits: 0xfff };

    // Is the variable in the set?
    #[tactic(auto, unfolding(crate::specs::Sets::is_in))]
    fn has(self, v: usize) -> bool
        requires { v < variables }
        ensures { result ≡ is_in self.bits v }
    {
        (self.bits >> v) % 2 == 1
    }

    // The set with the variable.
    #[tactic(auto, using(crate::proofs::SetLaws::one_shifted), unfolding(crate::specs::Sets::with_variable))]
    fn with(self, v: usize) -> Variables
        requires { v < variables }
        ensures { result.bits ≡ with_variable self.bits v }
    {
        Variables {
            bits: self.bits | (1u16 << v),
        }
    }

    // The set with the variable of a term, if it is one.
    #[tactic(auto, using(crate::proofs::SetLaws::in_with))]
    fn with_term(self, term: &[u8]) -> Variables
        ensures { Known self.bits (term_at term.now 0 ∷ []) result.bits }
    {
        if byte_at(term, 0) == 0 {
            return self;
        }
        let v = usize::from(two_at(term, 1));
        if Book::VARIABLES <= v {
            return self;
        }
        self.with(v)
    }
}

impl Mark {
    // The mark of two bytes.
    fn of(bytes: [u8; 2]) -> Option<Mark>
        ensures { marked result ≡ mark_of (get_or bytes 0 0) (get_or bytes 1 0) }
    {
        match bytes {
            Book::KD => Some(Mark::Kd),
            Book::RU => Some(Mark::Ru),
            Book::BA => Some(Mark::Ba),
            Book::TE => Some(Mark::Te),
            Book::HE => Some(Mark::He),
            Book::SW => Some(Mark::Sw),
            Book::EN => Some(Mark::En),
            _ => None,
        }
    }

    // Is a record with the mark judged before the body is whole?
    fn in_body(self) -> bool
        ensures { result ≡ in_body (mark_is self) }
    {
        matches!(self, Mark::Kd | Mark::Ba)
    }
}

// One term, where `term` starts; `free` are the variables that it may be. CUT is told at the book's end, all else at the record.
fn read_term(rest: &Rest, term: &[u8], free: Variables) -> Result<usize, Refusal>
    ensures { TermReads rest.now term.now free.bits result }
{
    if term.is_empty() {
        return Err(rest.cut());
    }
    let tag = term[0];
    if 1 < tag {
        return Err(rest.refused(Reason::Field));
    }
    if term.len() < 3 {
        return Err(rest.cut());
    }
    if tag == 0 {
        return Ok(3);
    }
    let v = usize::from(two_at(term, 1));
    if Book::VARIABLES <= v {
        return Err(rest.refused(Reason::Field));
    }
    if !free.has(v) {
        return Err(rest.refused(Reason::Loose));
    }
    Ok(3)
}

// So many terms, from the record's byte 3 on.
fn read_terms(rest: &Rest, count: usize, free: Variables, known: Variables) -> Result<Scan, Refusal>
    requires { 3 ≤ length rest.now.bytes.now }
    ensures { TermsRead rest.now count free.bits known.bits result }
{
    let mut terms = &rest.bytes[3..];
    let mut now = known;
    for _ in 0..count {
        let bytes = read_term(rest, terms, free)?;
        now = now.with_term(terms);
        terms = &terms[bytes..];
    }
    Ok(Scan {
        bytes: rest.bytes.len() - terms.len(),
        known: now,
    })
}

// A record's kind and its terms.
#[tactic(auto, using(crate::proofs::RecordLaws::count_is, crate::proofs::RecordLaws::atom_made))]
fn read_atom(rest: &Rest, kinds: Kinds, free: Variables, known: Variables) -> Result<Scan, Refusal>
    ensures { AtomReads rest.now kinds free.bits known.bits result }
{
    if rest.bytes.len() < 3 {
        return Err(rest.cut());
    }
    let kind = rest.bytes[2];
    if kinds.count <= usize::from(kind) {
        return Err(rest.refused(Reason::Field));
    }
    let arity = usize::from(kinds.arity_of(kind));
    read_terms(rest, arity, free, known)
}

// A record's class and arity.
fn read_kind(rest: &Rest) -> Result<usize, Refusal>
    ensures { KindReads rest.now result }
{
    if rest.bytes.len() < 3 {
        return Err(rest.cut());
    }
    if 1 < rest.bytes[2] {
        return Err(rest.refused(Reason::Field));
    }
    if rest.bytes.len() < 4 {
        return Err(rest.cut());
    }
    if Book::NUMBERS < usize::from(rest.bytes[3]) {
        return Err(rest.refused(Reason::Field));
    }
    Ok(4)
}

// A record's test number and its two terms.
#[tactic(auto, using(crate::proofs::RecordLaws::test_made))]
fn read_test(rest: &Rest, bound: Variables) -> Result<Scan, Refusal>
    ensures { TestReads rest.now bound.bits result }
{
    if rest.bytes.len() < 3 {
        return Err(rest.cut());
    }
    if 3 < rest.bytes[2] {
        return Err(rest.refused(Reason::Field));
    }
    read_terms(rest, 2, bound, bound)
}

// `en`: the end, and TRAIL at the first byte after it.
fn read_en(rest: &Rest) -> Result<(), Refusal>
    requires { 2 ≤ length rest.now.bytes.now }
    ensures { (r : Reading) → Ends rest.now.end (fields rest.now.end B.en (place rest.now) r (drop 2 rest.now.bytes.now)) result }
{
    let after = rest.after(2);
    if after.bytes.is_empty() {
        return Ok(());
    }
    Err(after.refused(Reason::Trail))
}

impl Book {
    pub const KINDS: usize = Kinds::MOST;

    pub const RULES: usize = 32;

    pub const IN_RULE: usize = 6;

    pub const SWEEPS: usize = 2;

    pub const IN_SWEEP: usize = 4;

    pub const VARIABLES: usize = 12;

    pub const NUMBERS: usize = Kinds::NUMBERS;

    pub const LONGEST: usize = 17794;

    pub const KD: [u8; 2] = *b"kd";

    pub const RU: [u8; 2] = *b"ru";

    pub const BA: [u8; 2] = *b"ba";

    pub const TE: [u8; 2] = *b"te";

    pub const HE: [u8; 2] = *b"he";

    pub const SW: [u8; 2] = *b"sw";

    pub const EN: [u8; 2] = *b"en";

    // So many rules, of the last of which nothing is read.
    fn with_rules(kinds: Kinds, rules: usize) -> Book
        ensures { result ≡ with_rules kinds rules }
    {
        Book {
            kinds,
            rules,
            body: 0,
            tests: 0,
            heads: 0,
            sweeps: 0,
            carded: false,
            own: Variables::NONE,
            bound: Variables::NONE,
        }
    }

    // The most that a group of the open rule or sweep may have.
    fn most(self) -> usize
        ensures { Most self result }
    {
        if self.sweeps == 0 {
            return Book::IN_RULE;
        }
        Book::IN_SWEEP
    }

    // `kd`: one kind more.
    #[tactic(auto, using(crate::proofs::RecordLaws::count_is))]
    fn read_kd(self, rest: &Rest) -> Result<Next, Refusal>
        ensures { FieldsRead B.kd self rest.now result }
    {
        if Book::KINDS <= self.kinds.count {
            return Err(rest.refused(Reason::Many));
        }
        let bytes = read_kind(rest)?;
        let kinds = self
            .kinds
            .with(byte_at(rest.bytes, 2), byte_at(rest.bytes, 3));
        let book = Book { kinds, ..self };
        Ok(Next { bytes, book })
    }

    // `ru`: one rule more.
    fn read_ru(self, rest: &Rest) -> Result<Next, Refusal>
        ensures { FieldsRead B.ru self rest.now result }
    {
        if Book::RULES <= self.rules {
            return Err(rest.refused(Reason::Many));
        }
        let book = Book::with_rules(self.kinds, self.rules + 1);
        Ok(Next { bytes: 2, book })
    }

    // `ba`: one body atom more.
    fn read_ba(self, rest: &Rest) -> Result<Next, Refusal>
        ensures { FieldsRead B.ba self rest.now result }
    {
        if self.most() <= self.body {
            return Err(rest.refused(Reason::Many));
        }
        let scan = read_atom(rest, self.kinds, Variables::ALL, self.bound)?;
        let bytes = scan.bytes;
        let grown = Book {
            body: self.body + 1,
            bound: scan.known,
            ..self
        };
        if 0 < self.sweeps {
            return Ok(Next { bytes, book: grown });
        }
        let card = self.kinds.is_of_class(true, byte_at(rest.bytes, 2));
        let book = Book {
            carded: self.carded || card,
            own: scan.known,
            ..grown
        };
        Ok(Next { bytes, book })
    }

    // `te`: one test more.
    fn read_te(self, rest: &Rest) -> Result<Next, Refusal>
        ensures { FieldsRead B.te self rest.now result }
    {
        if self.most() <= self.tests {
            return Err(rest.refused(Reason::Many));
        }
        let scan = read_test(rest, self.bound)?;
        let book = Book {
            tests: self.tests + 1,
            ..self
        };
        Ok(Next {
            bytes: scan.bytes,
            book,
        })
    }

    // `he`: one head atom more.
    fn read_he(self, rest: &Rest) -> Result<Next, Refusal>
        ensures { FieldsRead B.he self rest.now result }
    {
        if self.most() <= self.heads {
            return Err(rest.refused(Reason::Many));
        }
        let scan = read_atom(rest, self.kinds, self.bound, self.bound)?;
        let book = Book {
            heads: self.heads + 1,
            ..self
        };
        Ok(Next {
            bytes: scan.bytes,
            book,
        })
    }

    // `sw`: one sweep more, which starts from the variables of the rule's body.
    fn read_sw(self, rest: &Rest) -> Result<Next, Refusal>
        ensures { FieldsRead B.sw self rest.now result }
    {
        if Book::SWEEPS <= self.sweeps {
            return Err(rest.refused(Reason::Many));
        }
        let book = Book {
            body: 0,
            tests: 0,
            heads: 0,
            sweeps: self.sweeps + 1,
            bound: self.own,
            ..self
        };
        Ok(Next { bytes: 2, book })
    }

    // PLACE: may a record with the mark stand here?
    fn may_stand(self, mark: Mark) -> bool
        ensures { MayStand self mark result }
    {
        match mark {
            Mark::Kd => self.rules == 0,
            Mark::Ba => 0 < self.rules && self.tests == 0 && self.heads == 0,
            Mark::Te => 0 < self.rules && self.heads == 0,
            Mark::He | Mark::Sw => 0 < self.rules,
            Mark::Ru | Mark::En => true,
        }
    }

    // NOCARD and BARE: what the open rule or sweep lacks before a record with the mark.
    fn lacking(self, mark: Mark) -> Option<Reason>
        ensures { Lacks self mark result }
    {
        if mark.in_body() || self.rules == 0 {
            return None;
        }
        if self.sweeps == 0 {
            return (!self.carded).then_some(Reason::Nocard);
        }
        (self.body == 0).then_some(Reason::Bare)
    }

    // MANY, then the fields left to right. After the end comes no record.
    fn read_fields(self, mark: Mark, rest: &Rest) -> Result<Option<Next>, Refusal>
        requires { 2 ≤ length rest.now.bytes.now }
        ensures { FieldsLed (mark_is mark) self rest.now result }
    {
        let next = match mark {
            Mark::Kd => self.read_kd(rest)?,
            Mark::Ru => self.read_ru(rest)?,
            Mark::Ba => self.read_ba(rest)?,
            Mark::Te => self.read_te(rest)?,
            Mark::He => self.read_he(rest)?,
            Mark::Sw => self.read_sw(rest)?,
            Mark::En => {
                read_en(rest)?;
                return Ok(None);
            }
        };
        Ok(Some(next))
    }

    // One record: its mark, PLACE, NOCARD or BARE, and the rest. After the end comes no record.
    #[tactic(auto, using(crate::proofs::LoopLaws::records))]
    fn read_record(self, rest: &Rest) -> Result<Option<Next>, Refusal>
        ensures { RecordReads self rest.now result }
    {
        let [a, b, ..] = *rest.bytes else {
            return Err(rest.cut());
        };
        let Some(mark) = Mark::of([a, b]) else {
            return Err(rest.refused(Reason::Mark));
        };
        if !self.may_stand(mark) {
            return Err(rest.refused(Reason::Place));
        }
        if let Some(reason) = self.lacking(mark) {
            return Err(rest.refused(reason));
        }
        self.read_fields(mark, rest)
    }
}

// Is the file a book? A refusal tells why not: record after record, each from what is left of the file. (A `while`: it goes on by as many bytes as a
// record has.)
#[tactic(auto, using(crate::proofs::LoopLaws::turns))]
pub fn check_book(book: &[u8]) -> Result<(), Refusal>
    ensures { told_by result ≡ about N.book (told (judge_book book.now)) }
{
    let mut rest = Rest::whole(book);
    let mut read = Book::with_rules(Kinds::none(), 0);
    while let Some(next) = read.read_record(&rest)? {
        rest = rest.after(next.bytes);
        read = next.book;
    }
    Ok(())
}

// The kinds at the start of any bytes.
pub fn kinds(book: &[u8]) -> Kinds
    ensures { KindsRead book.now result }
{
    let mut kinds = Kinds::none();
    for kd in book.chunks(4).take(Book::KINDS) {
        if !starts_with(kd, &Book::KD) {
            break;
        }
        kinds = kinds.with(byte_at(kd, 2), byte_at(kd, 3));
    }
    kinds
}
