// A strip's words, one a line, each after its number. A line is written piece by piece: a text that can't be written is told, and a number is not, since a
// text stands beside it.
use std::fmt::Display;
use strip::Strip;
use terminal::{say, say_bytes};
use words::{Argument, Class, Term, Test, Word};

// A text, and a number behind it. (The text goes as its bytes, since the longest strip has thousands of words.)
fn part(rt: HostRuntime, text: &str, number: impl Display + Drop) {
    say_bytes(rt, text.as_bytes());
    let _ = rt.print(number);
}

// The word that the strip goes to where a row or a test fails.
fn otherwise(rt: HostRuntime, target: u16) {
    part(rt, " else ", target);
}

// A cursor's argument.
fn say_argument(rt: HostRuntime, name: &str, argument: Argument) {
    part(rt, name, argument.cursor);
    part(rt, " argument ", argument.position);
}

// A value or a register.
fn say_term(rt: HostRuntime, term: Term) {
    match term {
        Term::Constant(value) => part(rt, " value ", value),
        Term::Variable(register) => part(rt, " register ", register),
    }
}

// A kind's class and arity.
fn say_kind(rt: HostRuntime, class: Class, arity: u8) {
    match class {
        Class::Card => part(rt, "KIND card ", arity),
        Class::Notice => part(rt, "KIND notice ", arity),
    }
}

// A row of a kind is sought.
fn say_seek(rt: HostRuntime, cursor: u8, kind: u8, target: u16) {
    part(rt, "SEEK ", cursor);
    part(rt, " kind ", kind);
    otherwise(rt, target);
}

// A row's argument is bound to a register.
fn say_bind(rt: HostRuntime, argument: Argument, register: u8) {
    say_argument(rt, "BIND ", argument);
    part(rt, " register ", register);
}

// A row's argument is compared with a register or a value.
fn say_compared(rt: HostRuntime, name: &str, argument: Argument, with: Term, target: u16) {
    say_argument(rt, name, argument);
    say_term(rt, with);
    otherwise(rt, target);
}

// Two terms are compared.
fn say_test(rt: HostRuntime, test: Test, target: u16) {
    say_bytes(rt, b"TEST");
    say_term(rt, test.left);
    say(rt, format_args!(" {}", test.comparison));
    say_term(rt, test.right);
    otherwise(rt, target);
}

// An argument of the card or notice that is put.
fn say_arg(rt: HostRuntime, position: u8, term: Term) {
    part(rt, "ARG ", position);
    say_term(rt, term);
}

// A word's name and fields.
fn say_word(rt: HostRuntime, word: Word) {
    match word {
        Word::Kind { class, arity } => say_kind(rt, class, arity),
        Word::Open { cursor } => part(rt, "OPEN ", cursor),
        Word::Seek {
            cursor,
            kind,
            target,
        } => say_seek(rt, cursor, kind, target),
        Word::Bind { argument, register } => say_bind(rt, argument, register),
        Word::Same {
            argument,
            register,
            target,
        } => say_compared(
            rt,
            "SAME ",
            argument,
            Term::Variable(u16::from(register)),
            target,
        ),
        Word::Lit {
            argument,
            value,
            target,
        } => say_compared(rt, "LIT ", argument, Term::Constant(value), target),
        Word::Test { test, target } => say_test(rt, test, target),
        Word::Keep => say_bytes(rt, b"KEEP"),
        Word::Put { kind } => part(rt, "PUT ", kind),
        Word::Arg { position, term } => say_arg(rt, position, term),
        Word::Jump { target } => part(rt, "JUMP ", target),
        Word::Fire { rule } => part(rt, "FIRE ", rule),
        Word::Quiet => say_bytes(rt, b"QUIET"),
    }
}

// Every word of an accepted strip.
pub fn say_strip(rt: HostRuntime, strip: &[u8]) {
    let (words, _) = strip.as_chunks::<{ Strip::WORD }>();
    for (i, bytes) in words.iter().enumerate() {
        let _ = rt.print(i);
        say_bytes(rt, b" ");
        say_word(rt, Word::from(*bytes));
        say_bytes(rt, b"\n");
    }
}
