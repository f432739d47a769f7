// A strip's words as they are shown, in the order of their codes: the name, the fields, and after `else` the target.
use crate::{Argument, Class, Comparison, Term, Word};
use std::fmt;
use std::fmt::{Display, Formatter, Write};

impl Display for Class {
    fn fmt<W: Write>(&self, f: &mut Formatter<W>) -> fmt::Result {
        f.write_str(match self {
            Class::Card => "card",
            Class::Notice => "notice",
        })
    }
}

impl Display for Term {
    fn fmt<W: Write>(&self, f: &mut Formatter<W>) -> fmt::Result {
        match self {
            Term::Constant(n) => write!(f, "value {n}"),
            Term::Variable(n) => write!(f, "register {n}"),
        }
    }
}

impl Display for Comparison {
    fn fmt<W: Write>(&self, f: &mut Formatter<W>) -> fmt::Result {
        f.write_str(match self {
            Comparison::Equal => "equal",
            Comparison::Unequal => "unequal",
            Comparison::Less => "less",
            Comparison::LessOrEqual => "less-or-equal",
        })
    }
}

impl Display for Argument {
    fn fmt<W: Write>(&self, f: &mut Formatter<W>) -> fmt::Result {
        write!(f, "{} argument {}", self.cursor, self.position)
    }
}

impl Display for Word {
    fn fmt<W: Write>(&self, f: &mut Formatter<W>) -> fmt::Result {
        match self {
            Word::Kind { class, arity } => write!(f, "KIND {class} {arity}"),
            Word::Open { cursor } => write!(f, "OPEN {cursor}"),
            Word::Seek {
                cursor,
                kind,
                target,
            } => write!(f, "SEEK {cursor} kind {kind} else {target}"),
            Word::Bind { argument, register } => write!(f, "BIND {argument} register {register}"),
            Word::Same {
                argument,
                register,
                target,
            } => write!(f, "SAME {argument} register {register} else {target}"),
            Word::Lit {
                argument,
                value,
                target,
            } => write!(f, "LIT {argument} value {value} else {target}"),
            Word::Test { test, target } => write!(
                f,
                "TEST {} {} {} else {target}",
                test.left, test.comparison, test.right
            ),
            Word::Keep => f.write_str("KEEP"),
            Word::Put { kind } => write!(f, "PUT {kind}"),
            Word::Arg { position, term } => write!(f, "ARG {position} {term}"),
            Word::Jump { target } => write!(f, "JUMP {target}"),
            Word::Fire { rule } => write!(f, "FIRE {rule}"),
            Word::Quiet => f.write_str("QUIET"),
        }
    }
}
