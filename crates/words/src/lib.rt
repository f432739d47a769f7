// A strip's words as values, with what stands in them and in a book's tests: classes, terms, comparisons. A word is its eight bytes, and they are it.
#![tactic(auto)]

ghost use Rattle.std.specs.Prelude.{◌≡◌, ◌<◌, nat_eq, slice_index};
ghost use Rattle.meaning.specs.Rules.{compare};
ghost use Rattle.files.specs.InPlace.{comparison_of, term_of};
ghost use Rattle.files.specs.Encode.{class_byte, word_of_bytes, encode_word, tag_of, term_value, comparison_number, test_code};
ghost use Rattle.words.specs.Meant.{as_class, as_term, as_comparison, as_test, as_word, SaysWord, term_tagged, comparison_numbered};

mod shown;

// What a kind is of.
#[derive(Clone, Copy, Debug, PartialEq, Eq)]
pub enum Class {
    Card,
    Notice,
}

// A term: a constant, or a variable by its number, which is that of its register in a strip.
#[derive(Clone, Copy, Debug, PartialEq, Eq)]
pub enum Term {
    Constant(u16),
    Variable(u16),
}

// How a test compares its terms.
#[derive(Clone, Copy, Debug, PartialEq, Eq)]
pub enum Comparison {
    Equal,
    Unequal,
    Less,
    LessOrEqual,
}

#[derive(Clone, Copy, Debug, PartialEq, Eq)]
pub struct Test {
    pub comparison: Comparison,
    pub left: Term,
    pub right: Term,
}

// An argument of a cursor's row.
#[derive(Clone, Copy, Debug, PartialEq, Eq)]
pub struct Argument {
    pub cursor: u8,
    pub position: u8,
}

// The thirteen words, in the order of their codes. A target is the number of the word that the strip goes to: at JUMP always, else where no row is
// found, or the argument or the test is not as asked.
#[derive(Clone, Copy, Debug, PartialEq, Eq)]
pub enum Word {
    Kind {
        class: Class,
        arity: u8,
    },
    Open {
        cursor: u8,
    },
    Seek {
        cursor: u8,
        kind: u8,
        target: u16,
    },
    Bind {
        argument: Argument,
        register: u8,
    },
    Same {
        argument: Argument,
        register: u8,
        target: u16,
    },
    Lit {
        argument: Argument,
        value: u16,
        target: u16,
    },
    Test {
        test: Test,
        target: u16,
    },
    Keep,
    Put {
        kind: u8,
    },
    Arg {
        position: u8,
        term: Term,
    },
    Jump {
        target: u16,
    },
    Fire {
        rule: u8,
    },
    Quiet,
}

// By its number: whatever is no card is a notice.
impl From<u8> for Class {
    ghost from_gives = { λ number class. as_class class ≡ nat_eq number 0 };

    fn from(number: u8) -> Class {
        if number == 0 {
            Class::Card
        } else {
            Class::Notice
        }
    }
}

impl Class {
    fn number(self) -> u8
        ensures { result ≡ class_byte (as_class self) }
    {
        match self {
            Class::Card => 0,
            Class::Notice => 1,
        }
    }
}

impl Term {
    // By its tag: whatever is no constant is a variable.
    pub fn tagged(tag: u8, value: u16) -> Term
        ensures { (result ≡ term_tagged tag value) × (as_term result ≡ term_of tag value) }
    {
        match tag {
            0 => Term::Constant(value),
            _ => Term::Variable(value),
        }
    }

    fn tag(self) -> u8
        ensures { (result ≡ tag_of (as_term self)) × (result < 2) }
    {
        match self {
            Term::Constant(_) => 0,
            Term::Variable(_) => 1,
        }
    }

    fn value(self) -> u16
        ensures { result ≡ term_value (as_term self) }
    {
        match self {
            Term::Constant(value) => value,
            Term::Variable(register) => register,
        }
    }
}

// By its number; a number above 3, which no accepted file has, is read as 3.
impl From<u8> for Comparison {
    ghost from_gives = { λ number comparison. (comparison ≡ comparison_numbered number) × (as_comparison comparison ≡ comparison_of number) };

    fn from(number: u8) -> Comparison {
        match number {
            0 => Comparison::Equal,
            1 => Comparison::Unequal,
            2 => Comparison::Less,
            _ => Comparison::LessOrEqual,
        }
    }
}

impl Comparison {
    pub fn number(self) -> u8
        ensures { (result ≡ comparison_number (as_comparison self)) × (result < 4) }
    {
        match self {
            Comparison::Equal => 0,
            Comparison::Unequal => 1,
            Comparison::Less => 2,
            Comparison::LessOrEqual => 3,
        }
    }

    // Does it hold of the two numbers?
    pub fn holds(self, a: u16, b: u16) -> bool
        ensures { result ≡ compare (as_comparison self) a b }
    {
        match self {
            Comparison::Equal => a == b,
            Comparison::Unequal => a != b,
            Comparison::Less => a < b,
            Comparison::LessOrEqual => a <= b,
        }
    }
}

impl Test {
    // The comparison and the two terms' tags in one byte.
    fn code(self) -> u8
        ensures { result ≡ test_code (as_test self) }
    {
        4 * self.comparison.number() + 2 * self.left.tag() + self.right.tag()
    }
}

// A word's bytes: its code, three fields, and a value and a target of two bytes each. A code that no strip has is read as QUIET.
impl From<[u8; 8]> for Word {
    ghost from_gives = { SaysWord };

    fn from(bytes: [u8; 8]) -> Word {
        let [
            code,
            a,
            b,
            c,
            value_low,
            value_high,
            target_low,
            target_high,
        ] = bytes;
        let value = u16::from_le_bytes([value_low, value_high]);
        let target = u16::from_le_bytes([target_low, target_high]);
        let argument = Argument {
            cursor: a,
            position: b,
        };
        match code {
            0 => Word::Kind {
                class: Class::from(a),
                arity: b,
            },
            1 => Word::Open { cursor: a },
            2 => Word::Seek {
                cursor: a,
                kind: b,
                target,
            },
            3 => Word::Bind {
                argument,
                register: c,
            },
            4 => Word::Same {
                argument,
                register: c,
                target,
            },
            5 => Word::Lit {
                argument,
                value,
                target,
            },
            // a is 4 × test + 2 × left tag + right tag, and the left term's value is in b and c
            6 => Word::Test {
                test: Test {
                    comparison: Comparison::from(a / 4),
                    left: Term::tagged(a / 2 % 2, u16::from_le_bytes([b, c])),
                    right: Term::tagged(a % 2, value),
                },
                target,
            },
            7 => Word::Keep,
            8 => Word::Put { kind: a },
            9 => Word::Arg {
                position: a,
                term: Term::tagged(b, value),
            },
            10 => Word::Jump { target },
            11 => Word::Fire { rule: a },
            _ => Word::Quiet,
        }
    }
}

// The fields of a word in their places.
fn packed(code: u8, fields: [u8; 3], value: u16, target: u16) -> [u8; 8]
    ensures { result ≡ word_of_bytes code (slice_index fields 0) (slice_index fields 1) (slice_index fields 2) value target }
{
    let [a, b, c] = fields;
    let [value_low, value_high] = value.to_le_bytes();
    let [target_low, target_high] = target.to_le_bytes();
    [
        code,
        a,
        b,
        c,
        value_low,
        value_high,
        target_low,
        target_high,
    ]
}

impl Word {
    pub fn bytes(self) -> [u8; 8]
        ensures { result ≡ encode_word (as_word self) }
    {
        match self {
            Word::Kind { class, arity } => packed(0, [class.number(), arity, 0], 0, 0),
            Word::Open { cursor } => packed(1, [cursor, 0, 0], 0, 0),
            Word::Seek {
                cursor,
                kind,
                target,
            } => packed(2, [cursor, kind, 0], 0, target),
            Word::Bind { argument, register } => {
                packed(3, [argument.cursor, argument.position, register], 0, 0)
            }
            Word::Same {
                argument,
                register,
                target,
            } => packed(4, [argument.cursor, argument.position, register], 0, target),
            Word::Lit {
                argument,
                value,
                target,
            } => packed(5, [argument.cursor, argument.position, 0], value, target),
            Word::Test { test, target } => {
                let [low, high] = test.left.value().to_le_bytes();
                packed(6, [test.code(), low, high], test.right.value(), target)
            }
            Word::Keep => packed(7, [0, 0, 0], 0, 0),
            Word::Put { kind } => packed(8, [kind, 0, 0], 0, 0),
            Word::Arg { position, term } => packed(9, [position, term.tag(), 0], term.value(), 0),
            Word::Jump { target } => packed(10, [0, 0, 0], 0, target),
            Word::Fire { rule } => packed(11, [rule, 0, 0], 0, 0),
            Word::Quiet => packed(12, [0, 0, 0], 0, 0),
        }
    }
}
