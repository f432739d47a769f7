// The kinds that a book or a strip declares, by value: what a board is read against.
#![tactic(auto)]

ghost use Rattle.std.specs.Prelude.{◌≡◌};
ghost use Rattle.meaning.specs.Facts.{arity_of};
ghost use Rattle.files.specs.Board.{is_of_class};
ghost use Rattle.kinds.specs.Listed.{kinds_of, no_kinds, with_kind};

// So many kinds, at most 32: each one's class (0 card, 1 notice) and how many numbers it has. (A class stays a byte: `with` takes any byte of any file,
// and `kinds_of` says that whatever is not 0 is a notice. Arrays and a count, since the engine has no heap.)
#[derive(Clone, Copy)]
pub struct Kinds {
    pub count: usize,
    pub class: [u8; Kinds::MOST],
    pub arity: [u8; Kinds::MOST],
}

impl Kinds {
    pub const MOST: usize = 32;

    // the most numbers that a fact has
    pub const NUMBERS: usize = 4;

    pub fn none() -> Kinds
        ensures { result ≡ no_kinds }
    {
        Kinds {
            count: 0,
            class: [0; Kinds::MOST],
            arity: [0; Kinds::MOST],
        }
    }

    // With one kind more, where there is room for it.
    pub fn with(mut self, class: u8, arity: u8) -> Kinds
        ensures { result ≡ with_kind self class arity }
    {
        if self.count < Kinds::MOST {
            self.class[self.count] = class;
            self.arity[self.count] = arity;
            self.count += 1;
        }
        self
    }

    // Is the kind declared, and of the class?
    #[tactic(auto, using(crate::specs::KindLaws::class_at, crate::specs::KindLaws::class_past))]
    pub fn is_of_class(self, card: bool, kind: u8) -> bool
        ensures { result ≡ is_of_class (kinds_of self) card kind }
    {
        let at = usize::from(kind);
        at < self.count && at < Kinds::MOST && (self.class[at] == 0) == card
    }

    // How many numbers a fact of the kind has; none where it is not declared.
    #[tactic(auto, using(crate::specs::KindLaws::arity_at, crate::specs::KindLaws::arity_past))]
    pub fn arity_of(self, kind: u8) -> u8
        ensures { result ≡ arity_of (kinds_of self) kind }
    {
        let at = usize::from(kind);
        if at < self.count && at < Kinds::MOST {
            self.arity[at]
        } else {
            0
        }
    }
}
