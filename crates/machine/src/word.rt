// A word of a strip: eight bytes, of which each field is read only where it is needed.
ghost use Rattle.std.specs.Prelude.{◌≡◌, ◌+◌, ◌*◌, ◌≤◌, ◌<◌, length};

// Word number `at` of a strip. A word behind it has a number too, so that the machine can go on.
#[derive(Clone, Copy)]
pub(in crate) struct WordAt<'a> {
    pub(in crate) strip: &'a [u8],
    pub(in crate) at: u16,
    ghost inside: { 8 * at + 8 ≤ length strip.now },
    ghost numbered: { at < 65535 },
}

impl<'a> WordAt<'a> {
    ghost use Rattle.machine.specs.Fields.{code_of, a_of, b_of, c_of, two_of, b_and_c_of, value_of, target_of};

    // The word's first byte.
    fn start(self) -> usize
        ensures { result ≡ 8 * self.entry.at }
    {
        8 * self.at as usize
    }

    // Two bytes of the word, the low one first.
    fn two(self, field: usize) -> u16
        requires { field < 7 }
        ensures { result ≡ two_of self.entry field }
    {
        let i = self.start() + field;
        u16::from_le_bytes([self.strip[i], self.strip[i + 1]])
    }

    pub(in crate) fn code(self) -> u8
        ensures { result ≡ code_of self.entry }
    {
        self.strip[self.start()]
    }

    pub(in crate) fn a(self) -> u8
        ensures { result ≡ a_of self.entry }
    {
        self.strip[self.start() + 1]
    }

    pub(in crate) fn b(self) -> u8
        ensures { result ≡ b_of self.entry }
    {
        self.strip[self.start() + 2]
    }

    pub(in crate) fn c(self) -> u8
        ensures { result ≡ c_of self.entry }
    {
        self.strip[self.start() + 3]
    }

    // b and c as one number: the left operand of a TEST.
    pub(in crate) fn b_and_c(self) -> u16
        ensures { result ≡ b_and_c_of self.entry }
    {
        self.two(2)
    }

    pub(in crate) fn value(self) -> u16
        ensures { result ≡ value_of self.entry }
    {
        self.two(4)
    }

    pub(in crate) fn target(self) -> u16
        ensures { result ≡ target_of self.entry }
    {
        self.two(6)
    }

    // The number of the word behind it.
    pub(in crate) fn next(self) -> u16
        ensures { result ≡ self.entry.at + 1 }
    {
        self.at + 1
    }
}
