// What a run over the arrays answers, of a book as of a strip.
#![tactic(auto)]

ghost use Rattle.std.specs.Prelude.{◌≡◌};
ghost use Rattle.runs.specs.Runs.{ran_with};

use rows::Count;

// How a run ends.
#[derive(Clone, Copy)]
pub enum End {
    Quiet,
    Limit,
    Full,
    Spent,
    Stuck,
}

// A run over the arrays: its end, the rows in use, the firings done and the last fired rule, 255 if none. (With an `Option<u8>` none and a rule 255 would
// give one answer, and an answer is to settle its run.)
#[derive(Clone, Copy)]
pub struct Ran {
    pub end: End,
    pub count: Count,
    pub firings: u16,
    pub rule: u8,
}

impl Ran {
    // The last fired rule where none has fired.
    pub const NO_RULE: u8 = 255;
}

// A run that ends so, with so many rows and firings and that rule last.
pub fn stopped(end: End, count: Count, firings: u16, rule: u8) -> Ran
    ensures { result ≡ ran_with end count firings rule }
{
    Ran {
        end,
        count,
        firings,
        rule,
    }
}

// A run whose board is written: its end, the board's length, the firings done and the last fired rule.
#[derive(Clone, Copy)]
pub struct Ended {
    pub end: End,
    pub length: usize,
    pub firings: u16,
    pub rule: u8,
}
