// One firing of a strip: an attempt, and the board after it.
ghost use Rattle.std.specs.Prelude.{◌≡◌, ℕ, ◌+◌, ◌*◌, ◌≤◌, ◌<◌, length, get_or, set};
ghost use Rattle.meaning.specs.Firing.{of_class};
ghost use Rattle.kinds.specs.Listed.{kinds_of};
ghost use Rattle.rows.specs.Held.{four_from, facts_from, with_four};
ghost use Rattle.settling.specs.Settles.{used_in};
ghost use Rattle.machine.specs.Represents.{marks_of, used_of};
ghost use Rattle.machine.specs.Firings.{ClassLaid, MadeReady, MadeSettled, Playable, Looked};

use crate::{Chains, Mark, Tables, Turn, attempt};
use board::Board;
use kinds::Kinds;
use rows::{Count, MadeCards, Rows, fact_at, put_fact};
use settling::settle;

// What an attempt comes to: no rule fits; the firing would overfill the board; no step is left; a word finds nothing to go on with; or the rule, and
// the rows after it.
#[derive(Clone, Copy)]
pub(in crate) enum Look {
    Quiet,
    Full,
    Spent,
    Stuck,
    Fired(u8, Count),
}

// What a run lends each attempt: for chains, for made facts, and for the made cards alone. It may hold anything: to clear it would cost more than a
// short attempt.
#[derive(Clone, Copy)]
pub(in crate) struct Space {
    chains: Chains,
    made: Rows,
    cards: MadeCards,
    ghost made_rows: { length made.kind ≡ 384 },
    ghost made_places: { length made.numbers ≡ 1536 },
}

impl Space {
    pub(in crate) fn new() -> Space {
        Space {
            chains: Chains::none(),
            made: Rows::empty(),
            cards: MadeCards {
                kind: [0; 256],
                numbers: [0; 1024],
            },
        }
    }
}

// The facts of a class among so many made ones are copied, in order, to the rows from the first on. (The two arrays are those of `Rows` or of
// `MadeCards`, which differ in length; inlined, each call knows its lengths.)
#[inline]
fn lay(
    kinds: &Kinds,
    card: bool,
    made: &Rows,
    n: usize,
    kind: &mut [u8],
    numbers: &mut [u16],
    first: usize,
)
    requires { (n ≤ 384) × ((j : ℕ) → j < n → get_or made.now.kind j 0 < length (kinds_of kinds.now)) × (length kind.old ≤ 384) × (length numbers.old ≡ 4 * length kind.old) × (first + length (of_class (kinds_of kinds.now) card (facts_from (kinds_of kinds.now) made.now.kind made.now.numbers 0 n)) ≤ length kind.old) }
    ensures { ClassLaid (kinds_of kinds.now) card made.now.kind made.now.numbers n first kind.old numbers.old kind.new numbers.new }
{
    let mut to = first;
    for from in 0..n {
        if kinds.is_of_class(card, made.kind[from]) {
            let fact = fact_at(&made.kind, &made.numbers, from);
            put_fact(kind, numbers, to, fact);
            to += 1;
        }
    }
}

// The used cards alone, as bytes that are not 0: a card that is only held stays. (Every byte is stored, so that many are made at once.)
fn used_cards(marks: &[Mark; 256]) -> [u8; 256]
    ensures { (row : ℕ) → row < 256 → used_in result row ≡ used_of (marks_of marks.now) row }
{
    let mut used = [0; 256];
    for row in 0..Board::CARDS {
        used[row] = u8::from(marks[row] == Mark::Used);
    }
    used
}

// The board after a firing that used those cards and made so many facts; none if there is no room. The made cards are laid out in what is lent,
// whatever it holds.
fn settle_made(
    kinds: &Kinds,
    rows: &mut Rows,
    count: Count,
    marks: &[Mark; 256],
    made: &Rows,
    made_count: Count,
    cards: &mut MadeCards,
) -> Option<Count>
    requires { MadeReady (kinds_of kinds.now) rows.old.kind rows.old.numbers count made.now.kind made.now.numbers made_count.cards made_count.notices }
    ensures { MadeSettled (kinds_of kinds.now) rows.old.kind rows.old.numbers count (marks_of marks.now) made.now.kind made.now.numbers made_count.cards made_count.notices rows.new.kind rows.new.numbers result }
{
    if Board::NOTICES - count.notices < made_count.notices {
        return None;
    }
    let n = made_count.cards + made_count.notices;
    lay(kinds, true, made, n, &mut cards.kind, &mut cards.numbers, 0);
    lay(
        kinds,
        false,
        made,
        n,
        &mut rows.kind,
        &mut rows.numbers,
        Board::CARDS + count.notices,
    );
    let used = used_cards(marks);
    settle(rows, count, &used, cards, made_count)
}

// One attempt, with so many steps allowed, and the board after it. The board stays where nothing fires.
pub(in crate) fn fire(
    strip: &[u8],
    kinds: &Kinds,
    rows: &mut Rows,
    count: Count,
    allowance: u64,
    space: &mut Space,
) -> Look
    requires { Playable strip.now kinds.now rows.old.kind rows.old.numbers count }
    ensures { Looked strip.now allowance (kinds_of kinds.now) rows.old.kind rows.old.numbers count result rows.new.kind rows.new.numbers }
{
    let tables = Tables {
        strip,
        kinds,
        rows,
        count,
    };
    let ran = attempt(&tables, allowance, &mut space.chains, &mut space.made);
    match ran.turn {
        Turn::Go(_) => Look::Spent,
        Turn::Quiet => Look::Quiet,
        Turn::Full => Look::Full,
        Turn::Stuck => Look::Stuck,
        Turn::Fire(rule) => {
            let memory = &ran.state.memory;
            match settle_made(
                kinds,
                rows,
                count,
                &memory.marks,
                &space.made,
                memory.made,
                &mut space.cards,
            ) {
                None => Look::Full,
                Some(after) => Look::Fired(rule, after),
            }
        }
    }
}
