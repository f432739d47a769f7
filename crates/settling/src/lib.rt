// The board after a firing: the rows in two arrays (crates/rows), changed in place.
#![tactic(auto)]

ghost use Rattle.std.specs.Prelude.{◌≡◌, true, ◌+◌, ◌≤◌, ◌<◌, leb};
ghost use Rattle.rows.specs.Held.{rows_from, kinds_with, numbers_with};
ghost use Rattle.settling.specs.Settles.{kept_cards, kept_count, BoardSettled};
ghost use Rattle.settling.specs.Stretches.{AllUnused, NextUsed, StretchMoved, RowsClosed};

use board::Board;
use rows::{Count, MadeCards, Rows, fact_at, put_fact};

// How many of the cards are not used. (Counted in 16 bits, eight cards at a time: `filter` and `count` would count in 64, two at a time.)
fn unused(used: &[u8; 256], cards: usize) -> usize
    requires { cards ≤ 256 }
    ensures { (result ≡ kept_count used.now 0 cards) × (result ≤ cards) }
{
    let mut kept: u16 = 0;
    for row in 0..cards {
        if used[row] == 0 {
            kept += 1;
        }
    }
    usize::from(kept)
}

// Is there room for so many made cards beside the cards that are not used? They are counted only where it depends on them.
#[tactic(auto, using(crate::proofs::Settling::count_few))]
fn has_room(used: &[u8; 256], cards: usize, made: usize) -> bool
    requires { cards ≤ 256 }
    ensures { result ≡ leb (kept_count used.now 0 cards + made) 256 }
{
    made <= Board::CARDS - cards || made <= Board::CARDS - unused(used, cards)
}

// Is none of the eight cards from a row on used? (With no branch between the tests, the eight bytes are read and tested at once.)
fn eight_unused(used: &[u8; 256], row: usize) -> bool
    requires { row + 8 ≤ 256 }
    ensures { result ≡ true → AllUnused used.now row (row + 8) }
{
    let low = (used[row] == 0) & (used[row + 1] == 0) & (used[row + 2] == 0) & (used[row + 3] == 0);
    let high = (used[row + 4] == 0)
        & (used[row + 5] == 0)
        & (used[row + 6] == 0)
        & (used[row + 7] == 0);
    low & high
}

// Passes cards that are not used, eight at a time, from a row on; gives the row where it stops. (No `for`: it counts by eights.)
fn past_unused(used: &[u8; 256], from: usize, cards: usize) -> usize
    requires { (from ≤ cards) × (cards ≤ 256) }
    ensures { (from ≤ result) × (result ≤ cards) × AllUnused used.now from result }
{
    let mut row = from;
    while row + 8 <= cards && eight_unused(used, row) {
        row += 8;
    }
    row
}

// The next used card from a row on, or how many cards there are. (A `for` over the rows made a firing a sixth slower.)
fn next_used(used: &[u8; 256], from: usize, cards: usize) -> usize
    requires { (from ≤ cards) × (cards ≤ 256) }
    ensures { NextUsed used.now from cards result }
{
    let mut row = past_unused(used, from, cards);
    while row < cards && used[row] == 0 {
        row += 1;
    }
    row
}

// The rows between a used card and the next one move down by a distance; gives the next one. (Its callers give a fixed distance, and each part moves to
// its own front, so that each array moves at once: within the whole array it took a third longer.)
fn move_stretch(
    rows: &mut Rows,
    used: &[u8; 256],
    cards: usize,
    row: usize,
    distance: usize,
) -> usize
    requires { (1 ≤ distance) × (distance ≤ row + 1) × (row < cards) × (cards ≤ 256) }
    ensures { StretchMoved used.now cards row distance rows.old.kind rows.old.numbers rows.new.kind rows.new.numbers result }
{
    let from = row + 1;
    let next = next_used(used, from, cards);
    let to = from - distance;
    let count = next - from;
    rows.kind[to..].copy_within(distance..distance + count, 0);
    rows.numbers[4 * to..].copy_within(4 * distance..4 * (distance + count), 0);
    next
}

// The cards from `start` on that are not used close up, row by row, from the row `first` on; gives the row after them. (Where many cards are used the
// stretches are short, and this is quicker.)
fn close_rows(rows: &mut Rows, used: &[u8; 256], cards: usize, first: usize, start: usize) -> usize
    requires { (first ≤ start) × (start ≤ cards) × (cards ≤ 256) }
    ensures { RowsClosed used.now cards first start rows.old.kind rows.old.numbers rows.new.kind rows.new.numbers result }
{
    let mut to = first;
    for from in start..cards {
        if used[from] == 0 {
            let card = fact_at(&rows.kind, &rows.numbers, from);
            put_fact(&mut rows.kind, &mut rows.numbers, to, card);
            to += 1;
        }
    }
    to
}

// The cards that are not used close up, in their order; gives how many they are. (Behind the first used card they move by 1, behind the second by 2.)
fn close_up(rows: &mut Rows, used: &[u8; 256], cards: usize) -> usize
    requires { cards ≤ 256 }
    ensures { (result ≡ kept_count used.now 0 cards) × (rows.new.kind ≡ kinds_with rows.old.kind 0 (kept_cards rows.old.kind rows.old.numbers used.now cards)) × (rows.new.numbers ≡ numbers_with rows.old.numbers 0 (kept_cards rows.old.kind rows.old.numbers used.now cards)) }
{
    let first = next_used(used, 0, cards);
    if cards <= first {
        return first;
    }
    let second = move_stretch(rows, used, cards, first, 1);
    if cards <= second {
        return second - 1;
    }
    let third = move_stretch(rows, used, cards, second, 2);
    if cards <= third {
        return third - 2;
    }
    let fourth = move_stretch(rows, used, cards, third, 3);
    if cards <= fourth {
        return fourth - 3;
    }
    close_rows(rows, used, cards, fourth - 3, fourth)
}

// So many made cards are written to the rows from the first on; gives the row after them.
fn append(rows: &mut Rows, first: usize, made: &MadeCards, made_cards: usize) -> usize
    requires { first + made_cards ≤ 256 }
    ensures { (result ≡ first + made_cards) × (rows.new.kind ≡ kinds_with rows.old.kind first (rows_from made.now.kind made.now.numbers 0 made_cards)) × (rows.new.numbers ≡ numbers_with rows.old.numbers first (rows_from made.now.kind made.now.numbers 0 made_cards)) }
{
    for row in 0..made_cards {
        let card = fact_at(&made.kind, &made.numbers, row);
        put_fact(&mut rows.kind, &mut rows.numbers, first + row, card);
    }
    first + made_cards
}

// The board after a firing: the cards that are not used, then the made ones; the made notices already stand behind the notices. None if there is
// no room, and then nothing changes.
pub fn settle(
    rows: &mut Rows,
    count: Count,
    used: &[u8; 256],
    made: &MadeCards,
    made_count: Count,
) -> Option<Count>
    ensures { BoardSettled rows.old.kind rows.old.numbers count used.now made.now.kind made.now.numbers made_count rows.new.kind rows.new.numbers result }
{
    if Board::CARDS < count.cards
        || Board::NOTICES < count.notices
        || Board::NOTICES - count.notices < made_count.notices
    {
        return None;
    }
    if !has_room(used, count.cards, made_count.cards) {
        return None;
    }
    let kept = close_up(rows, used, count.cards);
    Some(Count {
        cards: append(rows, kept, made, made_count.cards),
        notices: count.notices + made_count.notices,
    })
}
