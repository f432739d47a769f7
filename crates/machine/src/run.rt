// The run of a strip on a board, from two files to a third.
ghost use Rattle.std.specs.Prelude.{◌≡◌, length};
ghost use Rattle.meaning.specs.Words.{run_strip};
ghost use Rattle.files.specs.InPlace.{board_at};
ghost use Rattle.files.specs.Strip.{words_at};
ghost use Rattle.files.specs.Entries.{Gives, run_outcome, run_strip_file};
ghost use Rattle.kinds.specs.Listed.{kinds_of};
ghost use Rattle.runs.specs.Runs.{board_in, RunEnds, ended_answer};
ghost use Rattle.runs.specs.Answers.{ran_answer};
ghost use Rattle.machine.specs.Firings.{Playable};
ghost use Rattle.machine.specs.Entry.{BothAccepted};

use crate::firing::{Look, Space, fire};
use answers::Refusal;
use board::{Board, check_board};
use kinds::Kinds;
use rows::{Count, Rows};
use runs::{End, Ended, Ran, stopped};
use strip::check_strip;

// Attempt after attempt, each with the whole allowance, until the limit is reached or one ends without a firing. (Not one loop with the plain runner's:
// docs/DECISIONS.md, 40.)
fn run(
    strip: &[u8],
    kinds: &Kinds,
    rows: &mut Rows,
    start: Count,
    limit: u16,
    allowance: u64,
) -> Ran
    requires { Playable strip.now kinds.now rows.old.kind rows.old.numbers start }
    ensures { RunEnds (run_strip (words_at strip.now) limit allowance (board_in (kinds_of kinds.now) rows.old.kind rows.old.numbers start)) (kinds_of kinds.now) rows.new.kind rows.new.numbers result }
{
    let mut space = Space::new();
    let mut count = start;
    let mut rule = Ran::NO_RULE;
    for firings in 0..limit {
        match fire(strip, kinds, rows, count, allowance, &mut space) {
            Look::Quiet => {
                return stopped(End::Quiet, count, firings, rule);
            }
            Look::Full => {
                return stopped(End::Full, count, firings, rule);
            }
            Look::Spent => {
                return stopped(End::Spent, count, firings, rule);
            }
            Look::Stuck => {
                return stopped(End::Stuck, count, firings, rule);
            }
            Look::Fired(number, after) => {
                rule = number;
                count = after;
            }
        }
    }
    stopped(End::Limit, count, limit, rule)
}

// Loads the board of accepted files, runs the strip on it and writes the board that it ends with.
fn play(
    strip: &[u8],
    kinds: Kinds,
    board: &[u8],
    limit: u16,
    allowance: u64,
    out: &mut [u8],
) -> Ended
    requires { BothAccepted strip.now kinds board.now (length out.old) }
    ensures { Gives (run_outcome (run_strip (words_at strip.now) limit allowance (board_at board.now (kinds_of kinds)))) out.old (ended_answer result) out.new }
{
    let mut rows = Rows::empty();
    let count = rows.load(kinds, board);
    let ran = run(strip, &kinds, &mut rows, count, limit, allowance);
    let length = rows.write(kinds, ran.count, out);
    Ended {
        end: ran.end,
        length,
        firings: ran.firings,
        rule: ran.rule,
    }
}

// Judges strip, board and output, in this order, and then runs the strip on the board, up to so many firings of so many steps each.
pub fn run_strip(
    strip: &[u8],
    board: &[u8],
    limit: u16,
    allowance: u64,
    out: &mut [u8],
) -> Result<Ended, Refusal>
    ensures { Gives (run_strip_file strip.now board.now limit allowance (length out.old)) out.old (ran_answer result) out.new }
{
    check_strip(strip)?;
    let kinds = strip::kinds(strip);
    check_board(kinds, board)?;
    if out.len() < Board::LONGEST {
        return Err(Refusal::short());
    }
    Ok(play(strip, kinds, board, limit, allowance, out))
}
