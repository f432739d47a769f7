// What the program's words make: a command, with the words that name its files.
use crate::arguments::{Argument, Arguments};

// The firings of the display program, and the steps that are enough for any attempt of a common strip.
const LIMIT: u16 = 100;

const ALLOWANCE: u64 = 1000000;

// A command. `target` names the file that the board after a run is written to.
#[derive(Clone, Copy, Debug, PartialEq, Eq)]
pub enum Command {
    Check {
        book: Argument,
        board: Option<Argument>,
    },
    CheckStrip {
        strip: Argument,
    },
    Run {
        book: Argument,
        board: Argument,
        limit: u16,
        target: Option<Argument>,
    },
    RunStrip {
        strip: Argument,
        board: Argument,
        limit: u16,
        allowance: u64,
        target: Option<Argument>,
    },
    Translate {
        book: Argument,
        strip: Argument,
    },
    List {
        strip: Argument,
    },
    Help,
}

// The most firings, 0 to 65535.
fn limit(rt: HostRuntime, word: Option<Argument>) -> Option<u16> {
    match word {
        Some(word) => u16::try_from(word.number(rt)?).ok(),
        None => Some(LIMIT),
    }
}

// The most steps of a firing.
fn allowance(rt: HostRuntime, word: Option<Argument>) -> Option<u64> {
    match word {
        Some(word) => word.number(rt),
        None => Some(ALLOWANCE),
    }
}

impl Command {
    // The command that the program's words make, if they make one. Any words may stand behind `help`.
    pub fn parse(rt: HostRuntime) -> Option<Command> {
        let mut words = Arguments::all(rt);
        let target = words.target(rt);
        let mut space = [0; 16];
        let name = words.next()?.text(rt, &mut space)?;
        let command = match (name, target) {
            ("check", None) => Command::Check {
                book: words.next()?,
                board: words.next(),
            },
            ("check-strip", None) => Command::CheckStrip {
                strip: words.next()?,
            },
            ("run", target) => Command::Run {
                book: words.next()?,
                board: words.next()?,
                limit: limit(rt, words.next())?,
                target,
            },
            ("run-strip", target) => Command::RunStrip {
                strip: words.next()?,
                board: words.next()?,
                limit: limit(rt, words.next())?,
                allowance: allowance(rt, words.next())?,
                target,
            },
            ("translate", Some(strip)) => Command::Translate {
                book: words.next()?,
                strip,
            },
            ("list", None) => Command::List {
                strip: words.next()?,
            },
            ("help", None) => return Some(Command::Help),
            _ => return None,
        };
        match words.next() {
            Some(_) => None,
            None => Some(command),
        }
    }
}
