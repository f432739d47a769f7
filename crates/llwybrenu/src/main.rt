// The command `llwybrenu`: a word says what to do, the words after it name the files. What it finds goes to standard output; how it is used, and a
// file that can't be read or written, to standard error. The program itself ends with 0: the script `llwybrenu` of this repository gives
// the exit status.
#![tactic(auto)]

mod checks;
mod refusals;
mod runs_of;
mod written;

use command::commands::Command;
use terminal::Told;
use wording::usage::{help, usage};

// Does what a command says.
fn obey(rt: HostRuntime, command: Command) -> Result<(), Told> {
    match command {
        Command::Check { book, board } => checks::check(rt, book, board),
        Command::CheckStrip { strip } => checks::check_strip(rt, strip),
        Command::Run {
            book,
            board,
            limit,
            target,
        } => runs_of::run(rt, book, board, limit, target),
        Command::RunStrip {
            strip,
            board,
            limit,
            allowance,
            target,
        } => runs_of::run_strip(rt, strip, board, limit, allowance, target),
        Command::Translate { book, strip } => checks::translate(rt, book, strip),
        Command::List { strip } => checks::list(rt, strip),
        Command::Help => {
            usage(&rt.stdout());
            help(rt);
            Ok(())
        }
    }
}

fn main(rt: HostRuntime) {
    match Command::parse(rt) {
        // a file that can't be read or written has been told
        Some(command) => {
            let _ = obey(rt, command);
        }
        None => usage(&rt.stderr()),
    }
}
