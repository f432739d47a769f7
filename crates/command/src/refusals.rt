// A refusal in words: what its number means, the place, and the bytes around it.
ghost use Rattle.std.specs.Prelude.{◌≡◌, []};

use answers::{Answer, File, Reason};
use strip::Strip;
use terminal::say;
use wording::refusals::meaning;

// How many bytes are shown before the place, and from it on: a word of a strip each.
const AROUND: usize = Strip::WORD;

// The files of a command: the book or the strip, and the board, empty where the command has none.
#[derive(Clone, Copy)]
pub struct Files<'a> {
    pub first: &'a [u8],
    pub board: &'a [u8],
}

impl<'a> Files<'a> {
    // Those of a command that reads only a book or a strip.
    pub fn without_board(first: &'a [u8]) -> Files<'a>
        ensures { (result.first.now ≡ first.now) × (result.board.now ≡ []) }
    {
        Files { first, board: b"" }
    }
}

// Bytes as they are shown, each behind a blank.
fn say_shown(rt: HostRuntime, bytes: &[u8]) {
    if bytes.is_empty() {
        say(rt, " none");
    }
    for byte in bytes {
        say(rt, " ");
        let _ = print!(rt; "{byte:02x}");
    }
    say(rt, "\n");
}

// The bytes around a place.
fn say_around(rt: HostRuntime, file: &[u8], place: usize) {
    let at = place.min(file.len());
    let (before, there) = file.split_at(at);
    say(rt, "bytes before:");
    say_shown(rt, &before[at.saturating_sub(AROUND)..]);
    say(rt, "bytes there:");
    say_shown(rt, &there[..there.len().min(AROUND)]);
}

// The words for a refusal. A number that no reason has is told as a strip's, and a file that is none as the output.
pub fn explain(rt: HostRuntime, answer: Answer, files: Files) {
    let reason = Reason::try_from(answer.number).unwrap_or(Reason::Strip);
    let file = File::try_from(answer.file).unwrap_or(File::Output);
    let place = answer.place as usize;
    // a strip's places are words
    let (unit, size, bytes) = match file {
        File::Strip => ("word", Strip::WORD, files.first),
        File::Board => ("byte", 1, files.board),
        File::Book | File::Output => ("byte", 1, files.first),
    };
    say(rt, reason);
    say(rt, format_args!(" at {unit} "));
    let _ = rt.print(place);
    say(rt, " of the ");
    say(rt, file);
    say(rt, ": ");
    say(rt, meaning(reason));
    say(rt, "\n");
    say_around(rt, bytes, size * place);
}
