// A refusal: document 01's line, then the words for it.
use answers::Answer;
use command::refusals::{Files, explain};
use kinds::Kinds;
use terminal::say_bytes;

// Says why a file is refused.
pub fn refuse(rt: HostRuntime, answer: Answer, files: Files) {
    let mut line = [0; 64];
    let end = screen::text(answer, Kinds::none(), files.board, &mut line);
    say_bytes(rt, &line[..end]);
    explain(rt, answer, files);
}
