// What an entry of the engine wrote.
use answers::Answer;

// The part of the output that the answer says was written.
pub fn written(answer: Answer, out: &[u8]) -> &[u8] {
    &out[..(answer.length as usize).min(out.len())]
}
