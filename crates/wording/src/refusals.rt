// What document 01's refusals are given for. Their names stand with them, in crates/answers.
use answers::Reason;

// What a refusal is given for.
pub fn meaning(reason: Reason) -> &'static str {
    match reason {
        Reason::Cut => "the file ends too early",
        Reason::Mark => "a mark that this kind of file doesn't have",
        Reason::Place => "a mark that is not allowed here",
        Reason::Nocard => "the rule's body ends here without a card atom",
        Reason::Bare => "the sweep's body ends here without an atom",
        Reason::Many => "one over a size",
        Reason::Field => "a value out of range, a kind that is not declared, or the wrong class",
        Reason::Loose => "a variable in a test or head that no body binds",
        Reason::Trail => "bytes after `en`",
        Reason::Short => "the output is too short",
        Reason::Strip => "a length or a word that no strip has",
    }
}
