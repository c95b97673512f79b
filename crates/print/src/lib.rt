// What the examples print: a line of a label and an answer. A write that fails is passed over.
#![tactic(auto)]

use answers::{Answer, Refusal};
use replies::Reply;

// Prints a label and what an answer says, as a script's reply does.
pub fn answer(rt: &impl Print, label: &[u8], answer: Result<Answer, Refusal>) {
    let mut line = [0u8; Reply::ROOM];
    let end = replies::write_reply(&mut line, 0, Reply::Answered(answer));
    if let Some(text) = end.and_then(|end| line.get(..end)) {
        let _ = rt.write_all(label);
        let _ = rt.write_all(b" ");
        let _ = rt.write_all(text);
    }
}
