// Collecting with a tally that the caller lends.
#![tactic(auto)]

ghost use Rattle.std.specs.Prelude.{◌≡◌};
ghost use Rattle.answers.specs.Outcome.{answer_outcome};
ghost use Rattle.tally.specs.TallyOf.{advanced_of, tally_after, tally_of};

use answers::{Answer, Refusal};

// How many collections were made, and the visits of all of them. Each count stops at its limit.
#[derive(Clone, Copy)]
pub struct Tally {
    pub collections: u32,
    pub visits: u32,
}

impl Tally {
    // One collection more, and its visits.
    fn advanced(self, visits: u32) -> Tally
        ensures { result ≡ advanced_of self visits }
    {
        Tally {
            collections: self.collections.saturating_add(1),
            visits: self.visits.saturating_add(visits),
        }
    }

    // The tally after a collection with this answer, kept and visits; a refusal leaves it.
    pub fn after(self, answer: Result<Answer, Refusal>) -> Tally
        ensures { result ≡ tally_after self (answer_outcome answer) }
    {
        match answer {
            Ok(Answer::Pair(_, visits)) => self.advanced(visits),
            Ok(Answer::Done | Answer::Allocated { visits: _ } | Answer::Number(_)) | Err(_) => self,
        }
    }
}

// Collects, and advances the lent tally: answer and words are those of `collect`.
pub fn collect_tally(words: &mut [u32], t: &mut Tally) -> Result<Answer, Refusal>
    ensures { (answer_outcome result, words.new, t.new) ≡ tally_of words.old t.old }
{
    let c = collector::collect(words);
    let advanced = Tally::after(*t, c);
    *t = advanced;
    c
}
