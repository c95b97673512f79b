// Tries every marker on many pseudo-random pools: a marker of another make says which cells a collection has to keep, and the answers and all words of
// the others are compared with what follows from its marks alone.
#![tactic(auto)]

mod totals;

ghost use Rattle.std.specs.Prelude.{◌≡◌, ◌≤◌, true, length};
ghost use Rattle.pool.specs.Layout.{register_count, pool_length};

use answers::{Answer, Refusal};
use stack_marker::StackCollection;
use totals::Totals;
use trial_pools::TrialPool;

// Seeds below 2048 give pools of 1 to 64 cells, the others larger ones.
const SEEDS: u32 = 2184;

// The markers that are tried: by reversal, the recursive one, and with stacks of no words, one word, and as many words as there are cells.
#[derive(Clone, Copy)]
pub enum Marker {
    Reversal,
    Recursive,
    NoWords,
    OneWord,
    NWords,
}

impl Marker {
    const ALL: [Marker; 5] = [
        Marker::Reversal,
        Marker::Recursive,
        Marker::NoWords,
        Marker::OneWord,
        Marker::NWords,
    ];
}

// One marker on the pool of a seed, as it is or damaged, with some words behind its cells.
#[derive(Clone, Copy)]
pub struct Trial {
    pub pool: TrialPool,
    pub leftover: u32,
    pub malformed: bool,
    pub marker: Marker,
}

// What a collection says: the kept cells and, without a stack, the visits; with a stack whether it was enough, and the checks of its entries.
#[derive(Clone, Copy)]
pub struct Said {
    pub kept: u32,
    pub visits: u32,
    pub enough: bool,
    pub checks: u32,
}

// How a trial went: whether the answer and all words were as expected, the kept cells that were expected, how many of them are points, and what the
// collection said, if it was not refused.
#[derive(Clone, Copy)]
pub struct Outcome {
    pub agreed: bool,
    pub kept: u32,
    pub points: u32,
    pub said: Option<Said>,
}

fn of_answer(answer: Result<Answer, Refusal>) -> Result<Said, Refusal> {
    let given = Ok(answer?);
    Ok(Said {
        kept: answers::first(given),
        visits: answers::second(given),
        enough: true,
        checks: 0,
    })
}

fn of_stack_collection(made: StackCollection) -> Said {
    Said {
        kept: made.kept,
        visits: 0,
        enough: made.enough,
        checks: made.checks,
    }
}

impl Trial {
    // Collects with the marker.
    fn collect(self, words: &mut [u32], stack: &mut [u32]) -> Result<Said, Refusal> {
        match self.marker {
            Marker::Reversal => of_answer(collector::collect(words)),
            Marker::Recursive => of_answer(recursive_marker::collect_recursive(words)),
            Marker::NoWords | Marker::OneWord | Marker::NWords => {
                stack_marker::collect_stack(words, stack).map(of_stack_collection)
            }
        }
    }

    // The refusal that has to come, if one has: the recursive marker takes at most 64 cells.
    fn refusal(self) -> Option<Refusal> {
        match self.marker {
            Marker::Recursive if 64 < self.pool.cells => Some(Refusal::TooLarge),
            _ if self.malformed => Some(Refusal::Malformed),
            _ => None,
        }
    }

    // How many of the stack's words are lent.
    fn stack_words(self) -> usize
        requires { self.pool.cells ≤ 4000 }
        ensures { result ≤ 4000 }
    {
        match self.marker {
            Marker::NoWords => 0,
            Marker::OneWord => 1,
            _ => self.pool.cells as usize,
        }
    }

    // Makes the words the pool of the trial.
    fn make(self, words: &mut [u32])
        requires { self.pool.cells ≤ 4000 }
    {
        self.pool.fill(words);
        if self.malformed {
            self.pool.damage(words);
        }
    }

    // Makes the words what the trial has to leave: by the marks alone, or where it is refused the pool as it was. Gives the number of kept cells.
    fn expect(self, after: &mut [u32]) -> u32
        requires { (self.pool.cells ≤ 4000) × (pool_length register_count self.pool.cells ≤ length after.old) }
    {
        self.make(after);
        if self.refusal().is_some() {
            return 0;
        }
        let mut marks = [0u32; 4001];
        fixpoint_marker::mark(after, self.pool.cells, &mut marks);
        trial_words::keep_marked(after, self.pool.cells, &marks)
    }

    // Is it what has to be said? The kept cells; of visits three a pair and one a point; with as many stack words as cells, that they were enough, without a
    // check; with none, that they were enough exactly where no check was made, of which there is one at most.
    fn is_expected(self, said: Result<Said, Refusal>, kept: u32, points: u32) -> bool {
        match (said, self.refusal()) {
            (Ok(said), None) => said.kept == kept && self.are_expected(said, points),
            (Err(refusal), Some(expected)) => refusal == expected,
            _ => false,
        }
    }

    // Are the visits, or what a stack's answer says beside the kept cells?
    fn are_expected(self, said: Said, points: u32) -> bool {
        match self.marker {
            Marker::Reversal | Marker::Recursive => {
                said.visits as u64 + 2 * (points as u64) == 3 * (said.kept as u64)
            }
            Marker::NWords => said.enough && said.checks == 0,
            Marker::NoWords => said.checks == u32::from(!said.enough),
            Marker::OneWord => true,
        }
    }

    // The stack's words are 7 before. After a collection with the stack they have to be 0, and otherwise as before.
    fn is_stack_expected(self, stack: &[u32]) -> bool {
        let expected = match self.marker {
            Marker::Reversal | Marker::Recursive => 7,
            _ if self.malformed => 7,
            _ => 0,
        };
        stack.iter().all(|word| *word == expected)
    }

    // Runs the trial: what is expected, the pool, the collection, and the comparison.
    fn run(self, words: &mut [u32], after: &mut [u32], stack: &mut [u32]) -> Outcome
        requires { (self.pool.cells ≤ 4000) × (pool_length register_count self.pool.cells ≤ length after.old) }
        ensures { result.agreed ≡ true → words.new ≡ after.new }
    {
        let kept = self.expect(after);
        let points = trial_words::points(after, self.pool.cells);
        self.make(words);
        stack.fill(7);
        let said = self.collect(words, stack);
        let agreed = self.is_expected(said, kept, points)
            && self.is_stack_expected(stack)
            && *words == *after;
        Outcome {
            agreed,
            kept,
            points,
            said: said.ok(),
        }
    }

    // Runs the trial in the parts of the lent words that it takes.
    fn run_in(self, words: &mut [u32], after: &mut [u32], stack: &mut [u32]) -> Outcome
        requires { (self.pool.cells ≤ 4000) × (self.leftover ≤ 3) × (length words.old ≡ 16021) × (length after.old ≡ 16021) × (length stack.old ≡ 4000) }
    {
        let end = 18 + 4 * self.pool.cells as usize + self.leftover as usize;
        let most = self.stack_words();
        self.run(&mut words[..end], &mut after[..end], &mut stack[..most])
    }
}

// For each seed every marker is tried, on the pool and on the damaged pool. A write that fails is passed over.
fn main(rt: HostRuntime) {
    let mut words = [0u32; 16021];
    let mut after = [0u32; 16021];
    let mut stack = [0u32; 4000];
    let mut totals = Totals::default();
    for seed in 0..SEEDS {
        let pool = TrialPool {
            cells: trial_pools::cells_of(seed),
            seed,
        };
        for malformed in [false, true] {
            for marker in Marker::ALL {
                let trial = Trial {
                    pool,
                    leftover: trial_pools::leftover_of(seed),
                    malformed,
                    marker,
                };
                let outcome = trial.run_in(&mut words, &mut after, &mut stack);
                totals.count(trial, outcome);
            }
        }
    }
    totals.print(&rt);
}
