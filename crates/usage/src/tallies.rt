// A tally is lent to one collection after the other, and counts on.
// Two cells kept are 6 visits, one is 3. What is no pool is refused, and leaves the tally. Each count stops at 4294967295: 4294967294 + 1 + 1 and
// 4294967290 + 6 + 3 pass it.
ghost use Rattle.std.specs.Prelude.{◌≡◌};
ghost use Rattle.usage.specs.Tallies.{both_tallied};

use answers::Refusal;
use pool::Pool;
use tally::Tally;

// Collects two pools, and lends the same tally to both collections.
fn collect_both(a: &mut [u32], b: &mut [u32], tally: Tally) -> Tally
    ensures { (a.new, b.new, result) ≡ both_tallied a.old b.old tally }
{
    let mut t = tally;
    let _ = tally::collect_tally(a, &mut t);
    let _ = tally::collect_tally(b, &mut t);
    t
}

// Makes the words a pool, and puts a chain of cells with these values into it, the last one first.
fn chain(words: &mut [u32], values: &[u32]) -> Result<(), Refusal> {
    Pool::fresh(words)?;
    for value in values {
        calls::new(words, 0, 0, 0, *value)?;
    }
    Ok(())
}

fn show(rt: &impl Print, label: &str, tally: Tally) {
    let _ = println!(rt; "{label} {} {}", tally.collections, tally.visits);
}

// Two cells in the first pool and one in the second; what is no pool is refused.
pub fn collect_in_turn(rt: &impl Print) {
    let mut two = [0u32; 26];
    let mut one = [0u32; 22];
    let mut none = [0u32; 21];
    let _ = chain(&mut two, &[7, 8]);
    let _ = chain(&mut one, &[9]);
    let start = Tally {
        collections: 0,
        visits: 0,
    };
    let first = collect_both(&mut two, &mut one, start);
    show(
        rt,
        "collections and visits of pools of 2 and 1 cells:",
        first,
    );
    let second = collect_both(&mut none, &mut two, first);
    show(
        rt,
        "and then of what is no pool, and of the first pool again:",
        second,
    );
    let full = Tally {
        collections: 4294967294,
        visits: 4294967290,
    };
    let last = collect_both(&mut two, &mut one, full);
    show(rt, "where the counts stop:", last);
}
