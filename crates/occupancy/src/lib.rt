// The occupancy of a pool.
#![tactic(auto)]

ghost use Rattle.std.specs.Prelude.{◌≡◌};
ghost use Rattle.answers.specs.Outcome.{answer_outcome};
ghost use Rattle.occupancy.specs.Occupancy.{occupancy_of};

use answers::{Answer, Refusal};
use pool::Pool;

// The percent of the cells that are kept, to the nearest whole number, an exact half to the even one.
pub fn occupancy(kept: u32, n: u32) -> Result<Answer, Refusal>
    ensures { answer_outcome result ≡ occupancy_of kept n }
{
    if n < 1 || Pool::CELLS < n || n < kept {
        return Err(Refusal::Size);
    }
    let product = 100 * kept;
    let whole = product / n;
    let rest = product % n;
    // More than a half goes up, and so does a half where the whole part is odd.
    if n < 2 * rest + whole % 2 {
        return Ok(Answer::Number(whole + 1));
    }
    Ok(Answer::Number(whole))
}
