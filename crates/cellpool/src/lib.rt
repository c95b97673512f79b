// The pool as the firmware calls it: every operation as a C function. Each answers 0 or the number of its refusal, asks nothing of its arguments, and
// stores the numbers that it gives in lent places; a refusal neither reads nor writes these.
#![tactic(auto)]

ghost use Rattle.std.specs.Prelude.{◌≡◌};
ghost use Rattle.answers.specs.Outcome.{answer_outcome, verdict};
ghost use Rattle.pool.specs.Fresh.{fresh_of};
ghost use Rattle.occupancy.specs.Occupancy.{occupancy_of};
ghost use Rattle.calls.specs.declared.Call.{Call};
ghost use Rattle.calls.specs.Calls.{call_of};
ghost use Rattle.recursive_marker.specs.Recursive.{recursive_of};
ghost use Rattle.stack_marker.specs.StackCollect.{stack_of};
ghost use Rattle.worst_case.specs.WorstCase.{worst_case_of};
ghost use Rattle.tally.specs.TallyOf.{tally_of};
ghost use Rattle.image_scan.specs.Check.{check_of};
ghost use Rattle.load.specs.Load.{load_of};
ghost use Rattle.save.specs.Save.{save_of};
ghost use Rattle.cellpool.specs.Interface.{giving_none, giving, giving_two, tallying, with_stack, number, numbers, saving, loading};

use answers::{Answer, Refusal};
use pool::Pool;
use tally::Tally;

// Stores the number that an answer gives, and answers its status. A refusal stores nothing.
fn store(answer: Result<Answer, Refusal>, place: &mut u32) -> u32
    ensures { (result, place.new) ≡ number (answer_outcome answer) place.old }
{
    let mut second = 0;
    store_two(answer, place, &mut second)
}

// The same of an answer that gives two numbers.
fn store_two(answer: Result<Answer, Refusal>, first: &mut u32, second: &mut u32) -> u32
    ensures { (result, first.new, second.new) ≡ numbers (answer_outcome answer) first.old second.old }
{
    match answer {
        Ok(Answer::Done) => {}
        Ok(Answer::Allocated { visits }) => *first = visits,
        Ok(Answer::Number(x)) => *first = x,
        Ok(Answer::Pair(x, y)) => {
            *first = x;
            *second = y;
        }
        Err(_) => {}
    }
    answers::status(answer)
}

// 0, or the number of the refusal. (Not `answers::status`, which promises the number of what a call says.)
fn number_of(done: Result<(), Refusal>) -> u32
    ensures { result ≡ verdict done }
{
    match done {
        Ok(()) => 0,
        Err(refusal) => refusal.number(),
    }
}

// The number of cells, and of the words left over behind them.
#[unsafe(no_mangle)]
pub extern "C" fn cellpool_fresh(words: &mut [u32], cells: &mut u32, leftover: &mut u32) -> u32
    ensures { (result, words.new, cells.new, leftover.new) ≡ giving_two (fresh_of words.old) cells.old leftover.old }
{
    store_two(Pool::fresh(words), cells, leftover)
}

#[unsafe(no_mangle)]
pub extern "C" fn cellpool_copy(words: &mut [u32], r: u32, a: u32) -> u32
    ensures { (result, words.new) ≡ giving_none (call_of (Call.Copy r a) words.old) }
{
    answers::status(calls::copy(words, r, a))
}

#[unsafe(no_mangle)]
pub extern "C" fn cellpool_clear(words: &mut [u32], r: u32) -> u32
    ensures { (result, words.new) ≡ giving_none (call_of (Call.Clear r) words.old) }
{
    answers::status(calls::clear(words, r))
}

#[unsafe(no_mangle)]
pub extern "C" fn cellpool_new(
    words: &mut [u32],
    r: u32,
    a: u32,
    b: u32,
    v: u32,
    visits: &mut u32,
) -> u32
    ensures { (result, words.new, visits.new) ≡ giving (call_of (Call.New r a b v) words.old) visits.old }
{
    store(calls::new(words, r, a, b, v), visits)
}

#[unsafe(no_mangle)]
pub extern "C" fn cellpool_left(words: &mut [u32], r: u32, a: u32) -> u32
    ensures { (result, words.new) ≡ giving_none (call_of (Call.Left r a) words.old) }
{
    answers::status(calls::left(words, r, a))
}

#[unsafe(no_mangle)]
pub extern "C" fn cellpool_right(words: &mut [u32], r: u32, a: u32) -> u32
    ensures { (result, words.new) ≡ giving_none (call_of (Call.Right r a) words.old) }
{
    answers::status(calls::right(words, r, a))
}

#[unsafe(no_mangle)]
pub extern "C" fn cellpool_setleft(words: &mut [u32], a: u32, b: u32) -> u32
    ensures { (result, words.new) ≡ giving_none (call_of (Call.SetLeft a b) words.old) }
{
    answers::status(calls::set_left(words, a, b))
}

#[unsafe(no_mangle)]
pub extern "C" fn cellpool_setright(words: &mut [u32], a: u32, b: u32) -> u32
    ensures { (result, words.new) ≡ giving_none (call_of (Call.SetRight a b) words.old) }
{
    answers::status(calls::set_right(words, a, b))
}

#[unsafe(no_mangle)]
pub extern "C" fn cellpool_setvalue(words: &mut [u32], a: u32, v: u32) -> u32
    ensures { (result, words.new) ≡ giving_none (call_of (Call.SetValue a v) words.old) }
{
    answers::status(calls::set_value(words, a, v))
}

#[unsafe(no_mangle)]
pub extern "C" fn cellpool_value(words: &[u32], a: u32, value: &mut u32) -> u32
    ensures { (result, words.now, value.new) ≡ giving (call_of (Call.Value a) words.now) value.old }
{
    store(calls::value(words, a), value)
}

#[unsafe(no_mangle)]
pub extern "C" fn cellpool_same(words: &[u32], a: u32, b: u32, same: &mut u32) -> u32
    ensures { (result, words.now, same.new) ≡ giving (call_of (Call.Same a b) words.now) same.old }
{
    store(calls::same(words, a, b), same)
}

#[unsafe(no_mangle)]
pub extern "C" fn cellpool_point(
    words: &mut [u32],
    r: u32,
    v: u32,
    x: u32,
    y: u32,
    visits: &mut u32,
) -> u32
    ensures { (result, words.new, visits.new) ≡ giving (call_of (Call.Point r v x y) words.old) visits.old }
{
    store(calls::point(words, r, v, x, y), visits)
}

#[unsafe(no_mangle)]
pub extern "C" fn cellpool_east(words: &[u32], a: u32, x: &mut u32) -> u32
    ensures { (result, words.now, x.new) ≡ giving (call_of (Call.East a) words.now) x.old }
{
    store(calls::east(words, a), x)
}

#[unsafe(no_mangle)]
pub extern "C" fn cellpool_north(words: &[u32], a: u32, y: &mut u32) -> u32
    ensures { (result, words.now, y.new) ≡ giving (call_of (Call.North a) words.now) y.old }
{
    store(calls::north(words, a), y)
}

#[unsafe(no_mangle)]
pub extern "C" fn cellpool_collect(words: &mut [u32], kept: &mut u32, visits: &mut u32) -> u32
    ensures { (result, words.new, kept.new, visits.new) ≡ giving_two (call_of Call.Collect words.old) kept.old visits.old }
{
    store_two(calls::collect(words), kept, visits)
}

// The tally is two lent numbers here.
#[unsafe(no_mangle)]
pub extern "C" fn cellpool_collect_tally(
    words: &mut [u32],
    collections: &mut u32,
    total_visits: &mut u32,
    kept: &mut u32,
    visits: &mut u32,
) -> u32
    ensures { (result, words.new, collections.new, total_visits.new, kept.new, visits.new) ≡ tallying (tally_of words.old (record { collections = collections.old; visits = total_visits.old })) kept.old visits.old }
{
    let answer = collector::collect(words);
    let status = answers::status(answer);
    if status != 0 {
        return status;
    }
    let before = Tally {
        collections: *collections,
        visits: *total_visits,
    };
    let after = before.after(answer);
    *collections = after.collections;
    *total_visits = after.visits;
    store_two(answer, kept, visits)
}

// Kept, 1 where the stack was enough and 0 where it was not, and the checks of its entries.
#[unsafe(no_mangle)]
pub extern "C" fn cellpool_collect_stack(
    words: &mut [u32],
    stack: &mut [u32],
    kept: &mut u32,
    enough: &mut u32,
    checks: &mut u32,
) -> u32
    ensures { (result, words.new, stack.new, kept.new, enough.new, checks.new) ≡ with_stack (stack_of words.old stack.old) kept.old enough.old checks.old }
{
    match stack_marker::collect_stack(words, stack) {
        Ok(made) => {
            *kept = made.kept;
            *enough = u32::from(made.enough);
            *checks = made.checks;
            0
        }
        Err(why) => why.number(),
    }
}

// The words become a pool for which the collection with a stack holds the most entries, and `entries` their number.
#[unsafe(no_mangle)]
pub extern "C" fn cellpool_worst_case(words: &mut [u32], entries: &mut u32) -> u32
    ensures { (result, words.new, entries.new) ≡ giving (worst_case_of words.old) entries.old }
{
    store(worst_case::worst_case(words), entries)
}

#[unsafe(no_mangle)]
pub extern "C" fn cellpool_collect_recursive(
    words: &mut [u32],
    kept: &mut u32,
    visits: &mut u32,
) -> u32
    ensures { (result, words.new, kept.new, visits.new) ≡ giving_two (recursive_of words.old) kept.old visits.old }
{
    store_two(recursive_marker::collect_recursive(words), kept, visits)
}

#[unsafe(no_mangle)]
pub extern "C" fn cellpool_save(
    words: &[u32],
    scratch: &mut [u32],
    out: &mut [u8],
    bytes: &mut usize,
) -> u32
    ensures { (result, scratch.new, out.new, bytes.new) ≡ saving (save_of words.now scratch.old out.old) bytes.old }
{
    match save::save(words, scratch, out) {
        Ok(size) => {
            *bytes = size;
            0
        }
        Err(refusal) => refusal.number(),
    }
}

// `rest` becomes the place behind the image, or the end of the bytes where they are refused.
#[unsafe(no_mangle)]
pub extern "C" fn cellpool_load(words: &mut [u32], bytes: &[u8], rest: &mut usize) -> u32
    ensures { (result, words.new, rest.new) ≡ loading (load_of words.old bytes.now) }
{
    let loaded = load::load_at(words, bytes);
    *rest = loaded.end;
    number_of(loaded.verdict)
}

#[unsafe(no_mangle)]
pub extern "C" fn cellpool_check_image(bytes: &[u8], n: u32) -> u32
    ensures { result ≡ verdict (check_of bytes.now n) }
{
    number_of(image_scan::check_image(bytes, n))
}

#[unsafe(no_mangle)]
pub extern "C" fn cellpool_occupancy(kept: u32, n: u32, percent: &mut u32) -> u32
    ensures { (result, percent.new) ≡ number (occupancy_of kept n) percent.old }
{
    store(occupancy::occupancy(kept, n), percent)
}
