// Tries the examples of the customer's scope that have no star, and what its last section warns of, and prints each with its result. (Those with a star are
// the table of theorems, specs/Table.antt; those of the stack are tried by the program stack_examples.)
#![tactic(auto)]

use answers::Refusal;
use pool::Pool;

// Fresh of so many of the words. Inlined, so that the compiler knows the length, and with it the answer, and keeps no words on the stack.
#[inline(always)]
fn fresh_of(rt: &impl Print, words: &mut [u32], len: usize) {
    if let Some(part) = words.get_mut(..len) {
        let _ = print!(rt; "fresh of {len} words:");
        print::answer(rt, b"", Pool::fresh(part));
    }
}

// N, and how many words are left over, come from the length alone.
fn lengths(rt: &impl Print) {
    let mut words = [9u32; 16022];
    fresh_of(rt, &mut words, 18);
    fresh_of(rt, &mut words, 21);
    fresh_of(rt, &mut words, 22);
    fresh_of(rt, &mut words, 25);
    fresh_of(rt, &mut words, 16018);
    fresh_of(rt, &mut words, 16021);
    fresh_of(rt, &mut words, 16022);
}

// "Clearing r before "new" collects: r may be a or b, and its old cell is live to the ledger."
fn old_content_is_a_root(rt: &impl Print) -> Result<(), Refusal> {
    let mut words = [0u32; 26];
    Pool::fresh(&mut words)?;
    calls::new(&mut words, 0, 0, 0, 1)?;
    calls::new(&mut words, 0, 0, 0, 2)?;
    print::answer(
        rt,
        b"new where r's old content holds every cell:",
        calls::new(&mut words, 0, 1, 1, 3),
    );
    print::answer(rt, b"the value of r's cell:", calls::value(&words, 0));
    calls::clear(&mut words, 0)?;
    print::answer(
        rt,
        b"new with nothing reached:",
        calls::new(&mut words, 0, 1, 1, 3),
    );
    Ok(())
}

fn main(rt: HostRuntime) {
    lengths(&rt);
    let _ = old_content_is_a_root(&rt);
}
