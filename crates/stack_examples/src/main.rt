// Tries what the customer's scope and change requests say of the collection with a stack, and prints each with its result.
#![tactic(auto)]

use answers::Refusal;
use pool::Pool;
use stack_marker::StackCollection;

// Prints a label and what a collection with a stack says.
fn show_stack(rt: &impl Print, label: &str, answer: Result<StackCollection, Refusal>) {
    match answer {
        Ok(
            StackCollection {
                kept,
                enough,
                checks,
            },
        ) => {
            let enough = if enough { "enough" } else { "too short" };
            let _ = println!(rt; "{label} {kept} kept, {enough}, checks: {checks}");
        }
        Err(why) => print::answer(rt, label.as_bytes(), Err(why)),
    }
}

// Puts a chain of five cells, each with both links to the next, into a fresh pool of five; register 0 leads to it.
fn chain(words: &mut [u32]) -> Result<(), Refusal> {
    Pool::fresh(words)?;
    for value in 1..6 {
        calls::new(words, 0, 0, 0, value)?;
    }
    Ok(())
}

// "The chain of such cells needs no stack word where 01 said N − 1". The pool is as it was after each, and so it collects the same.
fn equal_links(rt: &impl Print) -> Result<(), Refusal> {
    let mut words = [0u32; 38];
    let mut stack = [0u32; 1];
    chain(&mut words)?;
    show_stack(
        rt,
        "chain of 5 with equal links, no stack word:",
        stack_marker::collect_stack(&mut words, &mut stack[..0]),
    );
    print::answer(rt, b"and then by reversal:", collector::collect(&mut words));
    print::answer(
        rt,
        b"and then recursively:",
        recursive_marker::collect_recursive(&mut words),
    );
    Ok(())
}

// Fills a fresh pool of five: register 0 leads to a cell with two leaves, 1 and 2, and register 1 to a cell whose right link alone leads on, to 4.
fn leaves(words: &mut [u32]) -> Result<(), Refusal> {
    Pool::fresh(words)?;
    calls::new(words, 1, 15, 15, 1)?;
    calls::new(words, 2, 15, 15, 2)?;
    calls::new(words, 0, 1, 2, 3)?;
    calls::new(words, 2, 15, 15, 4)?;
    calls::new(words, 1, 15, 2, 5)?;
    calls::clear(words, 2)?;
    Ok(())
}

// "Treating 003's listings as exact: Algorithm 5 reads cdr from car, and tests "both marked" twice." No right leaf must be lost.
fn both_links_are_read(rt: &impl Print) -> Result<(), Refusal> {
    let mut words = [0u32; 38];
    let mut stack = [0u32; 1];
    leaves(&mut words)?;
    show_stack(
        rt,
        "a cell with two leaves, and one with a right leaf, 1 stack word:",
        stack_marker::collect_stack(&mut words, &mut stack),
    );
    calls::right(&mut words, 2, 0)?;
    print::answer(
        rt,
        b"the value of the right one of the two leaves:",
        calls::value(&words, 2),
    );
    calls::right(&mut words, 2, 1)?;
    print::answer(
        rt,
        b"that of the other right leaf:",
        calls::value(&words, 2),
    );
    Ok(())
}

// "Leaving links rotated when a stack overflow falls back": the two leaves are left and right as they were.
fn links_after_falling_back(rt: &impl Print) -> Result<(), Refusal> {
    let mut words = [0u32; 38];
    let mut stack = [0u32; 1];
    leaves(&mut words)?;
    show_stack(
        rt,
        "the same, no stack word:",
        stack_marker::collect_stack(&mut words, &mut stack[..0]),
    );
    calls::left(&mut words, 2, 0)?;
    print::answer(
        rt,
        b"the value of the left one of the two leaves:",
        calls::value(&words, 2),
    );
    calls::right(&mut words, 2, 0)?;
    print::answer(rt, b"that of the right one:", calls::value(&words, 2));
    Ok(())
}

// "That number is (N − 1) / 2 rounded down, and it is answered": so many stack words need no check, and with one less there is one, which drops all entries.
fn fills_the_stack(rt: &impl Print, label: &str, words: &mut [u32], stack: &mut [u32]) {
    print::answer(rt, label.as_bytes(), worst_case::worst_case(words));
    show_stack(
        rt,
        "its collection with so many stack words:",
        stack_marker::collect_stack(words, stack),
    );
    if 0 < stack.len() {
        show_stack(
            rt,
            "and with one less:",
            stack_marker::collect_stack(words, &mut stack[1..]),
        );
    }
}

fn worst_case_of_5(rt: &impl Print) {
    let mut words = [9u32; 38];
    let mut stack = [9u32; 2];
    fills_the_stack(
        rt,
        "the pool of 5 cells that fills the stack:",
        &mut words,
        &mut stack,
    );
}

fn worst_case_of_4000(rt: &impl Print) {
    let mut words = [9u32; 16018];
    let mut stack = [9u32; 1999];
    let mut ten = [9u32; 10];
    fills_the_stack(rt, "that of 4000 cells:", &mut words, &mut stack);
    show_stack(
        rt,
        "and with ten:",
        stack_marker::collect_stack(&mut words, &mut ten),
    );
}

fn main(rt: HostRuntime) {
    let _ = equal_links(&rt);
    let _ = both_links_are_read(&rt);
    let _ = links_after_falling_back(&rt);
    worst_case_of_5(&rt);
    worst_case_of_4000(&rt);
}
