// Two images stand behind each other, and three bytes behind them. `load::load` hands back the part of the bytes behind the image that it read: the next
// load reads that part, and no offset is counted.
// An image of one cell is 1 + 16 + 4 numbers, here of a byte each: 29 of 50 bytes are behind it. An image of two cells is 1 + 16 + 8 numbers, of which 300
// takes two bytes: 3 of 29 bytes are behind it. Three bytes 0 are K and two registers; the next number is missing: refused 6, with the empty part, and the
// words are as they were.
use answers::{Answer, Refusal};
use load::Behind;
use pool::Pool;

// Saves a pool of one point, at x = 8, y = 9, with value 7, and then a pool with a pair too, both of whose links are to the point, with value 300; both in a
// pool of two.
fn save_two(bytes: &mut [u8]) -> Result<(), Refusal> {
    let mut words = [0u32; 26];
    let mut scratch = [0u32; 4];
    Pool::fresh(&mut words)?;
    calls::point(&mut words, 0, 7, 8, 9)?;
    let first = save::save(&words, &mut scratch, bytes)?;
    calls::new(&mut words, 1, 0, 0, 300)?;
    if let Some(rest) = bytes.get_mut(first..) {
        save::save(&words, &mut scratch, rest)?;
    }
    Ok(())
}

// Prints 0 or the number of the refusal, and how many bytes are behind the image.
fn show(rt: &impl Print, loaded: Behind) {
    let verdict = match loaded.verdict {
        Ok(()) => 0,
        Err(why) => why.number(),
    };
    let rest = loaded.rest.len();
    let _ = println!(rt; "load, its verdict and the bytes behind the image: {verdict} {rest}");
}

fn show_value(rt: &impl Print, words: &[u32], a: u32) {
    let _ = match calls::value(words, a) {
        Ok(Answer::Number(x)) => println!(rt; "the value there: {x}"),
        _ => println!(rt; "the value there:"),
    };
}

// Loads the first image, the second from the part behind the first, and what is behind that, which is no image.
fn load_each(rt: &impl Print, words: &mut [u32], bytes: &[u8]) {
    let first = load::load(words, bytes);
    show(rt, first);
    show_value(rt, words, 0);
    let second = load::load(words, first.rest);
    show(rt, second);
    show_value(rt, words, 1);
    let none = load::load(words, second.rest);
    show(rt, none);
    show_value(rt, words, 1);
}

pub fn load_in_turn(rt: &impl Print) {
    let mut bytes = [0u8; 50];
    let mut words = [0u32; 26];
    let _ = save_two(&mut bytes);
    load_each(rt, &mut words, &bytes);
}
