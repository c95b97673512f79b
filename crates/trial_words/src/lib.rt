// What a collection has to leave of a pool's words by the marks of its cells, and how many of them are points.
#![tactic(auto)]

ghost use Rattle.std.specs.List.{range_with_len};
ghost use Rattle.std.specs.Prelude.{◌≡◌, ◌+◌, ◌*◌, ◌<◌, not, ◌==◌, length, take, drop, slice_index, slice_set, count_by};

// Where the words of a pool stand: the head of the free cells, the registers, and the cells. (Written out, and not those of `pool`: what the trials compare with is
// made by itself.)
pub const HEAD: usize = 1;

pub const FIRST_REGISTER: usize = 2;

pub const FIRST_CELL: usize = 18;

// The words of a cell: its state, its left, its right and its value.
pub const CELL_WORDS: usize = 4;

// The states of a cell between calls: a pair, a free cell, or a point.
pub const PAIR: u32 = 0;

pub const FREE: u32 = 4;

pub const POINT: u32 = 5;

// Stores a word, where there is that place.
pub fn put(words: &mut [u32], k: usize, v: u32)
    ensures { words.new ≡ slice_set words.old k v }
{
    if k < words.len() {
        words[k] = v;
    }
}

// Makes a cell, at a place from 0 on, free, with the next free cell as its left.
fn free_cell(words: &mut [u32], place: u32, next: u32) {
    let first = FIRST_CELL + CELL_WORDS * place as usize;
    for (field, v) in [FREE, next, 0, 0].iter().enumerate() {
        put(words, first + field, *v);
    }
}

// Makes the words of a well-formed pool what a collection has to leave of them, by the marks of its cells alone, from 1 on: a marked cell stays as it is.
// Gives the number of marked cells.
pub fn keep_marked(words: &mut [u32], n: u32, marks: &[u32]) -> u32
    requires { n < length marks.now }
    ensures { result ≡ count_by (λ mark. not (mark == 0)) (take n (drop 1 marks.now)) }
{
    let marks = &marks[1..n as usize + 1];
    let mut next = 0;
    for place in (0..n).rev() {
        if marks[place as usize] == 0 {
            free_cell(words, place, next);
            next = place + 1;
        }
    }
    put(words, HEAD, next);
    marks.iter().filter(|mark| **mark != 0).count() as u32
}

// How many of the cells are points.
pub fn points(words: &[u32], n: u32) -> u32
    ensures { result ≡ count_by (λ place. slice_index words.now (18 + 4 * place) == 5) (range_with_len 0 n) }
{
    (0..n)
        .filter(|place| words.get(FIRST_CELL + CELL_WORDS * *place as usize) == Some(&POINT))
        .count() as u32
}
