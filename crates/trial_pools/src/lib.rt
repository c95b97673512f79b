// Pseudo-random pools: each word is computed from the seed, the number of cells and its place, so the same seed gives the same pool.
#![tactic(auto)]

ghost use Rattle.std.specs.Prelude.{◌≤◌};

use trial_words::{CELL_WORDS, FIRST_CELL, FIRST_REGISTER, FREE, HEAD, PAIR, POINT, put};

// What the links of a pool are like.
#[derive(Clone, Copy)]
enum Shape {
    Sparse,
    AnyLinks,
    Chain,
    EqualLinks,
    DownwardChain,
    SelfLinks,
    Shared,
    NoRoots,
}

// A link of a cell.
#[derive(Clone, Copy)]
enum Side {
    Left,
    Right,
}

// The pool of a seed.
#[derive(Clone, Copy)]
pub struct TrialPool {
    pub cells: u32,
    pub seed: u32,
}

impl Shape {
    // The seed's lowest three bits say it.
    fn of(seed: u32) -> Shape {
        match seed % 8 {
            0 => Shape::Sparse,
            1 => Shape::AnyLinks,
            2 => Shape::Chain,
            3 => Shape::EqualLinks,
            4 => Shape::DownwardChain,
            5 => Shape::SelfLinks,
            6 => Shape::Shared,
            _ => Shape::NoRoots,
        }
    }
}

// One round of a multiplicative hash on 32 bits.
fn mix(x: u32) -> u32 {
    let y = x.wrapping_mul(2654435769);
    y ^ (y >> 15)
}

// The k-th pseudo-random number of a seed.
fn draw(seed: u32, k: u32) -> u32 {
    mix(mix(mix(mix(seed).wrapping_add(k))))
}

// The number of cells: each from 1 to 64 for 32 seeds, then some larger ones.
pub fn cells_of(seed: u32) -> u32
    ensures { (1 ≤ result) × (result ≤ 4000) }
{
    match seed / 32 {
        64 => 65,
        65 => 100,
        66 => 300,
        67 => 1000,
        68 => 4000,
        k => 1 + k % 64,
    }
}

// The number of words behind the cells, from 0 to 3.
pub fn leftover_of(seed: u32) -> u32
    ensures { result ≤ 3 }
{
    draw(seed, 9002) % 4
}

// How many of sixteen used cells are points: none in three pools of eight, and all in one.
fn point_rate(seed: u32) -> u32 {
    match draw(seed, 9003) % 8 {
        3 => 1,
        4 => 2,
        5 => 4,
        6 => 8,
        7 => 16,
        _ => 0,
    }
}

impl TrialPool {
    // One of the cells.
    fn any_cell(self, x: u32) -> u32 {
        if self.cells == 0 {
            return 0;
        }
        x % self.cells + 1
    }

    // Is the number a used cell? None, an eighth, a quarter or three eighths of the cells are free.
    fn is_used(self, i: u32) -> bool {
        i != 0 && i <= self.cells && self.seed / 8 % 4 <= draw(self.seed, i) % 8
    }

    // Is the cell, where it is used, a point?
    fn is_point(self, i: u32) -> bool {
        draw(self.seed, i.wrapping_add(30000)) % 16 < point_rate(self.seed)
    }

    // Is the number a pair, a used cell that is no point?
    fn is_pair(self, i: u32) -> bool {
        self.is_used(i) && !self.is_point(i)
    }

    // The state of a cell.
    fn state(self, i: u32) -> u32 {
        if !self.is_used(i) {
            FREE
        } else if self.is_point(i) {
            POINT
        } else {
            PAIR
        }
    }

    // The link if it leads to a used cell, and nil otherwise.
    fn valid(self, link: u32) -> u32 {
        if self.is_used(link) { link } else { 0 }
    }

    // The register's link: mostly nil; some cell, the first or the last.
    fn register(self, x: u32) -> u32 {
        if let Shape::NoRoots = Shape::of(self.seed) {
            return 0;
        }
        match x % 16 {
            0 => self.any_cell(x / 16),
            1 => 1,
            2 => self.cells,
            _ => 0,
        }
    }

    // The link of a cell by the pool's shape.
    fn link(self, i: u32, side: Side, x: u32) -> u32 {
        match (Shape::of(self.seed), side) {
            (Shape::Sparse, _) => { if x % 4 == 0 { self.any_cell(x / 4) } else { 0 } }
            (Shape::Chain, Side::Left) => i.wrapping_add(1),
            (Shape::Chain, Side::Right) => 0,
            (Shape::EqualLinks, _) => i.wrapping_add(1),
            (Shape::DownwardChain, Side::Left) => i.wrapping_sub(1),
            (Shape::DownwardChain, Side::Right) => i.wrapping_sub(2),
            (Shape::SelfLinks, _) => { if x % 2 == 0 { i } else { self.any_cell(x / 2) } }
            (Shape::Shared, _) => 1 + x % 3,
            (Shape::AnyLinks | Shape::NoRoots, _) => self.any_cell(x),
        }
    }

    // A word of a cell, its state, left, right or value. The links and the value of a free cell are any numbers, and so are a point's coordinates and words
    // past the last cell.
    fn cell_word(self, i: u32, field: usize, x: u32) -> u32 {
        if self.cells < i {
            return x;
        }
        match field {
            0 => self.state(i),
            1 if self.is_pair(i) => self.valid(self.link(i, Side::Left, x)),
            2 if self.is_pair(i) => self.valid(self.link(i, Side::Right, x)),
            _ => x,
        }
    }

    // The word at a place: the number of cells, any number for the head, the registers, the cells, and any numbers behind them.
    fn word(self, k: u32) -> u32 {
        let x = draw(self.seed, k.wrapping_add(4096));
        match k as usize {
            0 => self.cells,
            HEAD => x,
            place if place < FIRST_CELL => self.valid(self.register(x)),
            place => {
                let behind = place - FIRST_CELL;
                self.cell_word((behind / CELL_WORDS) as u32 + 1, behind % CELL_WORDS, x)
            }
        }
    }

    // Makes the words a well-formed pool, with up to three words behind its cells.
    pub fn fill(self, words: &mut [u32])
        requires { self.cells ≤ 4000 }
    {
        for k in 0..21 + 4 * self.cells {
            put(words, k as usize, self.word(k));
        }
    }

    // Makes a pool malformed: in a register, in a link of a pair, or in a state. There stands then the number of a free cell or one past the cells, which is
    // no state either, or the state of a cell being marked.
    pub fn damage(self, words: &mut [u32]) {
        let x = draw(self.seed, 9000);
        let i = self.any_cell(draw(self.seed, 9001));
        let state = FIRST_CELL - CELL_WORDS + CELL_WORDS * i as usize;
        let past = self.cells.wrapping_add(5 + x % 1000);
        let choice = (x / 3) as usize;
        match x % 3 {
            0 => {
                let link = if self.is_used(i) { past } else { i };
                put(words, FIRST_REGISTER + choice % 16, link);
            }
            1 if self.is_pair(i) => put(words, state + 1 + choice % 2, past),
            1 => put(words, state, past),
            _ => put(words, state, 1 + x / 3 % 3),
        }
    }
}
