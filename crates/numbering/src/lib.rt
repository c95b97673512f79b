// The reached cells of a pool, numbered in the order of the visits.
#![tactic(auto)]

ghost use Rattle.std.specs.Prelude.{◌≡◌, ◌*◌, ◌≤◌, length};
ghost use Rattle.pool.specs.Layout.{register_count};
ghost use Rattle.reversal.specs.Reached.{reached_count};
ghost use Rattle.numbering.specs.Steps.{is_new, Savable, Clear, Numbered, NumbersWithin, Listed, Ordered};

use pool::Pool;

// Is the link a cell that has no number yet?
fn unnumbered(scratch: &[u32], x: u32) -> bool
    requires { x ≤ length scratch.now }
    ensures { result ≡ is_new scratch.now x }
{
    if x == 0 {
        return false;
    }
    scratch[x as usize - 1] == 0
}

// Numbers the cells that the registers reach, in depth-first preorder, left before right. The words behind the numbers are a stack of right
// links. Gives the number of cells.
fn number_cells(words: &[u32], scratch: &mut [u32], n: u32) -> u32
    requires { Savable register_count n words.now (length scratch.old) × Clear scratch.old }
    ensures { (result ≡ reached_count register_count n words.now) × Numbered register_count n words.now scratch.new }
{
    let base = n as usize;
    let mut hand = 0;
    let mut depth = 0;
    let mut count = 0;
    let mut root = 0;
    // Not a `for` over the registers: most turns take no next register, but follow a link or take one off the stack.
    loop {
        if unnumbered(scratch, hand) {
            let left = pool::link_of(words, hand, Pool::LEFT);
            let right = pool::link_of(words, hand, Pool::RIGHT);
            count += 1;
            scratch[hand as usize - 1] = count;
            scratch[base + depth] = right;
            depth += 1;
            hand = left;
        } else if 0 < depth {
            depth -= 1;
            hand = scratch[base + depth];
        } else if root < Pool::REGISTERS {
            hand = pool::read_register(words, root);
            root += 1;
        } else {
            return count;
        }
    }
}

// Puts the cell of each number behind the numbers.
fn list_cells(scratch: &mut [u32], n: u32)
    requires { (2 * n ≤ length scratch.old) × NumbersWithin n scratch.old }
    ensures { Listed n scratch.old scratch.new }
{
    let base = n as usize;
    for i in (0..n).rev() {
        let number = scratch[i as usize];
        if number != 0 {
            scratch[base + (number as usize - 1)] = i + 1;
        }
    }
}

// Fills the scratch with the number of each cell and the cell of each number. Gives the number of cells. The pool and the scratch are no struct here, as they
// are once all is numbered: what it had to keep of the scratch would change with each step.
pub fn order_cells(words: &[u32], scratch: &mut [u32], n: u32) -> u32
    requires { Savable register_count n words.now (length scratch.old) }
    ensures { (result ≡ reached_count register_count n words.now) × Ordered register_count n words.now scratch.new }
{
    pool::clear(scratch);
    let k = number_cells(words, scratch, n);
    list_cells(scratch, n);
    k
}
