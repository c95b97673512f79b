// The image of a pool, written to lent bytes.
#![tactic(auto)]

ghost use Rattle.std.specs.Prelude.{◌≡◌, ◌≤◌, length};
ghost use Rattle.pool.specs.Layout.{register_count, cell_limit, pool_length};
ghost use Rattle.image.specs.Image.{image_of};
ghost use Rattle.save.specs.Save.{saved_outcome, save_image, save_in, save_of};
ghost use Rattle.numbering.specs.Steps.{Savable};

use answers::Refusal;
use image_writer::NumberedPool;

// Saves a well-formed pool of n cells. Gives the number of bytes that were written.
fn save_pool(words: &[u32], scratch: &mut [u32], out: &mut [u8], n: u32) -> Result<usize, Refusal>
    requires { Savable register_count n words.now (length scratch.old) }
    ensures { (saved_outcome result, scratch.new, out.new) ≡ save_image (image_of register_count n words.now) scratch.old out.old }
{
    let count = numbering::order_cells(words, scratch, n);
    let pool = NumberedPool {
        words,
        scratch,
        cells: n,
        count,
    };
    let size = pool.image_size();
    if out.len() < size {
        pool::clear(scratch);
        return Err(Refusal::NoRoom);
    }
    pool.write_image(out);
    pool::clear(scratch);
    Ok(size)
}

// Save of a pool of n cells.
fn save_in(words: &[u32], scratch: &mut [u32], out: &mut [u8], n: u32) -> Result<usize, Refusal>
    requires { (pool_length register_count n ≤ length words.now) × (n ≤ cell_limit) }
    ensures { (saved_outcome result, scratch.new, out.new) ≡ save_in n words.now scratch.old out.old }
{
    if scratch.len() < 2 * n as usize {
        return Err(Refusal::NoRoom);
    }
    if questions::well_formed(words, n) {
        save_pool(words, scratch, out, n)
    } else {
        Err(Refusal::Malformed)
    }
}

// Writes the image of the pool to the start of the output, if it has room for the whole of it. Gives the number of bytes.
pub fn save(words: &[u32], scratch: &mut [u32], out: &mut [u8]) -> Result<usize, Refusal>
    ensures { (saved_outcome result, scratch.new, out.new) ≡ save_of words.now scratch.old out.old }
{
    let n = questions::sized(words)?;
    save_in(words, scratch, out, n)
}
