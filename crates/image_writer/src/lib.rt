// The bytes of the image of a pool whose cells are numbered in lent scratch: how many there are, and writing them.
#![tactic(auto)]

ghost use Rattle.std.specs.Prelude.{◌≡◌, ◌++◌, false, ◌+◌, ◌<◌, ◌≤◌, length, get_or, drop};
ghost use Rattle.pool.specs.Layout.{register_count, roots_of};
ghost use Rattle.reversal.specs.Reached.{reached_cells, reached_count};
ghost use Rattle.image.specs.Kinds.{kind_of};
ghost use Rattle.image.specs.Image.{number_in, saved_cell, cell_bytes, image_of};
ghost use Rattle.numbering.specs.Steps.{Savable, Ordered, Savable-prop, Ordered-prop};
ghost use Rattle.image_writer.specs.Steps.{number_at, word_at, register_bytes, order_bytes, PutBytes};

use image::ImageCell;
use pool::{Kind, Pool};

// A well-formed pool of so many cells, and lent scratch in which `count` of them, those that are reached, are numbered.
#[derive(Clone, Copy)]
pub struct NumberedPool<'a> {
    pub words: &'a [u32],
    pub scratch: &'a [u32],
    pub cells: u32,
    pub count: u32,
    pub ghost savable: { Savable register_count cells words.now (length scratch.now) } by { Savable-prop },
    pub ghost ordered: { Ordered register_count cells words.now scratch.now } by { Ordered-prop },
    pub ghost counted: { count ≡ reached_count register_count cells words.now },
}

// The number of a link.
fn link_number(scratch: &[u32], x: u32) -> u32
    requires { x ≤ length scratch.now }
    ensures { result ≡ number_at scratch.now x }
{
    if x == 0 {
        return 0;
    }
    scratch[x as usize - 1]
}

// What an image holds for a left or right word: the number of a pair's link, and the word itself of a point.
fn saved_word(scratch: &[u32], point: bool, x: u32) -> u32
    requires { point ≡ false → x ≤ length scratch.now }
    ensures { result ≡ word_at point scratch.now x }
{
    if point {
        return x;
    }
    link_number(scratch, x)
}

// The kind of a cell in an image.
fn kind_of(point: bool) -> Kind
    ensures { result ≡ kind_of point }
{
    if point { Kind::Point } else { Kind::Pair }
}

// The number of bytes of a cell.
fn cell_size(cell: ImageCell) -> usize
    ensures { result ≡ length (cell_bytes cell) }
{
    leb128::number_size(image::kind_number(cell.kind))
        + leb128::number_size(cell.left)
        + leb128::number_size(cell.right)
        + leb128::number_size(cell.value)
}

// Writes a cell where there is room for it. Gives the place behind it.
fn put_cell(out: &mut [u8], at: usize, cell: ImageCell) -> usize
    requires { at + length (cell_bytes cell) ≤ length out.old }
    ensures { PutBytes (cell_bytes cell) out.old at result out.new }
{
    let behind_kind = leb128::write_number(out, at, image::kind_number(cell.kind));
    let behind_left = leb128::write_number(out, behind_kind, cell.left);
    let behind_right = leb128::write_number(out, behind_left, cell.right);
    leb128::write_number(out, behind_right, cell.value)
}

impl<'a> NumberedPool<'a> {
    // What an image holds for register j.
    fn saved_register(&self, j: u32) -> u32
        requires { j < register_count }
        ensures { result ≡ number_in (reached_cells register_count self.now.cells self.now.words.now) (get_or (roots_of register_count self.now.words.now) j 0) }
    {
        link_number(self.scratch, pool::read_register(self.words, j))
    }

    // What an image holds for the p-th cell of the order.
    fn saved_cell(&self, p: u32) -> ImageCell
        requires { p < self.now.count }
        ensures { result ≡ saved_cell register_count self.now.words.now (reached_cells register_count self.now.cells self.now.words.now) (get_or (reached_cells register_count self.now.cells self.now.words.now) p 0) }
    {
        let cell = self.scratch[self.cells as usize + p as usize];
        let point = pool::is_point_at(self.words, cell);
        let left = pool::read_cell(self.words, cell, Pool::LEFT);
        let right = pool::read_cell(self.words, cell, Pool::RIGHT);
        ImageCell {
            kind: kind_of(point),
            left: saved_word(self.scratch, point, left),
            right: saved_word(self.scratch, point, right),
            value: pool::read_cell(self.words, cell, Pool::VALUE),
        }
    }

    // Registers and cells are gone through alike, but read and written by functions of their own: one function that took these would be no plainer.

    // The number of bytes of the registers.
    fn registers_size(&self) -> usize
        ensures { result ≡ length (register_bytes register_count self.now.cells self.now.words.now 0) }
    {
        let mut size = 0;
        for j in 0..Pool::REGISTERS {
            size += leb128::number_size(self.saved_register(j));
        }
        size
    }

    // The number of bytes of the cells.
    fn cells_size(&self) -> usize
        ensures { result ≡ length (order_bytes register_count self.now.cells self.now.words.now 0) }
    {
        let mut size = 0;
        for p in 0..self.count {
            size += cell_size(self.saved_cell(p));
        }
        size
    }

    // The number of bytes of the image.
    pub fn image_size(&self) -> usize
        ensures { result ≡ length (image_of register_count self.now.cells self.now.words.now) }
    {
        leb128::number_size(self.count) + self.registers_size() + self.cells_size()
    }

    // Writes the registers where there is room for them. Gives the place behind them.
    fn write_registers(&self, out: &mut [u8], start: usize) -> usize
        requires { start + length (register_bytes register_count self.now.cells self.now.words.now 0) ≤ length out.old }
        ensures { PutBytes (register_bytes register_count self.now.cells self.now.words.now 0) out.old start result out.new }
    {
        let mut at = start;
        for j in 0..Pool::REGISTERS {
            at = leb128::write_number(out, at, self.saved_register(j));
        }
        at
    }

    // Writes the cells where there is room for them. Gives the place behind them.
    fn write_cells(&self, out: &mut [u8], start: usize) -> usize
        requires { start + length (order_bytes register_count self.now.cells self.now.words.now 0) ≤ length out.old }
        ensures { PutBytes (order_bytes register_count self.now.cells self.now.words.now 0) out.old start result out.new }
    {
        let mut at = start;
        for p in 0..self.count {
            at = put_cell(out, at, self.saved_cell(p));
        }
        at
    }

    // Writes the image to the start of the output.
    pub fn write_image(&self, out: &mut [u8])
        requires { length (image_of register_count self.now.cells self.now.words.now) ≤ length out.old }
        ensures { out.new ≡ image_of register_count self.now.cells self.now.words.now ++ drop (length (image_of register_count self.now.cells self.now.words.now)) out.old }
    {
        let registers = leb128::write_number(out, 0, self.count);
        let cells = self.write_registers(out, registers);
        self.write_cells(out, cells);
    }
}
