// Saved images of a pool: theory, what their cells are, and the number of each kind. What reads and writes them is in other crates.
#![tactic(auto)]

ghost use Rattle.std.specs.Prelude.{◌≡◌};
ghost use Rattle.image.specs.Kinds.{kind_number, kind_numbered};

use pool::Kind;

// The number of a kind in an image.
pub fn kind_number(kind: Kind) -> u32
    ensures { result ≡ kind_number kind }
{
    match kind {
        Kind::Pair => 0,
        Kind::Point => 1,
    }
}

// The kind of that number in an image, 0 or 1.
pub fn kind_numbered(number: u32) -> Kind
    ensures { result ≡ kind_numbered number }
{
    if number == 1 { Kind::Point } else { Kind::Pair }
}

// A cell of an image: its kind; the numbers of a pair's links, or a point's coordinates; and its value.
#[derive(Clone, Copy, PartialEq, Eq, Debug)]
pub struct ImageCell {
    pub kind: Kind,
    pub left: u32,
    pub right: u32,
    pub value: u32,
}
