// The lines of scripts: what a letter and its numbers say.
#![tactic(auto)]

ghost use Rattle.std.specs.Prelude.{◌≡◌};
ghost use Rattle.lines.specs.Lines.{command};

use calls::Call;

// What a line says.
#[derive(Clone, Copy)]
pub enum Line {
    // Make the pool anew, of that many cells.
    Fresh(u32),
    Run(Call),
}

// What a letter with its numbers says; none where the line is of another form. Inlined, so that the line need not be put together and taken apart again.
#[inline(always)]
#[tactic(auto, unfolding(crate::specs::Lines::command))]
pub fn command(letter: u8, numbers: &[u32]) -> Option<Line>
    ensures { result ≡ command letter numbers.now }
{
    match (letter, numbers) {
        (b'g', []) => Some(Line::Run(Call::Collect)),
        (b'f', &[n]) => Some(Line::Fresh(n)),
        (b'z', &[r]) => Some(Line::Run(Call::Clear { r })),
        (b'v', &[a]) => Some(Line::Run(Call::Value { a })),
        (b'e', &[a]) => Some(Line::Run(Call::East { a })),
        (b'o', &[a]) => Some(Line::Run(Call::North { a })),
        (b'c', &[r, a]) => Some(Line::Run(Call::Copy { r, a })),
        (b'l', &[r, a]) => Some(Line::Run(Call::Left { r, a })),
        (b'r', &[r, a]) => Some(Line::Run(Call::Right { r, a })),
        (b'L', &[a, b]) => Some(Line::Run(Call::SetLeft { a, b })),
        (b'R', &[a, b]) => Some(Line::Run(Call::SetRight { a, b })),
        (b'V', &[a, v]) => Some(Line::Run(Call::SetValue { a, v })),
        (b's', &[a, b]) => Some(Line::Run(Call::Same { a, b })),
        (b'n', &[r, a, b, v]) => Some(Line::Run(Call::New { r, a, b, v })),
        (b'p', &[r, v, x, y]) => Some(Line::Run(Call::Point { r, v, x, y })),
        _ => None,
    }
}
