// The lengths of the lent memory that a call takes.
ghost use Rattle.std.specs.Prelude.{◌≡◌};
ghost use Rattle.calls.specs.Lengths.{state_fits, upper_fits, lower_fits, lengths_test};

use merge::tables::Layers;

pub fn state_fits(s: &[u8]) -> bool
    ensures { result ≡ state_fits s.now }
{
    s.len() == 13324
}

pub fn upper_fits(upper: &[u8]) -> bool
    ensures { result ≡ upper_fits upper.now }
{
    matches!(upper.len(), 0 | 8192)
}

pub fn lower_fits(lower: &[u8]) -> bool
    ensures { result ≡ lower_fits lower.now }
{
    matches!(lower.len(), 0 | 8192 | 16384 | 24576)
}

pub fn lengths_fit(s: &[u8], ls: Layers<'_>) -> bool
    ensures { result ≡ lengths_test s.now ls.entry.upper.now ls.entry.lower.now }
{
    state_fits(s) && upper_fits(ls.upper) && lower_fits(ls.lower)
}
