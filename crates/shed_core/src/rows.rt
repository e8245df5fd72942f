//! The rows of letters: how many cells they have, and which is whose.
ghost use Rattle.std.specs.Prelude.{◌≡◌, ◌<◌, ◌≤◌};
ghost use Rattle.stations.specs.declared.TheConstants.{STATIONS};
ghost use Rattle.protocol.specs.Rows.{row_cells, letter_cells, letter_cell, held_cell};

// How many cells the row of one of n stations has.
fn row_cells(n: usize) -> usize
    requires { n ≤ STATIONS }
    ensures { result ≡ row_cells n }
{
    n + 1
}

// How many cells the letters of n stations ask for.
pub(crate) fn letter_cells(n: usize) -> usize
    requires { n ≤ STATIONS }
    ensures { result ≡ letter_cells n }
{
    n * row_cells(n)
}

// The cell of the letter that station p, one of n, has from q.
pub(crate) fn letter_cell(n: usize, p: usize, q: usize) -> usize
    requires { (n ≤ STATIONS) × (p < n) × (q < n) }
    ensures { result ≡ letter_cell n p q }
{
    p * row_cells(n) + q
}

// The cell of the letter that station p, one of n, holds.
pub(crate) fn held_cell(n: usize, p: usize) -> usize
    requires { (n ≤ STATIONS) × (p < n) }
    ensures { result ≡ held_cell n p }
{
    p * row_cells(n) + n
}
