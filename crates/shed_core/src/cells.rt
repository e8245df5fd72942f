//! Cells of letters and of records.
ghost use Rattle.std.specs.Prelude.{◌≡◌, slice_set};

// Writes into a cell, if there is one.
pub(crate) fn store<T: Copy>(cells: &mut [T], at: usize, new: T)
    ensures { cells.new ≡ slice_set cells.old at new }
{
    if at < cells.len() {
        cells[at] = new;
    }
}
