// The workspace that a call is lent.
ghost use Rattle.std.specs.Prelude.{◌≡◌, ℕ, ◌<◌, ◌≤◌, slice_index};

// How many cells of the workspace a call uses.
pub const CELLS: usize = 32768;

// The workspace while a call uses it. Its end zeroes the cells that a call uses, however the call returns.
pub struct Cleared<'a>(pub &'a mut [u16]);

impl Drop for Cleared<'_> {
    fn drop(self)
        ensures zero { (k : ℕ) → k < 32768 → slice_index self.exit.0.now k ≡ 0 }
        ensures rest { (k : ℕ) → 32768 ≤ k → slice_index self.exit.0.now k ≡ slice_index self.entry.0.now k }
    {
        wipe(self.0);
        // Rattle's `drop` takes its value, and has to take it apart where it ends.
        let Cleared(_) = self;
    }
}

// Zeroes the cells that a call uses.
fn wipe(cells: &mut [u16])
    ensures zero { (k : ℕ) → k < 32768 → slice_index cells.new k ≡ 0 }
    ensures rest { (k : ℕ) → 32768 ≤ k → slice_index cells.new k ≡ slice_index cells.old k }
{
    let used = cells.len().min(CELLS);
    cells[..used].fill(0);
}
