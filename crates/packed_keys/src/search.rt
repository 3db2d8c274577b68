// Where a number stands among the numbers of cells.

ghost use Rattle.std.specs.Prelude.{◌-◌, ◌≤◌, length};
ghost use Rattle.std.specs.Ordering.{nat_cmp};
ghost use Rattle.comparison_steps.specs.Steps.{WithinSteps};
ghost use Rattle.packed_keys.specs.Search.{EndsAt, IsAfter};

use crate::cell::Cell;
use comparison_steps::StepCounter;
use std::cmp::Ordering;

/// Finds a number among those of the cells from an index on, as std's `binary_search` answers. Each comparison is one step. The number
/// before that index, if any, is below it.
pub fn search_cells<C: Cell, S: StepCounter>(
    cells: &[C],
    start: usize,
    number: u64,
    steps: &mut S,
) -> Result<usize, usize>
    requires within { start ≤ length cells.now }
    requires above { IsAfter (λ cell. nat_cmp number (C.number cell)) cells.now start }
    ensures ends { EndsAt (λ cell. nat_cmp number (C.number cell)) cells.now start result }
    ensures cost { WithinSteps (length cells.now - start) 0 (S.total steps.old) (S.total steps.new) }
{
    let mut low = start;
    let mut high = cells.len();
    while low < high {
        let middle = low + (high - low) / 2;
        let here = cells[middle].number();
        steps.tick();
        match number.cmp(&here) {
            Ordering::Less => high = middle,
            Ordering::Equal => return Ok(middle),
            Ordering::Greater => low = middle + 1,
        }
    }
    Err(low)
}
