// The cell for a site and a subset, on the cells and the numbers: "Enquirer: 3, 11, 4, 5, place 0", then the cell as it stands.
ghost use Rattle.std.specs.Prelude.{◌≡◌};
ghost use Rattle.answer.specs.Stated.{stated_cell};
ghost use Rattle.questions.specs.Questions.{cell_answer};

use crate::ranges::{in_range, is_long, sets_for};
use answer::{CellAnswer, Refusal, SheetFault, TableFault};
use cost_table::cell;
use limits::Cost;
use subset::Subset;

// The cell of site v and the set w.
pub fn cell_in(cells: &[Cost], n: u32, k: u32, v: u32, w: u32) -> CellAnswer
    ensures { stated_cell result ≡ cell_answer cells.now n k v w }
{
    if !in_range(n, k) {
        return Err(Refusal::Sheet(SheetFault::BadHead(0)));
    }
    let sets = sets_for(k);
    if !is_long(cells.len(), n, sets) {
        return Err(Refusal::Tables(TableFault::ShortTables));
    }
    if n <= v {
        return Err(Refusal::Sheet(SheetFault::NoSuchSite(0)));
    }
    if sets <= w {
        return Err(Refusal::Sheet(SheetFault::NoSuchStation(0)));
    }
    let cost = cell(cells, k as u8, v as u16, Subset(w as u16));
    Ok(u64::from(cost))
}
