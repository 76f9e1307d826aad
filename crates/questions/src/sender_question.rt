// The best sender of a subset, on the cells, the landing sets and the numbers: 3, 11, 5, place 0, then the lowest of the cheapest senders, where its
// cell is finite.
ghost use Rattle.std.specs.Prelude.{◌≡◌};
ghost use Rattle.answer.specs.Stated.{stated_sender};
ghost use Rattle.questions.specs.Questions.{sender_answer};

use crate::ranges::{in_range, is_long, sets_for};
use answer::{Refusal, SenderAnswer, SheetFault, TableFault};
use cost_table::cheapest::{cheapest_sender, sender_cell};
use limits::Cost;
use subset::Subset;

// The lowest of the senders whose cell of the set w is least, where that is finite, or none.
pub fn best_sender_in<'a>(
    cells: &'a [Cost],
    landings: &'a [u16],
    n: u32,
    k: u32,
    w: u32,
) -> SenderAnswer
    ensures { stated_sender result ≡ sender_answer cells.now landings.now n k w }
{
    if !in_range(n, k) {
        return Err(Refusal::Sheet(SheetFault::BadHead(0)));
    }
    let sets = sets_for(k);
    if !is_long(cells.len(), n, sets) {
        return Err(Refusal::Tables(TableFault::ShortTables));
    }
    if landings.len() < (n as usize) {
        return Err(Refusal::Tables(TableFault::ShortTables));
    }
    if sets <= w {
        return Err(Refusal::Sheet(SheetFault::NoSuchStation(0)));
    }
    let set = Subset(w as u16);
    let nodes = n as u16;
    let terminals = k as u8;
    let node = cheapest_sender(cells, landings, nodes, terminals, set);
    if sender_cell(cells, landings, nodes, terminals, node, set) < limits::NO_COST {
        return Ok(Some(node));
    }
    Ok(None)
}
