// The enquirer over a finished cost table (document 01, "The cost table"): it keeps the table itself, with n and k beside it. It gives the cell
// for a site and a subset, and, lent the landing sets too, the best sender of a subset. Its methods take it apart; `cell` and `best_sender` are
// for callers who have the table and the numbers. Any numbers may be asked, with any table. Nothing is written.
#![tactic(auto)]

ghost use Rattle.std.specs.Prelude.{◌≡◌};
ghost use Rattle.answer.specs.Stated.{stated_cell, stated_sender};
ghost use Rattle.questions.specs.Questions.{cell_answer, sender_answer};

use answer::{CellAnswer, SenderAnswer};
use limits::Cost;
use questions::cell_question::cell_in;
use questions::sender_question::best_sender_in;

// A finished cost table for n sites and k stations.
#[derive(Clone, Copy)]
pub struct Enquirer<'a> {
    pub cells: &'a [Cost],
    pub n: u32,
    pub k: u32,
}

impl<'a> Enquirer<'a> {
    // The enquirer over these cells.
    pub fn new(cells: &'a [Cost], n: u32, k: u32) -> Enquirer<'a>
        ensures { (result.cells ≡ cells.entry) × (result.n ≡ n) × (result.k ≡ k) }
    {
        Enquirer { cells, n, k }
    }

    // The cell for site v and the subset w.
    pub fn cell(self, v: u32, w: u32) -> CellAnswer
        ensures { stated_cell result ≡ cell_answer self.entry.cells.now self.entry.n self.entry.k v w }
    {
        cell_in(self.cells, self.n, self.k, v, w)
    }

    // The best sender of the subset w, by these landing sets.
    pub fn best_sender(self, landings: &'a [u16], w: u32) -> SenderAnswer
        ensures { stated_sender result ≡ sender_answer self.entry.cells.now landings.now self.entry.n self.entry.k w }
    {
        best_sender_in(self.cells, landings, self.n, self.k, w)
    }
}

// The cell for site v and the subset w, of a table for n sites and k stations.
pub fn cell(cells: &[Cost], n: u32, k: u32, v: u32, w: u32) -> CellAnswer
    ensures { stated_cell result ≡ cell_answer cells.now n k v w }
{
    Enquirer::new(cells, n, k).cell(v, w)
}

// The best sender of the subset w, of a table for n sites and k stations, by these landing sets.
pub fn best_sender<'a>(
    cells: &'a [Cost],
    landings: &'a [u16],
    n: u32,
    k: u32,
    w: u32,
) -> SenderAnswer
    ensures { stated_sender result ≡ sender_answer cells.now landings.now n k w }
{
    Enquirer::new(cells, n, k).best_sender(landings, w)
}
