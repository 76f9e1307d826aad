// Reading goes record by record: the reading state goes in, and comes back one record further.
#![tactic(auto)]

ghost use Rattle.std.specs.Prelude.{◌≡◌, ◌+◌, ◌≤◌, ◌<◌, ◌^◌, length};
ghost use Rattle.limits.specs.Limits.{max_terminals, max_arcs};
ghost use Rattle.reading.specs.Steps.{found_in, after, step_of};
ghost use Rattle.reading.specs.laws.Room.{Room};

use answer::SheetFault;
use number_fields::u16_at;
use record_tests::{Found, both_ways, end, landing, one_way, sender};
use records::record::Record;
use subset::Subset;

// Where the reading stands: the offset of the next record, sites and stations of the head, and the legs and heard stations so far.
#[derive(Clone, Copy)]
pub struct Reading {
    pub offset: usize,
    pub n: u16,
    pub k: u8,
    pub arcs: u16,
    pub heard: Subset,
}

impl Reading {
    // What stands next, where `rest` is the sheet from the offset on. The fields after the mark are a part of their own.
    fn found(self, rest: &[u8]) -> Found
        requires { (self.arcs ≤ max_arcs) × (self.k ≤ max_terminals) × (self.offset + length rest.now < 2 ^ 64) }
        ensures { result ≡ found_in self rest.now }
    {
        if rest.len() < 2 {
            return Err(SheetFault::ShortSheet(self.offset));
        }
        let fields = &rest[2..];
        match u16_at(rest, 0) {
            limits::MARK_LK => one_way(self.offset, self.n, self.arcs, fields),
            limits::MARK_BK => both_ways(self.offset, self.n, self.arcs, fields),
            limits::MARK_ST => landing(self.offset, self.n, self.k, fields),
            limits::MARK_SR => sender(self.offset, self.n, fields),
            limits::MARK_ED => end(self.offset, self.k, self.heard, fields),
            _ => Err(SheetFault::StrangeMark(self.offset)),
        }
    }

    // The state after a record.
    fn after(self, item: Record) -> Reading
        requires { Room self item }
        ensures { result ≡ after self item }
    {
        Reading {
            offset: self.offset + item.size(),
            arcs: self.arcs + item.arc_count(),
            heard: self.heard.union(item.heard()),
            ..self
        }
    }

    // One record: the state one record further, the end (none), or the refusal.
    pub fn step(self, sheet: &[u8]) -> Result<Option<Reading>, SheetFault>
        requires { (self.arcs ≤ max_arcs) × (self.k ≤ max_terminals) × (self.offset ≤ length sheet.now) }
        ensures { result ≡ step_of self sheet.now }
    {
        match self.found(&sheet[self.offset..])? {
            Some(record) => Ok(Some(self.after(record))),
            None => Ok(None),
        }
    }
}
