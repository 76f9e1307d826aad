// What a record is found to be from the bytes after its mark: a record that passes its tests, the end of the sheet, or the refusal. Of the
// reading state each function takes what its record is tested against: `at`, the place of the mark; `n` sites, `k` stations; the legs so far.
#![tactic(auto)]

ghost use Rattle.std.specs.Prelude.{◌≡◌, ◌+◌, ◌≤◌, ◌<◌, ◌^◌, length};
ghost use Rattle.limits.specs.Limits.{max_terminals, max_arcs};
ghost use Rattle.records.specs.Records.{link_fields, landing_fields, sender_fields};
ghost use Rattle.records.specs.Arcs.{arcs_of};
ghost use Rattle.record_tests.specs.Tests.{link_tests, one_way_found, both_ways_found, landing_found, sender_found, end_found};

use answer::SheetFault;
use records::fields::{Landing, Link, landing_fields, link_fields, sender_fields};
use records::record::Record;
use subset::Subset;

// What stands next: a record that passes its tests, the end (none), or the refusal.
pub type Found = Result<Option<Record>, SheetFault>;

// The tests of a link, in their order; `count` is the number of its legs.
fn tested_link(
    at: usize,
    n: u16,
    arcs: u16,
    start: u16,
    end: u16,
    weight: u32,
    count: u16,
    item: Record,
) -> Found
    requires { (arcs ≤ max_arcs) × (count ≤ 2) × (count ≡ length (arcs_of item)) }
    ensures { result ≡ link_tests at n arcs start end weight item }
{
    if n <= start {
        return Err(SheetFault::NoSuchSite(at));
    }
    if n <= end {
        return Err(SheetFault::NoSuchSite(at));
    }
    if start == end {
        return Err(SheetFault::Loop(at));
    }
    if weight < limits::MIN_WEIGHT {
        return Err(SheetFault::BadPrice(at));
    }
    if limits::MAX_WEIGHT < weight {
        return Err(SheetFault::BadPrice(at));
    }
    if limits::MAX_ARCS < arcs + count {
        return Err(SheetFault::TooManyLegs(at));
    }
    Ok(Some(item))
}

// `LK`.
pub fn one_way(at: usize, n: u16, arcs: u16, fields: &[u8]) -> Found
    requires { arcs ≤ max_arcs }
    ensures { result ≡ one_way_found at n arcs (link_fields fields.now) }
{
    let Link { start, end, weight } = link_fields(fields).ok_or(SheetFault::ShortSheet(at))?;
    let record = Record::OneWay { start, end, weight };
    tested_link(at, n, arcs, start, end, weight, 1, record)
}

// `BK`.
pub fn both_ways(at: usize, n: u16, arcs: u16, fields: &[u8]) -> Found
    requires { arcs ≤ max_arcs }
    ensures { result ≡ both_ways_found at n arcs (link_fields fields.now) }
{
    let Link { start, end, weight } = link_fields(fields).ok_or(SheetFault::ShortSheet(at))?;
    let record = Record::BothWays { start, end, weight };
    tested_link(at, n, arcs, start, end, weight, 2, record)
}

// `ST`.
pub fn landing(at: usize, n: u16, k: u8, fields: &[u8]) -> Found
    ensures { result ≡ landing_found at n k (landing_fields fields.now) }
{
    let Landing { terminal, node } = landing_fields(fields).ok_or(SheetFault::ShortSheet(at))?;
    if k <= terminal {
        return Err(SheetFault::NoSuchStation(at));
    }
    if n <= node {
        return Err(SheetFault::NoSuchSite(at));
    }
    Ok(Some(Record::Landing { terminal, node }))
}

// `SR`.
pub fn sender(at: usize, n: u16, fields: &[u8]) -> Found
    ensures { result ≡ sender_found at n (sender_fields fields.now) }
{
    let node = sender_fields(fields).ok_or(SheetFault::ShortSheet(at))?;
    if n <= node {
        return Err(SheetFault::NoSuchSite(at));
    }
    Ok(Some(Record::Sender { node }))
}

// `ED`; `heard` are the stations heard so far.
pub fn end(at: usize, k: u8, heard: Subset, fields: &[u8]) -> Found
    requires { (k ≤ max_terminals) × (at + 2 < 2 ^ 64) }
    ensures { result ≡ end_found at k heard.0 (length fields.now) }
{
    if 0 < fields.len() {
        return Err(SheetFault::AfterTheEnd(at + 2));
    }
    if heard == Subset::full(k) {
        return Ok(None);
    }
    Err(SheetFault::Unheard(at))
}
