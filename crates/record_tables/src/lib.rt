// One record into the lent tables, leg starts, leg ends, leg prices and landing sets, and the landing entries before the first record.
#![tactic(auto)]

ghost use Rattle.std.specs.Prelude.{◌≡◌, ◌++◌, ◌+◌, ◌≤◌, ◌<◌, length, get_or, drop, set, replicate};
ghost use Rattle.subset.specs.Sets.{union};
ghost use Rattle.lent_tables.specs.SheetTables.{sheet_tables};
ghost use Rattle.record_tables.specs.laws.Writing.{Fits, with_record};

use records::record::Record;
use subset::Subset;

// Leg i.
fn put_arc(
    starts: &mut [u16],
    ends: &mut [u16],
    weights: &mut [u32],
    i: usize,
    start: u16,
    end: u16,
    weight: u32,
)
    requires { (i < length starts.old) × (i < length ends.old) × (i < length weights.old) }
    ensures starts_after { starts.new ≡ set starts.old i start }
    ensures ends_after { ends.new ≡ set ends.old i end }
    ensures weights_after { weights.new ≡ set weights.old i weight }
{
    starts[i] = start;
    ends[i] = end;
    weights[i] = weight;
}

// Legs i and i + 1: from start to end, then from end to start.
fn put_both(
    starts: &mut [u16],
    ends: &mut [u16],
    weights: &mut [u32],
    i: usize,
    start: u16,
    end: u16,
    weight: u32,
)
    requires { (i + 1 < length starts.old) × (i + 1 < length ends.old) × (i + 1 < length weights.old) }
    ensures starts_after { starts.new ≡ set (set starts.old i start) (i + 1) end }
    ensures ends_after { ends.new ≡ set (set ends.old i end) (i + 1) start }
    ensures weights_after { weights.new ≡ set (set weights.old i weight) (i + 1) weight }
{
    put_arc(starts, ends, weights, i, start, end, weight);
    put_arc(starts, ends, weights, i + 1, end, start, weight);
}

// A station, or the flag of a sender, joins the site's landing entry.
fn join_entry(landings: &mut [u16], node: u16, more: u16)
    requires { node < length landings.old }
    ensures { landings.new ≡ set landings.old node (union (get_or landings.old node 0) more) }
{
    let v = node as usize;
    landings[v] |= more;
}

// One record, where `at` legs stand in the tables. The tables are lent one by one: of a struct that holds them each contract would also say that every
// table stays the one that was lent.
pub fn put_record(
    item: Record,
    at: u16,
    starts: &mut [u16],
    ends: &mut [u16],
    weights: &mut [u32],
    landings: &mut [u16],
)
    requires { let t = sheet_tables starts.old ends.old weights.old landings.old in Fits at item t }
    ensures { let before = sheet_tables starts.old ends.old weights.old landings.old in
        let after = sheet_tables starts.new ends.new weights.new landings.new in
        after ≡ with_record at item before }
{
    let i = at as usize;
    match item {
        Record::OneWay { start, end, weight } => {
            put_arc(starts, ends, weights, i, start, end, weight);
        }
        Record::BothWays { start, end, weight } => {
            put_both(starts, ends, weights, i, start, end, weight);
        }
        Record::Landing { terminal, node } => {
            let alone = Subset::single(terminal);
            join_entry(landings, node, alone.0);
        }
        Record::Sender { node } => {
            join_entry(landings, node, limits::SENDER_FLAG);
        }
    }
}

// The first n landing entries are empty.
pub fn clear_landings(landings: &mut [u16], n: usize)
    requires { n ≤ length landings.old }
    ensures { landings.new ≡ replicate n 0 ++ drop n landings.old }
{
    landings[..n].fill(0);
}
