// What a loading of a sheet gave, as text on standard output: the verdict, the legs, the stations of each site, and which sites are senders.
// Every line ends in a line feed. Where a table is shorter than the counts say, only what it holds is written.
#![tactic(auto)]

use answer::{Refusal, code_of};
use landing_entries::{is_sender, terminals_in};
use limits::Counts;
use std::io;

// The counts of a good sheet.
fn print_counts(rt: &impl Print, counts: Counts) -> io::Result<()> {
    let Counts { n, k, arcs } = counts;
    println!(rt; "good sites {n} stations {k} legs {arcs}")
}

// The number and the place of a refusal.
fn print_refusal(rt: &impl Print, refusal: Refusal) -> io::Result<()> {
    let code = code_of(refusal);
    let number = code.number;
    let place = code.place;
    println!(rt; "refused {number} at {place}")
}

fn print_arc(rt: &impl Print, i: usize, start: u16, end: u16, weight: u32) -> io::Result<()> {
    println!(rt; "leg {i} from {start} to {end} price {weight}")
}

fn print_landing(rt: &impl Print, v: usize, entry: u16) -> io::Result<()> {
    let terminals = terminals_in(entry).0;
    let sender = if is_sender(entry) { " sender" } else { "" };
    println!(rt; "site {v} stations {terminals}{sender}")
}

// The legs 0 to arcs - 1 that the tables hold.
fn print_arcs(
    rt: &impl Print,
    arcs: u16,
    starts: &[u16],
    ends: &[u16],
    weights: &[u32],
) -> io::Result<()> {
    let links = starts.iter().zip(ends).zip(weights);
    for (i, ((start, end), weight)) in links.take(usize::from(arcs)).enumerate() {
        print_arc(rt, i, *start, *end, *weight)?;
    }
    Ok(())
}

// What the table says of the sites 0 to n - 1.
fn print_landings(rt: &impl Print, n: u16, landings: &[u16]) -> io::Result<()> {
    for (v, entry) in landings.iter().take(usize::from(n)).enumerate() {
        print_landing(rt, v, *entry)?;
    }
    Ok(())
}

// A line for the counts of a good sheet, for each leg and for each site; or one for the number and the place of the refusal.
pub fn print_loaded(
    rt: &impl Print,
    loaded: Result<Counts, Refusal>,
    starts: &[u16],
    ends: &[u16],
    weights: &[u32],
    landings: &[u16],
) -> io::Result<()> {
    match loaded {
        Ok(counts) => {
            print_counts(rt, counts)?;
            print_arcs(rt, counts.arcs, starts, ends, weights)?;
            print_landings(rt, counts.n, landings)
        }
        Err(refusal) => print_refusal(rt, refusal),
    }
}
