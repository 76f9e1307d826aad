// A sheet from standard input, at most 262,144 bytes, loaded into tables for the limits of document 01.
// What the loading gave goes to standard output.
#![tactic(auto)]

use limits::{MAX_ARCS, MAX_NODES};
use opener::load_sheet;
use read_input::read_full;
use sheet_text::print_loaded;
use std::io;

const MAX_BYTES: usize = 262_144;

fn main(rt: HostRuntime) -> io::Result<()> {
    let mut bytes = [0u8; MAX_BYTES + 1];
    let size = read_full(&mut rt.stdin(), &mut bytes);
    if MAX_BYTES < size {
        return println!(rt; "too long");
    }
    let mut starts = [0u16; MAX_ARCS as usize];
    let mut ends = [0u16; MAX_ARCS as usize];
    let mut weights = [0u32; MAX_ARCS as usize];
    let mut landings = [0u16; MAX_NODES as usize];
    let loaded = load_sheet(
        &bytes[..size],
        &mut starts,
        &mut ends,
        &mut weights,
        &mut landings,
    );
    print_loaded(&rt, loaded, &starts, &ends, &weights, &landings)
}
