// The program that writes the order of the subsets: for each position a line with the position and the subset that stands there, as it is worked out.
// Its stored run has all 1,024 lines.
#![tactic(auto)]

use limits::MAX_SUBSETS;
use std::io;

fn print_line(rt: &impl Print, position: u16, subset: u16) -> io::Result<()> {
    println!(rt; "{position} {subset}")
}

fn main(rt: HostRuntime) -> io::Result<()> {
    for position in 0..MAX_SUBSETS {
        let subset = subset_at::at(position);
        print_line(&rt, position, subset.0)?;
    }
    Ok(())
}
