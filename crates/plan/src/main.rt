// The desk program: it reads a sheet from standard input, one byte more than a sheet may have at most, and writes its plan or its refusal to
// standard output. Where that fails it says so on standard error. Its stored run is sheet A.
#![tactic(auto)]

use desk::{MAX_BYTES, TEXT_BYTES, desk_text};
use read_input::read_full;

fn main(rt: HostRuntime) {
    let mut input = [0u8; MAX_BYTES + 1];
    let size = read_full(&mut rt.stdin(), &mut input);
    let mut text = [0u8; TEXT_BYTES];
    let end = desk_text(&input[..size], &mut text);
    if rt.write_all(&text[..end]).is_err() {
        let _ = eprintln!(rt; "the text could not be written");
    }
}
