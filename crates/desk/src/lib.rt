// The text that the desk program (document 01, "The desk program and worked sheets") writes for an input: the sheet is planned with the desk's
// tables, and the answer is written as text.
#![tactic(auto)]

ghost use Rattle.std.specs.Prelude.{◌≡◌, ◌≤◌, length};
ghost use Rattle.lists.specs.Over.{fit_over};
ghost use Rattle.desk.specs.Text.{text_bytes, desk_text, sheet_text};
ghost use Rattle.desk_words.specs.Stored.{Stored};

use desk_answer::put_answer;
use desk_words::put_word;
use engine::planning::plan_sheet;
use limits::Cost;

// The longest input that is read as a sheet; the legs, sites, starting places and cells that there is room for; the plan file of a tree of so many
// sites; and a length that no text exceeds.
pub const MAX_BYTES: usize = 32768;

const ARCS: usize = 2048;

const NODES: usize = 64;

const PLACES: usize = NODES + 1;

const CELLS: usize = 8192;

const PLAN_BYTES: usize = 262;

pub const TEXT_BYTES: usize = 8192;

// The text of a sheet.
fn put_sheet(text: &mut [u8], sheet: &[u8]) -> usize
    ensures stored { Stored (sheet_text sheet.now) 0 result text.old text.new }
    ensures upper_bound { result ≤ text_bytes }
{
    let mut starts = [0u16; ARCS];
    let mut ends = [0u16; ARCS];
    let mut weights = [0u32; ARCS];
    let mut landings = [0u16; NODES];
    let mut by_end = [0u16; ARCS];
    let mut places = [0u16; PLACES];
    let mut cells: [Cost; CELLS] = [0; CELLS];
    let mut marks = [0u8; NODES];
    let mut buffer = [0u8; PLAN_BYTES];
    let sent = plan_sheet(
        sheet,
        &mut starts,
        &mut ends,
        &mut weights,
        &mut landings,
        &mut by_end,
        &mut places,
        &mut cells,
        &mut marks,
        &mut buffer,
    );
    put_answer(text, sent, &starts, &ends, &weights, &buffer)
}

// The text for an input. As much of it as `text` has room for is written from its first byte on, and no other byte; what is returned is the
// length of the whole text.
pub fn desk_text(input: &[u8], text: &mut [u8]) -> usize
    ensures { let whole = desk_text input.now in
        ((result ≡ length whole) × ((text.new ≡ fit_over whole text.old) × (result ≤ text_bytes))) }
{
    if MAX_BYTES < input.len() {
        return put_word(text, 0, b"too long\n");
    }
    put_sheet(text, input)
}
