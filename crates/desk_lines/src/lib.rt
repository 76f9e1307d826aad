// The lines of the desk program's text (document 01, "The desk program and worked sheets"), stored in a lent text: a refusal, the first line of a
// listing, and the line of a leg.
#![tactic(auto)]

ghost use Rattle.std.specs.Prelude.{◌+◌, ◌^◌, ◌<◌, ◌≤◌};
ghost use Rattle.desk_words.specs.Stored.{Stored};
ghost use Rattle.desk_lines.specs.Lines.{refusal_line, first_line, arc_line};

use desk_words::{put_field, put_word};

// A refusal.
pub fn put_refusal(text: &mut [u8], number: u64, place: u64) -> usize
    ensures stored { Stored (refusal_line number place) 0 result text.old text.new }
    ensures upper_bound { result ≤ 53 }
{
    let after_number = put_field(text, 0, b"refused ", number);
    let after_place = put_field(text, after_number, b" at ", place);
    put_word(text, after_place, b"\n")
}

// The first line of a listing.
pub fn put_first(text: &mut [u8], root: u64, total: u64, arcs: u64) -> usize
    ensures stored { Stored (first_line root total arcs) 0 result text.old text.new }
    ensures upper_bound { result ≤ 79 }
{
    let after_root = put_field(text, 0, b"root ", root);
    let after_total = put_field(text, after_root, b" total ", total);
    let after_arcs = put_field(text, after_total, b" legs ", arcs);
    put_word(text, after_arcs, b"\n")
}

// The line of a leg.
pub fn put_arc(text: &mut [u8], at: usize, arc: u64, start: u64, end: u64, weight: u64) -> usize
    requires { at + 102 < 2 ^ 64 }
    ensures stored { Stored (arc_line arc start end weight) at result text.old text.new }
    ensures upper_bound { result ≤ at + 102 }
{
    let after_arc = put_field(text, at, b"leg ", arc);
    let after_start = put_field(text, after_arc, b" from ", start);
    let after_end = put_field(text, after_start, b" to ", end);
    let after_weight = put_field(text, after_end, b" price ", weight);
    put_word(text, after_weight, b"\n")
}
