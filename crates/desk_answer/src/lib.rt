// The text of an answer of the engine: a plan as its first line and the line of each leg, or the line of a refusal.
#![tactic(auto)]

ghost use Rattle.std.specs.Prelude.{◌+◌, ◌*◌, ◌^◌, ◌<◌, ◌≤◌};
ghost use Rattle.lists.specs.Joined.{joined};
ghost use Rattle.answer.specs.Stated.{stated};
ghost use Rattle.planfile.specs.Format.{arcs_to};
ghost use Rattle.desk_words.specs.Stored.{Stored};
ghost use Rattle.desk_answer.specs.AnswerText.{line_of, answer_text, listed_legs, most_bytes};
ghost use Rattle.desk_answer.specs.Listable.{ArcsHeld, Listable};

use answer::{Answer, Plan, code_of};
use desk_lines::{put_arc, put_first, put_refusal};
use planfile::fields::arc_at;

// The lines of the first so many legs of a plan file, over the tables that hold the legs.
fn put_arcs(
    text: &mut [u8],
    at: usize,
    file: &[u8],
    count: u16,
    starts: &[u16],
    ends: &[u16],
    weights: &[u32],
) -> usize
    requires count_bound { at + 102 * count < 2 ^ 64 }
    requires arcs_held { ArcsHeld file.now count starts.now ends.now weights.now }
    ensures stored { Stored (joined (line_of starts.now ends.now weights.now) (arcs_to file.now count))
        at result text.old text.new }
    ensures upper_bound { result ≤ at + 102 * count }
{
    let mut next = at;
    for i in 0..count as usize {
        let e = arc_at(file, i) as usize;
        next = put_arc(
            text,
            next,
            e as u64,
            starts[e] as u64,
            ends[e] as u64,
            weights[e] as u64,
        );
    }
    next
}

// The text of an answer, over the tables and the plan buffer that it left.
pub fn put_answer(
    text: &mut [u8],
    sent: Answer,
    starts: &[u16],
    ends: &[u16],
    weights: &[u32],
    buffer: &[u8],
) -> usize
    requires { Listable (stated sent) starts.now ends.now weights.now buffer.now }
    ensures stored { Stored (answer_text (stated sent) starts.now ends.now weights.now buffer.now)
        0 result text.old text.new }
    ensures upper_bound { result ≤ most_bytes (listed_legs (stated sent)) }
{
    match sent {
        Ok(Plan { root, total, arcs }) => {
            let next = put_first(text, root as u64, total, arcs as u64);
            put_arcs(text, next, buffer, arcs, starts, ends, weights)
        }
        Err(refusal) => {
            let code = code_of(refusal);
            put_refusal(text, code.number as u64, code.place as u64)
        }
    }
}
