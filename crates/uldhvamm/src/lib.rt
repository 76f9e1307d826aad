// The library for other languages: the number of its interface, and the entry points as C functions. A slice passes as a pointer and a length. Each
// entry point returns 0 for a plan, an acceptance, shares or an answer of the enquirer, else the number of the refusal, and writes what the
// answer states into `answer`, as far as it has entries.
#![tactic(auto)]

ghost use Rattle.std.specs.Prelude.{◌≡◌};
ghost use Rattle.lent_tables.specs.SheetTables.{sheet_tables};
ghost use Rattle.lent_tables.specs.IndexTables.{index_tables};
ghost use Rattle.mission.specs.Runs.{engine_tables, reader_tables};
ghost use Rattle.engine.specs.Engine.{planning_of};
ghost use Rattle.questions.specs.Questions.{cell_answer, sender_answer};
ghost use Rattle.plan_reader.specs.Reader.{reading_of};
ghost use Rattle.shares.specs.SharesOf.{share_tables, sharing_of};
ghost use Rattle.c_values.specs.Values.{Gives};
ghost use Rattle.uldhvamm.specs.Interface.{interface};
ghost use Rattle.uldhvamm.specs.Returned.{call, call_of};

use c_values::give;
use engine::planning::plan_sheet;
use enquirer::{best_sender, cell};
use limits::Cost;
use plan_reader::read::read_plan;
use shares::share_plan;

// The number of the interface: one more where a landing changes the parameters, the widths or the values of a function that stood before.
const INTERFACE: u32 = 3;

// The interface of this library. A caller that was built for another must not call the functions below.
#[unsafe(no_mangle)]
pub extern "C" fn uldhvamm_interface() -> u32
    ensures { result ≡ interface }
{
    INTERFACE
}

// The engine.
#[unsafe(no_mangle)]
pub extern "C" fn uldhvamm_plan(
    sheet: &[u8],
    starts: &mut [u16],
    ends: &mut [u16],
    prices: &mut [u32],
    landings: &mut [u16],
    by_end: &mut [u16],
    places: &mut [u16],
    cells: &mut [Cost],
    marks: &mut [u8],
    plan: &mut [u8],
    answer: &mut [u64],
) -> u32
    ensures { let before = engine_tables (sheet_tables starts.old ends.old prices.old landings.old)
        (index_tables by_end.old places.old) cells.old marks.old plan.old in
        let after = engine_tables (sheet_tables starts.new ends.new prices.new landings.new)
        (index_tables by_end.new places.new) cells.new marks.new plan.new in
        call result answer.new after ≡ call_of (planning_of sheet.now before) answer.old }
{
    let sent = plan_sheet(
        sheet, starts, ends, prices, landings, by_end, places, cells, marks, plan,
    );
    give(sent, answer)
}

// The plan reader.
#[unsafe(no_mangle)]
pub extern "C" fn uldhvamm_read_plan(
    sheet: &[u8],
    file: &[u8],
    starts: &mut [u16],
    ends: &mut [u16],
    prices: &mut [u32],
    landings: &mut [u16],
    marks: &mut [u8],
    answer: &mut [u64],
) -> u32
    ensures { let before = reader_tables (sheet_tables starts.old ends.old prices.old landings.old)
        marks.old in
        let after = reader_tables (sheet_tables starts.new ends.new prices.new landings.new)
        marks.new in
        call result answer.new after ≡ call_of (reading_of sheet.now file.now before) answer.old }
{
    let sent = read_plan(sheet, file, starts, ends, prices, landings, marks);
    give(sent, answer)
}

// The shares of the stations in a plan.
#[unsafe(no_mangle)]
pub extern "C" fn uldhvamm_shares(
    sheet: &[u8],
    file: &[u8],
    starts: &mut [u16],
    ends: &mut [u16],
    prices: &mut [u32],
    landings: &mut [u16],
    marks: &mut [u8],
    shares: &mut [Cost],
    answer: &mut [u64],
) -> u32
    ensures { let before = share_tables (reader_tables (sheet_tables starts.old ends.old prices.old landings.old)
        marks.old) shares.old in
        let after = share_tables (reader_tables (sheet_tables starts.new ends.new prices.new landings.new)
        marks.new) shares.new in
        call result answer.new after ≡ call_of (sharing_of sheet.now file.now before) answer.old }
{
    let sent = share_plan(sheet, file, starts, ends, prices, landings, marks, shares);
    give(sent, answer)
}

// The enquirer: the cell for a site and a subset.
#[unsafe(no_mangle)]
pub extern "C" fn uldhvamm_cell(
    cells: &[Cost],
    sites: u32,
    stations: u32,
    site: u32,
    subset: u32,
    answer: &mut [u64],
) -> u32
    ensures { Gives (cell_answer cells.now sites stations site subset) result answer.old answer.new }
{
    let sent = cell(cells, sites, stations, site, subset);
    give(sent, answer)
}

// The enquirer: the best sender of a subset, by the landing sets.
#[unsafe(no_mangle)]
pub extern "C" fn uldhvamm_best_sender<'a>(
    cells: &'a [Cost],
    landings: &'a [u16],
    sites: u32,
    stations: u32,
    subset: u32,
    answer: &mut [u64],
) -> u32
    ensures { Gives (sender_answer cells.now landings.now sites stations subset) result
        answer.old answer.new }
{
    let sent = best_sender(cells, landings, sites, stations, subset);
    give(sent, answer)
}
