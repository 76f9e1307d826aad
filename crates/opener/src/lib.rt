// The opening of a sheet, with which every entry point that takes one begins: the sheet is judged whole, then the lengths of all needed tables are
// tested, and only then are the tables that hold a sheet written.
#![tactic(auto)]

ghost use Rattle.std.specs.Prelude.{◌≡◌};
ghost use Rattle.lent_tables.specs.SheetTables.{sheet_tables};
ghost use Rattle.lent_tables.specs.Lengths.{no_further};
ghost use Rattle.opener.specs.Opening.{returned, outcome, loading_of};

use answer::{Refusal, TableFault};
use lent_tables::{FurtherLengths, long_enough};
use limits::Counts;
use loader::load;
use sheet::judge::judge;

// A sheet is opened: the counts of the sheet that the tables now hold, or the refusal, 1 to 11. `further` has the lengths of the further tables that
// are needed.
pub fn open_sheet(
    sheet: &[u8],
    starts: &mut [u16],
    ends: &mut [u16],
    weights: &mut [u32],
    landings: &mut [u16],
    further: FurtherLengths,
) -> Result<Counts, Refusal>
    ensures { let before = sheet_tables starts.old ends.old weights.old landings.old in
        let after = sheet_tables starts.new ends.new weights.new landings.new in
        outcome (returned result) after ≡ loading_of sheet.now before further }
{
    let counts = judge(sheet)?;
    if !long_enough(
        counts,
        starts.len(),
        ends.len(),
        weights.len(),
        landings.len(),
        further,
    ) {
        return Err(Refusal::from(TableFault::ShortTables));
    }
    load(sheet, counts.n, starts, ends, weights, landings);
    Ok(counts)
}

// The loading of a sheet alone: no further table is needed.
pub fn load_sheet(
    sheet: &[u8],
    starts: &mut [u16],
    ends: &mut [u16],
    weights: &mut [u32],
    landings: &mut [u16],
) -> Result<Counts, Refusal>
    ensures { let before = sheet_tables starts.old ends.old weights.old landings.old in
        let after = sheet_tables starts.new ends.new weights.new landings.new in
        outcome (returned result) after ≡ loading_of sheet.now before no_further }
{
    open_sheet(sheet, starts, ends, weights, landings, FurtherLengths::NONE)
}
