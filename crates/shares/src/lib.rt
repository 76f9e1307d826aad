// The shares of the stations in a plan (document 02, W-204): a sheet, a plan file, the plan reader's tables and a share table go in; the file is
// accepted and its prices are divided, or the answer says what is wrong and where.
#![tactic(auto)]

ghost use Rattle.std.specs.Prelude.{◌≡◌};
ghost use Rattle.answer.specs.Stated.{stated_sharing};
ghost use Rattle.lent_tables.specs.SheetTables.{sheet_tables};
ghost use Rattle.mission.specs.Runs.{reader_tables, run};
ghost use Rattle.shares.specs.SharesOf.{share_tables, sharing_of};

use answer::Sharing;
use file_shares::share_file;
use lent_tables::FurtherLengths;
use limits::Cost;
use loaded_sheet::LoadedSheet;
use opener::open_sheet;

// The sheet is opened, and the file is read against the tables that hold it and divided.
pub fn share_plan(
    sheet: &[u8],
    file: &[u8],
    starts: &mut [u16],
    ends: &mut [u16],
    weights: &mut [u32],
    landings: &mut [u16],
    marks: &mut [u8],
    shares: &mut [Cost],
) -> Sharing
    ensures { let before = share_tables (reader_tables (sheet_tables starts.old ends.old weights.old landings.old)
        marks.old) shares.old in
        let after = share_tables (reader_tables (sheet_tables starts.new ends.new weights.new landings.new)
        marks.new) shares.new in
        run (stated_sharing result) after ≡ sharing_of sheet.now file.now before }
{
    let further = FurtherLengths::of_shares(marks.len(), shares.len());
    let counts = open_sheet(sheet, starts, ends, weights, landings, further)?;
    let loaded = LoadedSheet {
        counts,
        starts,
        ends,
        weights,
        landings,
    };
    share_file(file, loaded, marks, shares)
}
