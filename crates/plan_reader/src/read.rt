// The plan reader: the sheet is opened, and the file is read against the tables that hold it.
ghost use Rattle.std.specs.Prelude.{◌≡◌};
ghost use Rattle.answer.specs.Stated.{stated};
ghost use Rattle.lent_tables.specs.SheetTables.{sheet_tables};
ghost use Rattle.mission.specs.Runs.{reader_tables, run};
ghost use Rattle.mission.specs.PointOne.{ReaderAnswers};
ghost use Rattle.mission.specs.PointTwo.{AcceptsPlans};
ghost use Rattle.plan_reader.specs.Reader.{reading_of};

use answer::Answer;
use file_reader::read_file;
use lent_tables::FurtherLengths;
use loaded_sheet::LoadedSheet;
use opener::open_sheet;

// The plan reader.
pub fn read_plan(
    sheet: &[u8],
    file: &[u8],
    starts: &mut [u16],
    ends: &mut [u16],
    weights: &mut [u32],
    landings: &mut [u16],
    marks: &mut [u8],
) -> Answer
    ensures { let before = reader_tables (sheet_tables starts.old ends.old weights.old landings.old)
        marks.old in
        let after = reader_tables (sheet_tables starts.new ends.new weights.new landings.new)
        marks.new in
        ((run (stated result) after ≡ reading_of sheet.now file.now before)
        × (AcceptsPlans sheet.now file.now before (stated result)
        × ReaderAnswers sheet.now file.now before (stated result) after)) }
{
    let further = FurtherLengths::of_marks(marks.len());
    let counts = open_sheet(sheet, starts, ends, weights, landings, further)?;
    let loaded = LoadedSheet {
        counts,
        starts,
        ends,
        weights,
        landings,
    };
    read_file(file, loaded, marks)
}
