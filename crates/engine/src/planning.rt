// The planning entry point: the sheet is opened, and planned over the tables that hold it.
ghost use Rattle.std.specs.Prelude.{◌≡◌};
ghost use Rattle.answer.specs.Stated.{stated};
ghost use Rattle.lent_tables.specs.SheetTables.{sheet_tables};
ghost use Rattle.lent_tables.specs.IndexTables.{index_tables};
ghost use Rattle.mission.specs.Runs.{engine_tables, run};
ghost use Rattle.mission.specs.PointOne.{EngineAnswers};
ghost use Rattle.mission.specs.PointTwo.{EngineSound};
ghost use Rattle.mission.specs.PointThree.{EngineBest};
ghost use Rattle.plan_reader.specs.Reader.{reading_of};
ghost use Rattle.engine.specs.Engine.{planning_of};

use answer::Answer;
use held_plan::plan_held;
use lent_tables::FurtherLengths;
use limits::Cost;
use loaded_sheet::LoadedSheet;
use opener::open_sheet;

// The engine.
pub fn plan_sheet(
    sheet: &[u8],
    starts: &mut [u16],
    ends: &mut [u16],
    weights: &mut [u32],
    landings: &mut [u16],
    by_end: &mut [u16],
    places: &mut [u16],
    cells: &mut [Cost],
    marks: &mut [u8],
    buffer: &mut [u8],
) -> Answer
    ensures { let before = engine_tables (sheet_tables starts.old ends.old weights.old landings.old)
        (index_tables by_end.old places.old) cells.old marks.old buffer.old in
        let after = engine_tables (sheet_tables starts.new ends.new weights.new landings.new)
        (index_tables by_end.new places.new) cells.new marks.new buffer.new in
        ((run (stated result) after ≡ planning_of sheet.now before)
        × (EngineAnswers sheet.now before (stated result) after
        × (EngineSound reading_of sheet.now before (stated result) after
        × EngineBest reading_of sheet.now before (stated result)))) }
{
    let further = FurtherLengths::of_search(by_end.len(), places.len(), cells.len(), marks.len());
    let counts = open_sheet(sheet, starts, ends, weights, landings, further)?;
    let loaded = LoadedSheet {
        counts,
        starts,
        ends,
        weights,
        landings,
    };
    plan_held(loaded, by_end, places, cells, marks, buffer)
}
