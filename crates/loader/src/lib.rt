// The loading of a good sheet into the lent tables: leg starts, leg ends, leg prices, landing sets.
#![tactic(auto)]

mod good_sheet;

ghost use Rattle.std.specs.Prelude.{◌≡◌};
ghost use Rattle.lent_tables.specs.SheetTables.{sheet_tables};
ghost use Rattle.records.specs.Records.{head_size};
ghost use Rattle.sheet.specs.Verdict.{verdict};
ghost use Rattle.loader.specs.LoadedBy.{loaded_by};
ghost use Rattle.loader.specs.laws.Loading.{Loadable, Loading, read_by};

use crate::good_sheet::first_record;
use landing_entries::flags::flag_unless_some;
use record_tables::{clear_landings, put_record};
use records::record::{END_SIZE, HEAD_SIZE};

// Record after record: the legs in order, the stations of each site, and the flags of the named sites. The records are read without a test, since
// the sheet is good.
fn load_records(
    sheet: &[u8],
    starts: &mut [u16],
    ends: &mut [u16],
    weights: &mut [u32],
    landings: &mut [u16],
)
    requires { let t = sheet_tables starts.old ends.old weights.old landings.old in Loading sheet.now t head_size 0 t }
    ensures { let before = sheet_tables starts.old ends.old weights.old landings.old in
        let after = sheet_tables starts.new ends.new weights.new landings.new in
        after ≡ read_by (verdict sheet.now) before }
{
    let end = sheet.len() - END_SIZE;
    let mut at: usize = HEAD_SIZE;
    let mut arcs: u16 = 0;
    // Not a `for`: how many bytes a record takes is known when it is read.
    while at < end {
        let item = first_record(&sheet[at..]);
        put_record(item, arcs, starts, ends, weights, landings);
        at += item.size();
        arcs += item.arc_count();
    }
}

// The tables of a good sheet with n sites, where they are long enough: a sheet without `SR` makes every site a sender.
pub fn load(
    sheet: &[u8],
    n: u16,
    starts: &mut [u16],
    ends: &mut [u16],
    weights: &mut [u32],
    landings: &mut [u16],
)
    requires { let t = sheet_tables starts.old ends.old weights.old landings.old in Loadable sheet.now n t }
    ensures { let before = sheet_tables starts.old ends.old weights.old landings.old in
        let after = sheet_tables starts.new ends.new weights.new landings.new in
        after ≡ loaded_by (verdict sheet.now) before }
{
    clear_landings(landings, n as usize);
    load_records(sheet, starts, ends, weights, landings);
    flag_unless_some(landings, n as usize);
}
