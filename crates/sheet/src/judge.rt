// The verdict on a whole sheet. No table is lent.
ghost use Rattle.std.specs.Prelude.{◌≡◌};
ghost use Rattle.sheet.specs.laws.Judged.{judged_of};
ghost use Rattle.sheet.specs.laws.Underway.{Underway};
ghost use Rattle.sheet.specs.Verdict.{verdict};

use crate::opening::begin;
use answer::SheetFault;
use limits::Counts;
use reading::Reading;

// Record after record, from a state that the reading has come to.
fn read_on(sheet: &[u8], first: Reading) -> Result<Counts, SheetFault>
    requires { Underway sheet.now first }
    ensures { result ≡ judged_of (verdict sheet.now) }
{
    let mut state = first;
    while let Some(next) = state.step(sheet)? {
        state = next;
    }
    Ok(Counts {
        n: state.n,
        k: state.k,
        arcs: state.arcs,
    })
}

// The verdict on a byte string: the counts of a good sheet, or the first refusal.
pub fn judge(sheet: &[u8]) -> Result<Counts, SheetFault>
    ensures { result ≡ judged_of (verdict sheet.now) }
{
    read_on(sheet, begin(sheet)?)
}
