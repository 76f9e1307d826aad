// The head of a sheet: the reading state after it, or the refusal.
ghost use Rattle.std.specs.Prelude.{◌≡◌};
ghost use Rattle.sheet.specs.Verdict.{head_tests, opening_of};

use answer::SheetFault;
use number_fields::u16_at;
use reading::Reading;
use records::fields::{Head, head_fields};
use records::record::HEAD_SIZE;
use subset::Subset;

// The tests of the head's numbers.
fn head_state(n: u16, k: u8) -> Result<Reading, SheetFault>
    ensures { result ≡ head_tests n k }
{
    if n < limits::MIN_NODES {
        return Err(SheetFault::BadHead(0));
    }
    if limits::MAX_NODES < n {
        return Err(SheetFault::BadHead(0));
    }
    if k < limits::MIN_TERMINALS {
        return Err(SheetFault::BadHead(0));
    }
    if limits::MAX_TERMINALS < k {
        return Err(SheetFault::BadHead(0));
    }
    Ok(Reading {
        offset: HEAD_SIZE,
        n,
        k,
        arcs: 0,
        heard: Subset::EMPTY,
    })
}

// The head of a sheet.
pub fn begin(sheet: &[u8]) -> Result<Reading, SheetFault>
    ensures { result ≡ opening_of sheet.now }
{
    if sheet.len() < 2 {
        return Err(SheetFault::ShortSheet(0));
    }
    if u16_at(sheet, 0) != limits::MARK_HD {
        return Err(SheetFault::StrangeMark(0));
    }
    let Head { n, k } = head_fields(&sheet[2..]).ok_or(SheetFault::ShortSheet(0))?;
    head_state(n, k)
}
