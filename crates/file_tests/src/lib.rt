// The tests of a plan file by itself, for a sheet with n sites and so many legs: refusals 14, 15 and 16.
#![tactic(auto)]

ghost use Rattle.std.specs.Prelude.{◌≡◌, ◌+◌, ◌≤◌, ◌<◌, length};
ghost use Rattle.planfile.specs.Format.{file_size, count_in};
ghost use Rattle.file_tests.specs.FileFaults.{arc_fault, arcs_fault};
ghost use Rattle.file_tests.specs.Tested.{head_of, opened_of, tested_as};

use answer::PlanFault;
use number_fields::u16_at;
use planfile::fields::{HEAD_SIZE, arc_at, count_in, file_size, mark_at, root_in, total_in};

// The numbers that stand in a file's head: root, total and leg count.
#[derive(Clone, Copy)]
pub struct Head {
    pub root: u16,
    pub total: u32,
    pub count: u16,
}

// The head, and the length that it asks for.
fn open_head(file: &[u8], n: u16) -> Result<Head, PlanFault>
    ensures { result ≡ head_of n file.now }
{
    if file.len() < HEAD_SIZE {
        return Err(PlanFault::CutPlan);
    }
    if u16_at(file, 0) != limits::MARK_PN {
        return Err(PlanFault::BadPlan(0));
    }
    let root = root_in(file);
    if n <= root {
        return Err(PlanFault::UnknownNumber(0));
    }
    let count = count_in(file);
    let size = file_size(count);
    if file.len() < size {
        return Err(PlanFault::CutPlan);
    }
    if size < file.len() {
        return Err(PlanFault::BadPlan(size));
    }
    Ok(Head {
        root,
        total: total_in(file),
        count,
    })
}

// Record i: its mark and its number.
fn test_arc(file: &[u8], i: u16, arcs: u16) -> Result<(), PlanFault>
    requires { file_size (i + 1) ≤ length file.now }
    ensures { result ≡ tested_as (arc_fault arcs file.now i) }
{
    let at = i as usize;
    if mark_at(file, at) != limits::MARK_LG {
        return Err(PlanFault::BadPlan(file_size(i)));
    }
    if arcs <= arc_at(file, at) {
        return Err(PlanFault::UnknownNumber(file_size(i)));
    }
    Ok(())
}

// Record after record; the first fault decides.
fn test_arcs(file: &[u8], count: u16, arcs: u16) -> Result<(), PlanFault>
    requires { (count ≡ count_in file.now) × (file_size count ≤ length file.now) }
    ensures { result ≡ tested_as (arcs_fault arcs file.now) }
{
    for i in 0..count {
        test_arc(file, i, arcs)?;
    }
    Ok(())
}

// The whole file.
pub fn open_file(file: &[u8], n: u16, arcs: u16) -> Result<Head, PlanFault>
    ensures { result ≡ opened_of n arcs file.now }
{
    let head = open_head(file, n)?;
    test_arcs(file, head.count, arcs)?;
    Ok(head)
}
