// The tests of a file's root, legs and total against the sheet, where the sites that the legs reach are marked: refusals 17, 20, 18 and 19.
#![tactic(auto)]

ghost use Rattle.std.specs.Prelude.{◌≡◌, ◌≤◌, ◌<◌, cond, eqb, length};
ghost use Rattle.limits.specs.Limits.{max_terminals};
ghost use Rattle.subset.specs.Sets.{empty};
ghost use Rattle.landing_entries.specs.Entries.{terminals_in};
ghost use Rattle.answer.specs.Stated.{stated};
ghost use Rattle.plan_tests.specs.PlanFaults.{answered_as};
ghost use Rattle.plan_tests.specs.ByMarks.{ArcsBelow, marked_count, marked_terminals, weight_sum, judged_fault};

use answer::{Answer, Plan, PlanFault};
use landing_entries::{is_sender, terminals_in};
use planfile::fields::Listing;
use subset::Subset;

// How many sites are marked.
fn marked_count(marks: &[u8]) -> usize
    ensures { result ≡ marked_count marks.now }
{
    let mut count = 0;
    for mark in marks {
        count += usize::from(*mark == 1);
    }
    count
}

// The stations of a site's landing entry where the site is marked, else none.
fn terminals_if(mark: u8, entry: u16) -> Subset
    ensures { result.0 ≡ cond (eqb mark 1) (terminals_in entry) empty }
{
    if mark == 1 {
        return terminals_in(entry);
    }
    Subset::EMPTY
}

// The stations that have a landing at a marked site.
fn marked_terminals(marks: &[u8], landings: &[u16]) -> Subset
    requires { length marks.now ≤ length landings.now }
    ensures { result.0 ≡ marked_terminals marks.now landings.now }
{
    let mut terminals = Subset::EMPTY;
    for (v, mark) in marks.iter().enumerate() {
        terminals = terminals.union(terminals_if(*mark, landings[v]));
    }
    terminals
}

// The sum of the listed legs' prices.
fn weight_sum(listing: Listing, weights: &[u32]) -> u64
    requires { ArcsBelow listing.file.now listing.count (length weights.now) }
    ensures { let l = listing.entry in (result ≡ weight_sum l.file.now l.count weights.now) }
{
    let mut sum = 0u64;
    for i in 0..listing.count {
        sum += u64::from(weights[listing.arc(i)]);
    }
    sum
}

// 17, 20, 18 and 19, in this order. The legs are a tree exactly where they reach one site more than there are legs, and a tree holds the sites
// that it reaches.
pub fn test_plan(
    listing: Listing,
    root: u16,
    total: u32,
    k: u8,
    weights: &[u32],
    landings: &[u16],
    marks: &[u8],
) -> Answer
    requires { ArcsBelow listing.file.now listing.count (length weights.now)
        × (root < length marks.now) × (length marks.now ≤ length landings.now) × (k ≤ max_terminals) }
    ensures { let l = listing.entry in (stated result
        ≡ answered_as (judged_fault l.file.now root total l.count k weights.now landings.now marks.now)
        root total l.count) }
{
    if marked_count(marks) != usize::from(listing.count) + 1 {
        return Err(PlanFault::NoTree.into());
    }
    let node = root as usize;
    if !is_sender(landings[node]) {
        return Err(PlanFault::NotASender.into());
    }
    let held = marked_terminals(marks, landings);
    if !Subset::full(k).is_part_of(held) {
        return Err(PlanFault::StationMissed.into());
    }
    let total = u64::from(total);
    if total != weight_sum(listing, weights) {
        return Err(PlanFault::FalseTotal.into());
    }
    Ok(Plan {
        root,
        total,
        arcs: listing.count,
    })
}
