// Prices split over stations (document 02, W-204): one price over a set of stations, and the prices of the listed legs one after the other.
#![tactic(auto)]

ghost use Rattle.std.specs.Prelude.{◌≡◌, ◌+◌, ◌^◌, ◌≤◌, ◌<◌, length, get_or};
ghost use Rattle.limits.specs.Limits.{max_terminals, no_cost};
ghost use Rattle.price_parts.specs.Splitting.{
  payer_part,
  part_in,
  PaidAt,
  RoomFor,
  SplitInto,
  ArcReady,
  ArcSplit,
  ListedReady,
  ListedSplit,
};

use limits::Cost;
use planfile::fields::Listing;
use subset::Subset;

// What a payer pays: the quotient, and one cent more where fewer payers than the remainder says are lower stations.
fn part(quotient: Cost, remainder: Cost, lower: Cost) -> Cost
    requires { payer_part quotient remainder lower ≤ no_cost }
    ensures { result ≡ payer_part quotient remainder lower }
{
    if lower < remainder {
        return quotient + 1;
    }
    quotient
}

// Station i pays its part, where it is one of the payers; `lower` of the lower stations are. How many payers there are up to it.
fn pay(
    payers: Subset,
    i: usize,
    quotient: Cost,
    remainder: Cost,
    lower: Cost,
    shares: &mut [Cost],
) -> Cost
    requires { (i < length shares.old) × (length shares.old ≤ max_terminals) × (lower ≤ i)
        × (get_or shares.old i 0 + part_in payers.0 quotient remainder lower i ≤ no_cost) }
    ensures { PaidAt payers.0 quotient remainder lower i shares.old shares.new result }
{
    if !payers.has(i as u8) {
        return lower;
    }
    shares[i] += part(quotient, remainder, lower);
    lower + 1
}

// One price, split over the payers: their parts are added to their shares. What nobody pays of it.
fn split_price(price: Cost, payers: Subset, shares: &mut [Cost]) -> Cost
    requires { (length shares.old ≤ max_terminals) × (payers.0 < 2 ^ length shares.old) × RoomFor price shares.old }
    ensures { SplitInto price payers.0 shares.old shares.new result }
{
    let m = payers.size() as Cost;
    if m == 0 {
        return price;
    }
    let quotient = price / m;
    let remainder = price % m;
    let mut lower = 0;
    for i in 0..shares.len() {
        lower = pay(payers, i, quotient, remainder, lower, shares);
    }
    0
}

// Leg e's price, split over the stations that `served` has for the leg's end. What nobody pays of it.
fn split_arc(e: usize, ends: &[u16], weights: &[u32], served: &[u16], shares: &mut [Cost]) -> Cost
    requires { ArcReady e ends.now weights.now served.now shares.old }
    ensures { ArcSplit e ends.now weights.now served.now shares.old shares.new result }
{
    let node = ends[e] as usize;
    let payers = Subset(served[node]);
    let price = weights[e] as Cost;
    split_price(price, payers, shares)
}

// The prices of the listed legs, each split over the stations that `served` has for the leg's end: the shares, one entry a station, whatever they
// held. What nobody pays.
pub fn split_listed(
    listing: Listing,
    ends: &[u16],
    weights: &[u32],
    served: &[u16],
    shares: &mut [Cost],
) -> Cost
    requires { ListedReady listing.file.now listing.count ends.now weights.now served.now (length shares.old) }
    ensures { let l = listing.entry in (ListedSplit l.file.now l.count ends.now weights.now served.now (length shares.old)
        shares.new result) }
{
    shares.fill(0);
    let mut unpaid = 0;
    for i in 0..listing.count {
        unpaid += split_arc(listing.arc(i), ends, weights, served, shares);
    }
    unpaid
}
