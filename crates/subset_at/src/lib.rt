// The subset at each position of the order (document 01, "Subsets"): by size, then by number. It is worked out from how many subsets of each size there
// are, and how many of them have a given highest station.
#![tactic(auto)]

pub mod sizes;

ghost use Rattle.std.specs.Prelude.{◌≡◌, ◌+◌, ◌<◌};
ghost use Rattle.limits.specs.Limits.{max_subsets};
ghost use Rattle.order.specs.Order.{in_order};
ghost use Rattle.subset_at.specs.laws.Choices.{Open, wanted};

use crate::sizes::size_range;
use limits::MAX_TERMINALS;
use subset::Subset;

// The stations of a subset, chosen from the highest one on. Of the lowest `stations` it has `size` more: there are `count` ways to choose them, and
// `before` of these stand before the way that is looked for. `chosen` is the set of those above.
#[derive(Clone, Copy)]
struct Choice {
    stations: u16,
    size: u16,
    count: u16,
    before: u16,
    chosen: u16,
}

impl Choice {
    // Station `stations - 1` is chosen or not: the ways without it stand first.
    fn next(self) -> Choice
        requires { Open self × (wanted self < max_subsets) × (0 < self.stations) }
        ensures { Open result × (wanted result ≡ wanted self) × (result.stations + 1 ≡ self.stations) }
    {
        let highest = self.stations - 1;
        let with = self.count * self.size / self.stations;
        let without = self.count - with;
        if self.before < without {
            return Choice {
                stations: highest,
                count: without,
                ..self
            };
        }
        Choice {
            stations: highest,
            size: self.size - 1,
            count: with,
            before: self.before - without,
            chosen: self.chosen + Subset::single(highest as u8).0,
        }
    }
}

// The subset at a position.
pub fn at(position: u16) -> Subset
    requires { position < max_subsets }
    ensures { result.0 ≡ in_order position }
{
    let range = size_range(MAX_TERMINALS, position);
    let mut choice = Choice {
        stations: MAX_TERMINALS as u16,
        size: range.size,
        count: range.last - range.first,
        before: position - range.first,
        chosen: 0,
    };
    for passed in 0..MAX_TERMINALS {
        choice = choice.next();
    }
    Subset(choice.chosen)
}
