// What both questions are tested with: whether n and k are in range (3), the number of subsets (5), and whether the table is long enough (11).
ghost use Rattle.std.specs.Prelude.{◌≡◌, ◌*◌, ◌^◌, ◌≤◌, leb};
ghost use Rattle.limits.specs.Limits.{max_nodes, max_terminals, max_subsets};
ghost use Rattle.questions.specs.Questions.{in_range};

use subset::sets_of;

// Whether a sheet may have n sites and k stations.
pub fn in_range(n: u32, k: u32) -> bool
    ensures { result ≡ in_range n k }
{
    u32::from(limits::MIN_NODES) <= n
        && n <= u32::from(limits::MAX_NODES)
        && u32::from(limits::MIN_TERMINALS) <= k
        && k <= u32::from(limits::MAX_TERMINALS)
}

// The number of subsets of k stations.
pub fn sets_for(k: u32) -> u32
    requires { k ≤ max_terminals }
    ensures { result ≡ 2 ^ k }
{
    sets_of(k as u8) as u32
}

// Whether so many cells are enough for n sites with so many subsets.
pub fn is_long(cells: usize, n: u32, sets: u32) -> bool
    requires { (n ≤ max_nodes) × (sets ≤ max_subsets) }
    ensures { result ≡ leb (n * sets) cells }
{
    (n as usize) * (sets as usize) <= cells
}
