// The fields of a plan file: root, total, leg count, and the mark and the leg number of each record.
ghost use Rattle.std.specs.Prelude.{◌≡◌, ◌+◌, ◌≤◌, ◌<◌, T, length};
ghost use Rattle.lists.specs.Listed.{listed};
ghost use Rattle.planfile.specs.Format.{file_size, root_in, total_in, count_in, mark_at, listed_arc, arcs_to};

use number_fields::{u16_at, u32_at};

// The bytes of the head, and of a leg's record.
pub const HEAD_SIZE: usize = 10;

pub const ARC_SIZE: usize = 4;

// How many bytes a file with so many legs has.
pub fn file_size(count: u16) -> usize
    ensures { result ≡ file_size count }
{
    HEAD_SIZE + ARC_SIZE * (count as usize)
}

// The root.
pub fn root_in(file: &[u8]) -> u16
    requires { file_size 0 ≤ length file.now }
    ensures { result ≡ root_in file.now }
{
    u16_at(file, 2)
}

// The total.
pub fn total_in(file: &[u8]) -> u32
    requires { file_size 0 ≤ length file.now }
    ensures { result ≡ total_in file.now }
{
    u32_at(file, 4)
}

// The leg count.
pub fn count_in(file: &[u8]) -> u16
    requires { file_size 0 ≤ length file.now }
    ensures { result ≡ count_in file.now }
{
    u16_at(file, 8)
}

// The mark of record i.
pub fn mark_at(file: &[u8], i: usize) -> u16
    requires { file_size (i + 1) ≤ length file.now }
    ensures { result ≡ mark_at file.now i }
{
    u16_at(file, HEAD_SIZE + ARC_SIZE * i)
}

// The leg number of record i.
pub fn arc_at(file: &[u8], i: usize) -> u16
    requires { file_size (i + 1) ≤ length file.now }
    ensures { result ≡ listed_arc file.now i }
{
    u16_at(file, HEAD_SIZE + ARC_SIZE * i + 2)
}

// The legs that a file lists: it has at least so many records.
#[derive(Clone, Copy)]
pub struct Listing<'a> {
    pub file: &'a [u8],
    pub count: u16,
    ghost whole: { file_size count ≤ length file.now },
}

impl<'a> Listing<'a> {
    // The number of a leg that is listed, that of record i.
    #[tactic(auto, using(crate::proofs::laws::ListedLaws::arc_listed))]
    pub fn arc(self, i: u16) -> usize
        requires { i < self.count }
        ensures number { result ≡ listed_arc self.entry.file.now i }
        ensures on { T (listed result (arcs_to self.entry.file.now self.entry.count)) }
    {
        arc_at(self.file, i as usize) as usize
    }
}
