// A listed leg marks its end where its start is marked: with this step alone every site that a path of listed legs leads to is marked, and no
// other one.
#![tactic(auto)]

ghost use Rattle.std.specs.Prelude.{◌<◌, length, get_or};
ghost use Rattle.marking.specs.Marking.{ArcMarks};

use planfile::fields::Listing;

// The legs that a file lists, with the tables of starts and ends that they stand in.
#[derive(Clone, Copy)]
pub struct ListedArcs<'f, 'a> {
    pub listing: Listing<'f>,
    pub starts: &'a [u16],
    pub ends: &'a [u16],
}

impl<'f, 'a> ListedArcs<'f, 'a> {
    // A leg whose start is marked marks its end: whether the end was not marked before.
    pub fn mark_end(self, e: usize, marks: &mut [u8]) -> bool
        requires { (e < length self.starts.now) × (e < length self.ends.now) × (get_or self.starts.now e 0 < length marks.old)
            × (get_or self.ends.now e 0 < length marks.old) }
        ensures { let s = self.entry in ArcMarks (get_or s.starts.now e 0) (get_or s.ends.now e 0) marks.old marks.new result }
    {
        let start = self.starts[e] as usize;
        let end = self.ends[e] as usize;
        if marks[start] != 1 {
            return false;
        }
        if marks[end] == 1 {
            return false;
        }
        marks[end] = 1;
        true
    }
}
