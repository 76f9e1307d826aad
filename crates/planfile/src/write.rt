// The writing of a plan file for a root, a total and a list of legs into a lent buffer.
ghost use Rattle.std.specs.Prelude.{◌≡◌, ◌+◌, ◌≤◌, ◌<◌, length};
ghost use Rattle.std.proofs.lemmas.List.Edits.{sets};
ghost use Rattle.lists.specs.Joined.{joined};
ghost use Rattle.planfile.specs.Format.{head_bytes, arc_bytes, file_size};
ghost use Rattle.planfile.specs.Writing.{writing, writing_of};

use crate::fields::{ARC_SIZE, HEAD_SIZE, file_size};
use number_fields::{put_u16, put_u32};

// Why nothing is written: the buffer is too short for the file, or a number does not fit its bytes, so that there is no file.
#[derive(Clone, Copy)]
pub enum WriteFault {
    ShortBuffer,
    NoFile,
}

// `PN`, root, total, leg count.
fn put_head(buffer: &mut [u8], root: u16, total: u32, count: u16)
    requires { file_size 0 ≤ length buffer.old }
    ensures { buffer.new ≡ sets buffer.old 0 (head_bytes root total count) }
{
    put_u16(buffer, 0, limits::MARK_PN);
    put_u16(buffer, 2, root);
    put_u32(buffer, 4, total);
    put_u16(buffer, 8, count);
}

// `LG`, leg number, at a place.
fn put_arc(buffer: &mut [u8], at: usize, arc: u16)
    requires { at + 3 < length buffer.old }
    ensures { buffer.new ≡ sets buffer.old at (arc_bytes arc) }
{
    put_u16(buffer, at, limits::MARK_LG);
    put_u16(buffer, at + 2, arc);
}

// A record for each leg, after the head.
#[tactic(auto, using(crate::proofs::laws::WritingLaws::put_arc_more))]
fn put_arcs(buffer: &mut [u8], arcs: &[u16])
    requires { file_size (length arcs.now) ≤ length buffer.old }
    ensures { buffer.new ≡ sets buffer.old (file_size 0) (joined arc_bytes arcs.now) }
{
    for (i, arc) in arcs.iter().enumerate() {
        put_arc(buffer, HEAD_SIZE + ARC_SIZE * i, *arc);
    }
}

// The plan file, and its length, where every number fits its bytes and the buffer is long enough; else the buffer is untouched.
pub fn write_plan(
    root: u16,
    total: u64,
    arcs: &[u16],
    buffer: &mut [u8],
) -> Result<usize, WriteFault>
    ensures { writing result buffer.new ≡ writing_of root total arcs.now buffer.old }
{
    let Ok(total) = u32::try_from(total) else {
        return Err(WriteFault::NoFile);
    };
    let Ok(count) = u16::try_from(arcs.len()) else {
        return Err(WriteFault::NoFile);
    };
    let size = file_size(count);
    if buffer.len() < size {
        return Err(WriteFault::ShortBuffer);
    }
    put_head(buffer, root, total, count);
    put_arcs(buffer, arcs);
    Ok(size)
}
