// What is done to a lent room, whatever it is for: its size is judged, it is cleared or filled, its marks are counted. The width is how many
// bytes of the room are meant.
#![tactic(auto)]

ghost use Rattle.std.specs.Prelude.{◌≡◌, ◌+◌, ◌≤◌, ◌<◌, length, take};
ghost use Rattle.std.proofs.Math.Seq.{paste};
ghost use Rattle.rooms.specs.Rooms.{is_short, filled, nonzero};

// Is a room of this size shorter than a width?
pub fn is_short(size: usize, width: usize) -> bool
    ensures { result ≡ is_short width size }
{
    size < width
}

// Zeros from a place up to a width.
pub fn clear_from(room: &mut [u8], from: usize, width: usize)
    requires { (from ≤ width) × (width ≤ length room.old) }
    ensures { room.new ≡ filled width (take from room.old) room.old }
{
    room[from..width].fill(0);
}

// The first n of some bytes put into a room from a place on; every other byte of it stays. n is told, since the bytes may stand in a larger
// room of their own, as a packed table's entries do.
pub fn copy_to(room: &mut [u8], at: usize, bytes: &[u8], n: usize)
    requires { (at + n ≤ length room.old) × (n ≤ length bytes.now) }
    ensures { room.new ≡ paste room.old at bytes.now n }
{
    room[at..at + n].copy_from_slice(&bytes[..n]);
}

// How many bytes are counted at once: their count fits into a byte, and so the compiler takes many bytes at a time.
const BLOCK: usize = 64;

// How many bytes of a block aren't 0.
#[tactic(auto, using(crate::proofs::Laws::marks_zero, crate::proofs::Laws::marks_one, crate::proofs::Laws::marks_end))]
fn count_block(block: &[u8]) -> usize
    requires { length block.now ≤ 255 }
    ensures { result ≡ nonzero block.now }
{
    let mut count: u8 = 0;
    for b in block {
        count += u8::from(*b != 0);
    }
    count as usize
}

// How many of the first bytes of a room aren't 0. As `.map(count_block).sum()` it was tried and not proved: what is left then is said of every
// run of the mapped chunks, that their sum fits and what it is, where the loop has one law a turn.
#[tactic(auto, using(crate::proofs::Laws::nonzero_few, crate::proofs::Laws::nonzero_none))]
pub fn count_marks(room: &[u8], width: usize) -> usize
    requires { width ≤ length room.now }
    ensures { result ≡ nonzero (take width room.now) }
{
    let mut count: usize = 0;
    for block in room[..width].chunks(BLOCK) {
        count += count_block(block);
    }
    count
}
