// Records in slots of 40 bytes in lent memory, slot m from place 40·m on. Bytes are copied in; two records leave and the rest close up.
#![tactic(auto)]

ghost use Rattle.std.specs.Prelude.{◌+◌, ◌*◌, ◌≤◌, length};
ghost use Rattle.slots.specs.Held.{Copied, Passed, Closed};

// The length of a slot: the longest record fits.
pub const SLOT: usize = 40;

// Copies n bytes from place `from` to place `at` before it.
fn copy_back(s: &mut [u8], at: usize, from: usize, n: usize)
    requires at_le_from { at ≤ from }
    requires n_in_bounds { from + n ≤ length s.old }
    ensures { Copied s.old at s.old from n s.new }
{
    s.copy_within(from..from + n, at);
}

// Copies the bytes of t to place `at`.
pub fn copy_in(s: &mut [u8], at: usize, t: &[u8])
    requires { at + length t.now ≤ length s.old }
    ensures { Copied s.old at t.now 0 (length t.now) s.new }
{
    s[at..at + t.len()].copy_from_slice(t);
}

// Passes slot m: leaves it out where m is i or j, else copies it to slot w. The result is the next slot to write.
fn pass_slot(s: &mut [u8], w: usize, m: usize, i: usize, j: usize) -> usize
    requires w_le_m { w ≤ m }
    requires m_in_bounds { 40 * m + 40 ≤ length s.old }
    ensures { Passed s.old w m i j s.new result }
{
    if m == i {
        return w;
    }
    if m == j {
        return w;
    }
    copy_back(s, SLOT * w, SLOT * m, SLOT);
    w + 1
}

// Takes the records i and j out of the first n slots, and closes up the rest.
pub fn close_up(s: &mut [u8], n: usize, i: usize, j: usize)
    requires { 40 * n ≤ length s.old }
    ensures { Closed s.old n i j s.new }
{
    let mut w = 0;
    for m in 0..n {
        w = pass_slot(s, w, m, i, j);
    }
}
