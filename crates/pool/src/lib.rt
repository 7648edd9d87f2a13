// A list of sum calls, carried out on a pool of records in lent memory: slots of 40 bytes, slot m from place 40·m on.
#![tactic(auto)]

ghost use Rattle.std.specs.Prelude.{length};
ghost use Rattle.calls.specs.Call.{Sum};
ghost use Rattle.slots.specs.Held.{at_slot};
ghost use Rattle.pool.specs.Run.{InSlot, StepAsked, StepMade, RunAsked, RunMade};

// The sum call of the records at the slots i and j.
fn sum_slots(curve: &[u8], s: &[u8], i: usize, j: usize, out: &mut [u8]) -> i32
    requires { InSlot s.now i × InSlot s.now j }
    ensures { Sum curve.now (at_slot s.now i) (at_slot s.now j) out.old result out.new }
{
    let a = slots::SLOT * i;
    let b = slots::SLOT * j;
    let n = layout::read_u16(s, a) as usize;
    let m = layout::read_u16(s, b) as usize;
    answer::sum(curve, &s[a..a + n], &s[b..b + m], out)
}

// One sum call on the n records of the pool. The result is how many records are left.
fn step(curve: &[u8], s: &mut [u8], n: usize, i: usize, j: usize, out: &mut [u8]) -> usize
    requires { StepAsked curve.now s.old n i j }
    ensures { StepMade curve.now s.old n i j out.old s.new result }
{
    let r = sum_slots(curve, &s[..], i, j, out);
    if out.len() < reader::ROOM {
        return n;
    }
    slots::close_up(s, n, i, j);
    slots::copy_in(s, slots::SLOT * (n - 2), &out[..r as usize]);
    n - 1
}

// Carries out the sum calls on the first `count` records of the pool, one after the other. A call is three numbers: the places of its two
// records and the length of its buffer, which is lent from `scratch`. The result is how many records are left.
pub fn run_calls(
    curve: &[u8],
    pool: &mut [u8],
    count: usize,
    calls: &[u32],
    scratch: &mut [u8],
) -> usize
    requires { RunAsked curve.now pool.old count calls.now (length scratch.old) }
    ensures { RunMade curve.now pool.old count calls.now pool.new result }
{
    let mut left = count;
    let mut at = 0;
    while at < calls.len() {
        let i = calls[at] as usize;
        let j = calls[at + 1] as usize;
        let l = calls[at + 2] as usize;
        left = step(curve, pool, left, i, j, &mut scratch[..l]);
        at += 3;
    }
    left
}
