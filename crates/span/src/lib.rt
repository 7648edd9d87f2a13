// The span of a triple: the rest of a vector by it, and whether it is closed under y.
#![tactic(auto)]

ghost use Rattle.span.specs.Contract.{ReduceAsked, Rest, ClosedAsked, ClosedTest, AtAsked, AtTest};

use triple::Triple;

// v, which is below top, less a member of the span, with no coefficient left at a lead of the span.
pub fn reduce(p: u32, t: &Triple, v: &mut [u32; 26], top: usize)
    requires { ReduceAsked p t.now.rows t.now.degrees v.old top }
    ensures { Rest p t.now.rows t.now.degrees v.old v.new }
{
    for n in (0..top).rev() {
        let j = n % 3;
        let e = t.degrees[j];
        if e <= n {
            vector::clear(p, v, n, &t.rows[j], e);
        }
    }
}

// Is the span closed under y?
pub fn closed(p: u32, cube: &[u32; 26], t: &Triple) -> bool
    requires { ClosedAsked p cube.now t.now.rows t.now.degrees }
    ensures { ClosedTest p cube.now t.now.rows t.now.degrees result }
{
    for j in 0..3 {
        if !closed_at(p, cube, t, j) {
            return false;
        }
    }
    true
}

// Is y times the j-th member in the span?
fn closed_at(p: u32, cube: &[u32; 26], t: &Triple, j: usize) -> bool
    requires { AtAsked p cube.now t.now.rows t.now.degrees j }
    ensures { AtTest p cube.now t.now.rows t.now.degrees j result }
{
    let e = t.degrees[j];
    let mut v = multiplication::times_y(p, cube, &t.rows[j], e + 1);
    reduce(p, t, &mut v, e + 5);
    vector::is_zero(&v, 8)
}
