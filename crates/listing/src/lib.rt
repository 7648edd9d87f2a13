// The points of a divisor, on the ground of a curve: found by a scan of x and of y, in rising order, and put into a slice as pairs.
#![tactic(auto)]

ghost use Rattle.listing.specs.Contract.{StandsAsked, Stands, PutAsked, Put, ListAsked, Listed, AtAsked, ListedAt};

use basis::Divisor;
use ground::Ground;
use triple::Triple;

// How often the pair (a, b) stands in the divisor with the triple t: 0 where it is no point.
fn stands(g: Ground, r: Divisor, t: &Triple, a: u32, b: u32) -> usize
    requires { StandsAsked g r t.now.rows t.now.degrees }
    ensures { Stands g r a b result }
{
    match pair::read_pair(g, a, b) {
        Ok(x) => {
            let u = basis::triple_of(x);
            multiplicity::multiplicity(g.p, &g.cube, t, &u)
        }
        Err(_) => 0,
    }
}

// The pair (a, b) is put k times into the slice, behind n pairs.
fn put(out: &mut [u32], n: usize, a: u32, b: u32, k: usize)
    requires { PutAsked out.old n k }
    ensures { Put out.old n a b k out.new }
{
    for i in 0..k {
        let at = 2 * (n + i);
        out[at] = a;
        out[at + 1] = b;
    }
}

// The points of the divisor with x = a are put behind n pairs. Returns how many pairs there are then.
fn list_at(g: Ground, r: Divisor, t: &Triple, a: u32, n: usize, out: &mut [u32]) -> usize
    requires { AtAsked g r t.now.rows t.now.degrees a n out.old }
    ensures { ListedAt g r a n out.old result out.new }
{
    let c = eliminants::in_y(g.p, r, a);
    let mut m = n;
    let mut y = roots::root_from(g.p, c, 0);
    while let Some(b) = y {
        let k = stands(g, r, t, a, b);
        put(out, m, a, b, k);
        m += k;
        y = roots::root_from(g.p, c, b + 1);
    }
    m
}

// The points of the divisor, each as often as its multiplicity. Returns how many pairs there are.
pub fn list_points(g: Ground, r: Divisor, out: &mut [u32]) -> usize
    requires { ListAsked g r out.old }
    ensures { Listed g r out.old result out.new }
{
    let t = basis::triple_of(r);
    let c = eliminants::in_x(g.p, r);
    let mut n = 0;
    let mut x = roots::root_from(g.p, c, 0);
    while let Some(a) = x {
        n = list_at(g, r, &t, a, n, out);
        x = roots::root_from(g.p, c, a + 1);
    }
    n
}
