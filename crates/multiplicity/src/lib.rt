// Whether the span of one triple lies inside that of another, and in how high a power of it.
#![tactic(auto)]

ghost use Rattle.multiplicity.specs.Contract.{MemberAsked, MemberTest, InsideAsked, InsideTest, MultiplicityAsked, MultiplicityFound};

use triple::Triple;

// Is v, which is below top, in the span of the triple s?
fn member(p: u32, v: &[u32; 26], top: usize, s: &Triple) -> bool
    requires { MemberAsked p v.now top s.now.rows s.now.degrees }
    ensures { MemberTest p v.now s.now.rows result }
{
    let mut w = *v;
    span::reduce(p, s, &mut w, top);
    vector::is_zero(&w, 26)
}

// Does the span of the triple t lie inside that of the triple s?
fn inside(p: u32, t: &Triple, s: &Triple) -> bool
    requires { InsideAsked p t.now.rows t.now.degrees s.now.rows s.now.degrees }
    ensures { InsideTest p t.now.rows s.now.rows result }
{
    for j in 0..3 {
        let top = t.degrees[j] + 1;
        if !member(p, &t.rows[j], top, s) {
            return false;
        }
    }
    true
}

// The largest k up to 3 for which the span of the triple t lies inside the k-th power of that of the triple u.
pub fn multiplicity(p: u32, cube: &[u32; 26], t: &Triple, u: &Triple) -> usize
    requires { MultiplicityAsked p cube.now t.now.rows t.now.degrees u.now.rows u.now.degrees }
    ensures { MultiplicityFound p cube.now t.now.rows u.now.rows result }
{
    if !inside(p, t, u) {
        return 0;
    }
    let square = product::product(p, cube, u, u);
    if !inside(p, t, &square) {
        return 1;
    }
    let third = product::product(p, cube, u, &square);
    if !inside(p, t, &third) {
        return 2;
    }
    3
}
