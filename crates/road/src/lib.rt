// The sum of two divisors by value by the second road, on the ground of a nonsingular curve: by their common multiple and common part.
#![tactic(auto)]

ghost use Rattle.parts.specs.Contract.{InsideAsked};
ghost use Rattle.road.specs.Contract.{RoadAsked, RoadOf, DoubleOf};

use basis::Divisor;
use ground::Ground;
use kind::Kind;

// The reduced ideal of the product of the ideals of a and b.
#[cycle(add_double_sum)]
pub fn sum(g: Ground, a: Divisor, b: Divisor) -> Divisor
    requires { RoadAsked g a b }
    ensures { RoadOf g a b result }
{
    if a.kind.degree() < b.kind.degree() {
        return add(g, b, a);
    }
    add(g, a, b)
}

// The sum of x and y, of which y has the smaller degree: x for the zero class y; else that of their common multiple and their common part, whose
// degree is below y's, or, where y lies wholly inside x, what doubling gives.
#[cycle(add_double_sum)]
fn add(g: Ground, x: Divisor, y: Divisor) -> Divisor
    requires { RoadAsked g x y }
    ensures { RoadOf g x y result }
{
    if y.kind == Kind::Zero {
        return x;
    }
    let part = parts::common_part(g, x, y);
    if y.kind.degree() <= part.kind.degree() {
        return double(g, x, y);
    }
    let multiple = parts::common_multiple(g, x, y);
    sum(g, multiple, part)
}

// The sum of x and y, of which y lies wholly inside x: x is replaced by an equivalent divisor that does not contain y, and added.
#[cycle(add_double_sum)]
fn double(g: Ground, x: Divisor, y: Divisor) -> Divisor
    requires { InsideAsked g x y }
    ensures { DoubleOf g x y result }
{
    let s = parts::apart(g, x, y);
    sum(g, s.multiple, s.part)
}
