// The common part and the common multiple of two divisors by value, on the ground of a curve: I + J, and the reduced ideal of I ∩ J, for their
// ideals I and J.
#![tactic(auto)]

ghost use Rattle.group.specs.Contract.{SumAsked};
ghost use Rattle.combination.specs.Contract.{CombinationAsked};
ghost use Rattle.parts.specs.Contract.{PlacesOf, LeastOf, OverlapOf, PartOf, MeetAsked, MeetOf, MultipleOf, InsideAsked, ApartOf};

use basis::Divisor;
use combination::Polynomial;
use ground::Ground;
use kind::Kind;

// The classes of the polynomials of a record in its triple: the first, which is the least, the second, and the one that is left.
#[derive(Clone, Copy)]
struct Places {
    first: usize,
    second: usize,
    third: usize,
}

// A common multiple and a common part.
#[derive(Clone, Copy)]
pub struct Parts {
    pub multiple: Divisor,
    pub part: Divisor,
}

// The places by the kind; those of the kinds 0, 11 and 31 are alike.
fn places_of(kind: Kind) -> Places
    ensures { PlacesOf kind result }
{
    match kind {
        Kind::K21 => Places {
            first: 1,
            second: 0,
            third: 2,
        },
        Kind::K22 => Places {
            first: 0,
            second: 2,
            third: 1,
        },
        Kind::Zero | Kind::K11 | Kind::K31 => Places {
            first: 0,
            second: 1,
            third: 2,
        },
    }
}

// The least element of the ideal of x.
fn least(x: Divisor) -> Polynomial
    ensures { LeastOf x result }
{
    let q = places_of(x.kind);
    combination::member(x, q.first)
}

// The reduced ideal of u·I + v·J, for the ideals I of x and J of y.
fn overlap(g: Ground, u: Polynomial, x: Divisor, v: Polynomial, y: Divisor) -> Divisor
    requires { CombinationAsked g u x v y }
    ensures { OverlapOf g u x v y result }
{
    let s = combination::star_of(g, u, x, v, y);
    group::negative(g, s)
}

// I + J, for the ideals I of x and J of y.
pub fn common_part(g: Ground, x: Divisor, y: Divisor) -> Divisor
    requires { SumAsked g x y }
    ensures { PartOf g x y result }
{
    let zero = group::zero_class();
    let one = combination::member(zero, 0);
    overlap(g, one, x, one, y)
}

// The reduced ideal of (u : N) ∩ J, for the ideals N of n, in which u is, and J of y: the star of u·J* + v·N, v the least element of J.
fn meet(g: Ground, u: Polynomial, n: Divisor, y: Divisor) -> Divisor
    requires { MeetAsked g u n y }
    ensures { MeetOf g u n y result }
{
    let m = group::negative(g, y);
    let v = least(y);
    combination::star_of(g, u, m, v, n)
}

// The reduced ideal of I ∩ J, for the ideals I of x and J of y: I is (u : I*), u the least element of I.
pub fn common_multiple(g: Ground, x: Divisor, y: Divisor) -> Divisor
    requires { SumAsked g x y }
    ensures { MultipleOf g x y result }
{
    let n = group::negative(g, x);
    let u = least(x);
    meet(g, u, n, y)
}

// For I inside J: common multiple and common part of A and J, where A = (u : I*) is equivalent to I and does not lie inside J. u is the second
// polynomial of I*, or the third where the degree of the common part shows that the second does not serve.
pub fn apart(g: Ground, x: Divisor, y: Divisor) -> Parts
    requires { InsideAsked g x y }
    ensures { ApartOf g x y result }
{
    let n = group::negative(g, x);
    let f = least(x);
    let q = places_of(n.kind);
    let u = combination::member(n, q.second);
    let part = overlap(g, u, x, f, y);
    if part.kind.degree() < y.kind.degree() {
        let multiple = meet(g, u, n, y);
        return Parts { multiple, part };
    }
    let w = combination::member(n, q.third);
    let other = overlap(g, w, x, f, y);
    let multiple = meet(g, w, n, y);
    Parts {
        multiple,
        part: other,
    }
}
