// Combinations u·I + v·J of the ideals I and J of two divisors, with polynomials u and v.
#![tactic(auto)]

ghost use Rattle.std.specs.Prelude.{◌<◌};
ghost use Rattle.combination.specs.Contract.{MemberOf, CombinationAsked, CombinationOf, AddAsked, Added};

use basis::Divisor;
use ground::Ground;
use triple::Triple;

// A monic polynomial, by its vector and its degree.
#[derive(Clone, Copy)]
pub struct Polynomial {
    pub v: [u32; 26],
    pub d: usize,
}

// The member in the class j of the triple of a divisor.
pub fn member(x: Divisor, j: usize) -> Polynomial
    requires { j < 3 }
    ensures { MemberOf x j result }
{
    let t = basis::triple_of(x);
    Polynomial {
        v: t.rows[j],
        d: t.degrees[j],
    }
}

// The star of u·I + v·J, for the ideals I of x and J of y.
pub fn star_of(g: Ground, u: Polynomial, x: Divisor, v: Polynomial, y: Divisor) -> Divisor
    requires { CombinationAsked g u x v y }
    ensures { CombinationOf g u x v y result }
{
    let mut t = Triple::empty();
    add(g, u, x, &mut t);
    add(g, v, y, &mut t);
    star::star(g, &t)
}

// u·I is added to the span of a triple, for the ideal I of x.
fn add(g: Ground, u: Polynomial, x: Divisor, t: &mut Triple)
    requires { AddAsked g u x t.old.rows t.old.degrees }
    ensures { Added g u x t.old.rows t.new.rows t.new.degrees }
{
    let a = basis::triple_of(x);
    let ys = multiplication::y_multiples(g.p, &g.cube, &u.v, u.d + 1);
    product::insert_products(g.p, &a, &ys, u.d + 1, t);
}
