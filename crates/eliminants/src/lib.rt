// Polynomials in one coordinate that are 0 at the points of a divisor: in x, and in y at a given x. Their coefficients come from the numbers
// of the divisor; for a divisor of kind 31 these are f0, f1, f2, g0, g1, g2, h0, h1, h2.
#![tactic(auto)]

ghost use Rattle.algebra.specs.Ring.{CommRing};
ghost use Rattle.field.specs.Residue.{Z, el};
ghost use Rattle.divisor.specs.Kind.{k31};
ghost use Rattle.basis.specs.Divisor.{residues};
ghost use Rattle.point.proofs.Vanish.{x-value};
ghost use Rattle.eliminants.specs.Contract.{EliminantAsked, EliminantAtAsked, InX, InY};
ghost use Rattle.eliminants.specs.Parts.{Stands, InY31};

use basis::Divisor;
use kind::Kind;
use roots::Cubic;

// A polynomial in x that lies in the ideal of the divisor.
pub fn in_x(p: u32, r: Divisor) -> Cubic
    requires { EliminantAsked p r }
    ensures { InX p r result }
{
    match r.kind {
        Kind::Zero => Cubic {
            c0: 1,
            c1: 0,
            c2: 0,
            c3: 0,
        },
        Kind::K11 | Kind::K22 => Cubic {
            c0: r.n0,
            c1: 1,
            c2: 0,
            c3: 0,
        },
        Kind::K21 => Cubic {
            c0: r.n2,
            c1: r.n3,
            c2: 1,
            c3: 0,
        },
        Kind::K31 => in_x_31(p, r),
    }
}

// t³ + (f1 + g2)·t² + (f0 + f1·g2 − f2·g1)·t + (f0·g2 − f2·g0), which is (x + g2)·f − f2·g
fn in_x_31(p: u32, r: Divisor) -> Cubic
    requires { EliminantAsked p r }
    ensures { Stands p result (x-value (Z p) k31 (residues p r)) }
{
    let c2 = field::add(p, r.n1, r.n5);
    let high = field::mul_add(p, r.n1, r.n5, r.n0);
    let c1 = field::mul_sub(p, r.n2, r.n4, high);
    let low = field::mul(p, r.n0, r.n5);
    let c0 = field::mul_sub(p, r.n2, r.n3, low);
    Cubic { c0, c1, c2, c3: 1 }
}

// A polynomial of the divisor at x = a.
pub fn in_y(p: u32, r: Divisor, a: u32) -> Cubic
    requires { EliminantAtAsked p r a }
    ensures { InY p r a result }
{
    match r.kind {
        Kind::Zero => Cubic {
            c0: 1,
            c1: 0,
            c2: 0,
            c3: 0,
        },
        Kind::K11 => Cubic {
            c0: r.n1,
            c1: 1,
            c2: 0,
            c3: 0,
        },
        Kind::K21 => Cubic {
            c0: field::mul_add(p, r.n1, a, r.n0),
            c1: 1,
            c2: 0,
            c3: 0,
        },
        Kind::K22 => Cubic {
            c0: r.n1,
            c1: r.n2,
            c2: 1,
            c3: 0,
        },
        Kind::K31 => in_y_31(p, r, a),
    }
}

// f2·t + (a + f1)·a + f0 where f2 is not 0, and else t² + h2·t + h1·a + h0
fn in_y_31(p: u32, r: Divisor, a: u32) -> Cubic
    requires { EliminantAtAsked p r a }
    ensures { InY31 p r a result }
{
    if r.n2 == 0 {
        let c0 = field::mul_add(p, r.n7, a, r.n6);
        return Cubic {
            c0,
            c1: r.n8,
            c2: 1,
            c3: 0,
        };
    }
    let sum = field::add(p, a, r.n1);
    let c0 = field::mul_add(p, sum, a, r.n0);
    Cubic {
        c0,
        c1: r.n2,
        c2: 0,
        c3: 0,
    }
}
