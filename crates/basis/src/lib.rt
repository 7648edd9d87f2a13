// Divisors by value: the kind and the nine numbers of a record, 0 past the kind's count. Their triples, and the basis test.
#![tactic(auto)]

ghost use Rattle.std.specs.Prelude.{◌≡◌, ◌<◌};
ghost use Rattle.divisor.specs.Kind.{k0, k11, k21, k22, k31};
ghost use Rattle.vector.specs.Vector.{width};
ghost use Rattle.basis.specs.Divisor.{of_four, divisor_0};
ghost use Rattle.basis.specs.Contract.{coefficients, IsTriple, TripleOf, BasisAsked, BasisTest};

use kind::Kind;
use triple::Triple;

#[derive(Clone, Copy)]
pub struct Divisor {
    pub kind: Kind,
    pub n0: u32,
    pub n1: u32,
    pub n2: u32,
    pub n3: u32,
    pub n4: u32,
    pub n5: u32,
    pub n6: u32,
    pub n7: u32,
    pub n8: u32,
}

// The divisor of a kind that has four numbers at most.
pub fn of_four(kind: Kind, n0: u32, n1: u32, n2: u32, n3: u32) -> Divisor
    ensures { result ≡ of_four kind n0 n1 n2 n3 }
{
    Divisor {
        kind,
        n0,
        n1,
        n2,
        n3,
        n4: 0,
        n5: 0,
        n6: 0,
        n7: 0,
        n8: 0,
    }
}

// The zero class.
pub fn zero_class() -> Divisor
    ensures { result ≡ divisor_0 }
{
    of_four(Kind::Zero, 0, 0, 0, 0)
}

// The monic vector of degree m with the lower terms a7·xy + a4·y + a3·x + a0.
fn polynomial(m: usize, a0: u32, a3: u32, a4: u32, a7: u32) -> [u32; 26]
    requires { m < width }
    ensures { result ≡ coefficients m a0 a3 a4 a7 }
{
    let mut v = [0u32; 26];
    v[0] = a0;
    v[3] = a3;
    v[4] = a4;
    v[7] = a7;
    v[m] = 1;
    v
}

// The triple of a record.
pub fn triple_of(r: Divisor) -> Triple
    ensures { TripleOf r result.rows result.degrees }
{
    match r.kind {
        Kind::Zero => triple_0(r),
        Kind::K11 => triple_11(r),
        Kind::K21 => triple_21(r),
        Kind::K22 => triple_22(r),
        Kind::K31 => triple_31(r),
    }
}

// 1; y; y²
fn triple_0(r: Divisor) -> Triple
    ensures { IsTriple k0 r result.rows result.degrees }
{
    let a = polynomial(0, 0, 0, 0, 0);
    let b = polynomial(4, 0, 0, 0, 0);
    let c = polynomial(8, 0, 0, 0, 0);
    Triple {
        rows: [a, b, c],
        degrees: [0, 4, 8],
    }
}

// x + f0; y + g0; y times the second
fn triple_11(r: Divisor) -> Triple
    ensures { IsTriple k11 r result.rows result.degrees }
{
    let a = polynomial(3, r.n0, 0, 0, 0);
    let b = polynomial(4, r.n1, 0, 0, 0);
    let c = polynomial(8, 0, 0, r.n1, 0);
    Triple {
        rows: [a, b, c],
        degrees: [3, 4, 8],
    }
}

// x² + g1·x + g0; y + f1·x + f0; y times the second
fn triple_21(r: Divisor) -> Triple
    ensures { IsTriple k21 r result.rows result.degrees }
{
    let a = polynomial(6, r.n2, r.n3, 0, 0);
    let b = polynomial(4, r.n0, r.n1, 0, 0);
    let c = polynomial(8, 0, 0, r.n0, r.n1);
    Triple {
        rows: [a, b, c],
        degrees: [6, 4, 8],
    }
}

// x + f0; y times the first; y² + g1·y + g0
fn triple_22(r: Divisor) -> Triple
    ensures { IsTriple k22 r result.rows result.degrees }
{
    let a = polynomial(3, r.n0, 0, 0, 0);
    let b = polynomial(7, 0, 0, r.n0, 0);
    let c = polynomial(8, r.n1, 0, r.n2, 0);
    Triple {
        rows: [a, b, c],
        degrees: [3, 7, 8],
    }
}

// x² + f2·y + f1·x + f0; xy + g2·y + g1·x + g0; y² + h2·y + h1·x + h0
fn triple_31(r: Divisor) -> Triple
    ensures { IsTriple k31 r result.rows result.degrees }
{
    let a = polynomial(6, r.n0, r.n1, r.n2, 0);
    let b = polynomial(7, r.n3, r.n4, r.n5, 0);
    let c = polynomial(8, r.n6, r.n7, r.n8, 0);
    Triple {
        rows: [a, b, c],
        degrees: [6, 7, 8],
    }
}

// Is the record a basis on the curve of which `cube` is the vector of y³?
pub fn is_basis(p: u32, cube: &[u32; 26], r: Divisor) -> bool
    requires { BasisAsked p cube.now r }
    ensures { BasisTest p cube.now r result }
{
    let t = triple_of(r);
    span::closed(p, cube, &t)
}
