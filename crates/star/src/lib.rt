// The star of a triple J: the divisor of J* = (f : J), f the least member. J* is read off the functional Λ of f (crate lambda),
// which is 0 below d + 5 and 1 at d + 5, d the degree of f. Of the other two members u has the degree d + 1 or d + 4, and w the
// degree d + 2, d + 5 or d + 8.
#![tactic(auto)]

ghost use Rattle.std.specs.Prelude.{◌+◌};
ghost use Rattle.vector.specs.Vector.{row};
ghost use Rattle.multiplication.specs.Contract.{YMultiples};
ghost use Rattle.star.specs.Contract.{StarAsked, StarOf, LeastOf, MultiplesAsked, FromAsked};
ghost use Rattle.star.specs.Parts.{PosedW, ValuesOf, TermYAsked, TermY, TermXAsked, TermX, TermOneAsked, TermOne, SolveAsked, Solved};
ghost use Rattle.star.specs.Parts.{Posed, ByKind};

use basis::Divisor;
use ground::Ground;
use kind::Kind;
use lambda::Pose;
use triple::Triple;

// a4·y + a3·x + a0
#[derive(Clone, Copy)]
struct Terms {
    a0: u32,
    a3: u32,
    a4: u32,
}

// Λ(y·w), Λ(y·v) and Λ(x·v), where v is w or x·w, of degree d + 5
#[derive(Clone, Copy)]
struct Values {
    w4: u32,
    v4: u32,
    v3: u32,
}

// Λ at y·w, y·v and x·v.
fn values_of(q: Pose, lam: &[u32; 26], ws: &[[u32; 26]; 3]) -> Values
    requires { PosedW q lam.now ws.now }
    ensures { ValuesOf q lam.now ws.now result }
{
    let h = q.d + 5 - q.d2;
    let w4 = lambda::value_at(q, lam, ws, q.d2, 4, 0);
    let v4 = lambda::value_at(q, lam, ws, q.d2, 4, h);
    let v3 = lambda::value_at(q, lam, ws, q.d2, 3, h);
    Values { w4, v4, v3 }
}

// The number before y, which makes Λ zero at the product with u.
fn term_y(q: Pose, lam: &[u32; 26], us: &[[u32; 26]; 3], n: usize) -> u32
    requires { TermYAsked q lam.now us.now n }
    ensures { TermY q lam.now us.now n result }
{
    if q.d1 != q.d + 1 {
        return 0;
    }
    let a = lambda::value_at(q, lam, us, q.d1, n, 0);
    lambda::opposite(q, 1 + q.d1 % 3, a)
}

// The number before x, which makes Λ zero at the product with w.
fn term_x(q: Pose, lam: &[u32; 26], ws: &[[u32; 26]; 3], v: Values, n: usize, a4: u32) -> u32
    requires { TermXAsked q lam.now ws.now v n a4 }
    ensures { TermX q lam.now ws.now n a4 result }
{
    if q.d2 != q.d + 2 {
        return 0;
    }
    let a = lambda::value_at(q, lam, ws, q.d2, n, 0);
    let b = field::mul_add(q.p, a4, v.w4, a);
    field::neg(q.p, b)
}

// The constant, which makes Λ zero at the product with v.
fn term_one(
    q: Pose,
    lam: &[u32; 26],
    ws: &[[u32; 26]; 3],
    v: Values,
    n: usize,
    a4: u32,
    a3: u32,
) -> u32
    requires { TermOneAsked q lam.now ws.now v n a4 a3 }
    ensures { TermOne q lam.now ws.now n a4 a3 result }
{
    let h = q.d + 5 - q.d2;
    let a = lambda::value_at(q, lam, ws, q.d2, n, h);
    let b = field::mul_add(q.p, a4, v.v4, a);
    let e = field::mul_add(q.p, a3, v.v3, b);
    field::neg(q.p, e)
}

// The numbers of mono n + a4·y + a3·x + a0 in J*: a4 is 0 if d1 is d + 4, and a3 is 0 if d2 is d + 5.
fn solve(
    q: Pose,
    lam: &[u32; 26],
    us: &[[u32; 26]; 3],
    ws: &[[u32; 26]; 3],
    v: Values,
    n: usize,
) -> Terms
    requires { SolveAsked q lam.now us.now ws.now v n }
    ensures { Solved q lam.now us.now ws.now n result }
{
    let a4 = term_y(q, lam, us, n);
    let a3 = term_x(q, lam, ws, v, n, a4);
    let a0 = term_one(q, lam, ws, v, n, a4, a3);
    Terms { a0, a3, a4 }
}

// The divisor of the kind that the degrees d1 and d2 tell.
fn by_kind(q: Pose, lam: &[u32; 26], us: &[[u32; 26]; 3], ws: &[[u32; 26]; 3]) -> Divisor
    requires { Posed q lam.now us.now ws.now }
    ensures { ByKind q lam.now us.now ws.now result }
{
    let v = values_of(q, lam, ws);
    if q.d2 == q.d + 2 {
        if q.d1 == q.d + 1 {
            // x² + f2·y + f1·x + f0; xy + g2·y + g1·x + g0; y² + h2·y + h1·x + h0
            let f = solve(q, lam, us, ws, v, 6);
            let g = solve(q, lam, us, ws, v, 7);
            let h = solve(q, lam, us, ws, v, 8);
            return Divisor {
                kind: Kind::K31,
                n0: f.a0,
                n1: f.a3,
                n2: f.a4,
                n3: g.a0,
                n4: g.a3,
                n5: g.a4,
                n6: h.a0,
                n7: h.a3,
                n8: h.a4,
            };
        }
        // y + f1·x + f0; x² + g1·x + g0
        let f = solve(q, lam, us, ws, v, 4);
        let g = solve(q, lam, us, ws, v, 6);
        return basis::of_four(Kind::K21, f.a0, f.a3, g.a0, g.a3);
    }
    let f = solve(q, lam, us, ws, v, 3);
    if q.d1 == q.d + 1 {
        // x + f0; y² + g1·y + g0
        let g = solve(q, lam, us, ws, v, 8);
        return basis::of_four(Kind::K22, f.a0, g.a0, g.a4, 0);
    }
    // x + f0; y + g0
    let g = solve(q, lam, us, ws, v, 4);
    basis::of_four(Kind::K11, f.a0, g.a0, 0, 0)
}

// The class of the least degree.
fn least(d: &[usize; 3]) -> usize
    ensures { LeastOf d.now result }
{
    if d[1] < d[0] {
        if d[2] < d[1] {
            return 2;
        }
        return 1;
    }
    if d[2] < d[0] {
        return 2;
    }
    0
}

// v, y·v and y²·v for the member v of the class j, of degree e.
fn multiples(g: Ground, t: &[[u32; 26]; 3], j: usize, e: usize) -> [[u32; 26]; 3]
    requires { MultiplesAsked g t.now j e }
    ensures { YMultiples g.p g.cube (row t.now j) (e + 1) result }
{
    multiplication::y_multiples(g.p, &g.cube, &t[j], e + 1)
}

// The star of a triple whose least degree is that of the class j, where it is not the zero class.
fn star_from(g: Ground, t: &Triple, j: usize) -> Divisor
    requires { FromAsked g t.now.rows t.now.degrees j }
    ensures { StarOf g t.now.rows t.now.degrees result }
{
    let j1 = (j + 1) % 3;
    let j2 = (j + 2) % 3;
    let e = t.degrees[j];
    let e1 = t.degrees[j1];
    let e2 = t.degrees[j2];
    let ys = multiples(g, &t.rows, j, e);
    let us = multiples(g, &t.rows, j1, e1);
    let ws = multiples(g, &t.rows, j2, e2);
    let q = Pose {
        p: g.p,
        unit: g.unit,
        d: e,
        d1: e1,
        d2: e2,
    };
    let lam = lambda::functional(q, &ys);
    by_kind(q, &lam, &us, &ws)
}

// The divisor of the star of a triple's span, an ideal with an element of degree 12 or less. The degrees less the least one
// are (1, 2), (4, 2), (1, 5), (4, 5) or (4, 8) in the order of the classes from the least one's on.
pub fn star(g: Ground, t: &Triple) -> Divisor
    requires { StarAsked g t.now.rows t.now.degrees }
    ensures { StarOf g t.now.rows t.now.degrees result }
{
    let j = least(&t.degrees);
    let e = t.degrees[j];
    let e2 = t.degrees[(j + 2) % 3];
    if e2 == e + 8 {
        return basis::zero_class();
    }
    star_from(g, t, j)
}
