// The sum of two divisors of kind 31 by value, by formulas with one inversion, where they serve: the determinant of the first three columns of the matrix of the
// two divisors is not 0, and the sum has the kind 31 with f2 not 0.
#![tactic(auto)]

ghost use Rattle.std.specs.Prelude.{◌≡◌};
ghost use Rattle.basis.specs.Divisor.{numbers_of};
ghost use Rattle.usual.specs.Trial.{TriedAsked, TriedOf};
ghost use Rattle.usual.specs.Contract.{CompleteAsked, CompleteOf, MatrixAsked, MatrixOf, SolveAsked, SolvedOf};

use barrett::Modulus;
use basis::Divisor;
use entries::Lower;
use ground::Ground;
use kind::Kind;
use matrix::Column;

// The divisor of the formulas, from the last two columns of the row-reduced matrix; i is the inverse of its f2.
fn completed(modulus: Modulus, o: Lower, n: Divisor, s: Column, t: Column, i: u32) -> Divisor
    requires { CompleteAsked modulus.p o n s t i }
    ensures { CompleteOf modulus.p o n s t i result }
{
    let u = formulas::tail_of(modulus, n, n.n0, n.n1, n.n2, s);
    let v = formulas::tail_of(modulus, n, n.n3, n.n4, n.n5, t);
    let h = formulas::head_of(modulus, o, u, v, s.y, t.y);
    let b = formulas::body_of(modulus, o, u, v, s.y, h, i);
    let l = formulas::last_of(modulus, h, b, i);
    Divisor {
        kind: Kind::K31,
        n0: b.f0,
        n1: b.f1,
        n2: h.f2,
        n3: b.g0,
        n4: h.g1,
        n5: b.g2,
        n6: l.h0,
        n7: l.h1,
        n8: l.h2,
    }
}

// The sum by the matrix m of the divisor n and another one, if the formulas serve.
fn solved(modulus: Modulus, o: Lower, n: Divisor, m: [[u32; 5]; 3]) -> Option<Divisor>
    requires { SolveAsked modulus.p o n m }
    ensures { SolvedOf modulus.p o n m result }
{
    let c = matrix::cleared(modulus, m);
    let first = matrix::column_of(c, 0);
    let d = matrix::column_of(c, 3);
    let e = matrix::column_of(c, 4);
    let z = first.one;
    let f = formulas::factors_of(modulus, o, n.n2, z, d.x, d.y, e.y);
    if f.zy == 0 {
        return None;
    }
    let i = formulas::inverses_of(modulus, f);
    let r = matrix::row_reduced(modulus, c, i.one);
    let s = matrix::column_of(r, 3);
    let t = matrix::column_of(r, 4);
    Some(completed(modulus, o, n, s, t, i.two))
}

// The nine numbers of a divisor.
fn numbers(a: Divisor) -> [u32; 9]
    ensures { result ≡ numbers_of a }
{
    [a.n0, a.n1, a.n2, a.n3, a.n4, a.n5, a.n6, a.n7, a.n8]
}

// The matrix of two divisors: that of a double, where their numbers are the same, and else that of a sum.
fn matrix_of(modulus: Modulus, o: Lower, a: Divisor, b: Divisor) -> [[u32; 5]; 3]
    requires { MatrixAsked modulus.p o a b }
    ensures { MatrixOf modulus.p o a b result }
{
    let x = numbers(a);
    let y = numbers(b);
    if x == y {
        entries::double_matrix(modulus, o, x)
    } else {
        entries::sum_matrix(modulus, x, y)
    }
}

// The sum of two divisors of kind 31, if the formulas serve.
pub fn sum_tried(g: Ground, a: Divisor, b: Divisor) -> Option<Divisor>
    requires { TriedAsked g a b }
    ensures { TriedOf g a b result }
{
    let o = entries::lower_of(&g.cube);
    let m = matrix_of(g.by, o, a, b);
    solved(g.by, o, a, m)
}
