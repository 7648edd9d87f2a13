// The matrix of two divisors of kind 31, given by the nine numbers of each, f0, f1, f2, g0, g1, g2, h0, h1, h2: columns 1 to 5 are f, g, h, x·f and x·g of the first
// modulo the ideal of the second, at 1, x and y. For the double of a divisor they are those of three polynomials that take the place of f, g and h.
#![tactic(auto)]

ghost use Rattle.std.specs.Prelude.{◌≡◌};
ghost use Rattle.barrett.specs.Contract.{Below₆};
ghost use Rattle.entries.specs.Contract.{lower_of, ShiftAsked, Shifted, Difference, SumMatrixAsked, SumMatrix, PartsAsked, PartsOf, TwinAsked, FirstTwin, SecondTwin, ThirdTwin, DoubleMatrix};

use barrett::Modulus;
use matrix::Column;

// The coefficients of y³ at the pole numbers 6 to 12: −c3, −c4, −c5, −c6, −c7, −c8 and −a0.
#[derive(Clone, Copy)]
pub struct Lower {
    pub n6: u32,
    pub n7: u32,
    pub n8: u32,
    pub n9: u32,
    pub n10: u32,
    pub n11: u32,
    pub n12: u32,
}

// What the columns of a double share.
#[derive(Clone, Copy)]
pub struct Parts {
    pub a0: u32,
    pub a1: u32,
    pub a2: u32,
    pub r1: u32,
    pub r2: u32,
    pub s: u32,
    pub t: u32,
    pub s0: u32,
    pub r0: u32,
    pub k: u32,
    pub l: u32,
}

// The coefficients that the formulas read, of the vector of y³.
pub fn lower_of(cube: &[u32; 26]) -> Lower
    ensures { result ≡ lower_of cube.now }
{
    Lower {
        n6: cube[6],
        n7: cube[7],
        n8: cube[8],
        n9: cube[9],
        n10: cube[10],
        n11: cube[11],
        n12: cube[12],
    }
}

// x·v modulo the ideal of the divisor with the numbers m, for the column v.
fn shifted(modulus: Modulus, v: Column, m: [u32; 9]) -> Column
    requires { ShiftAsked modulus.p v m }
    ensures { Shifted modulus.p v m result }
{
    let one = modulus.less2(0, v.x, m[0], v.y, m[3]);
    let x = modulus.less2(v.one, v.x, m[1], v.y, m[4]);
    let y = modulus.less2(0, v.x, m[2], v.y, m[5]);
    Column { one, x, y }
}

// The column with the entries a − b.
fn difference(p: u32, a0: u32, a1: u32, a2: u32, b0: u32, b1: u32, b2: u32) -> Column
    requires { Below₆ p a0 a1 a2 b0 b1 b2 }
    ensures { Difference p a0 a1 a2 b0 b1 b2 result }
{
    let one = field::sub(p, a0, b0);
    let x = field::sub(p, a1, b1);
    let y = field::sub(p, a2, b2);
    Column { one, x, y }
}

// What the columns of a double share.
fn parts_of(modulus: Modulus, o: Lower, n: [u32; 9]) -> Parts
    requires { PartsAsked modulus.p o n }
    ensures { PartsOf modulus.p o n result }
{
    let a0 = modulus.mul(o.n12, n[0]);
    let a1 = modulus.mul(o.n12, n[1]);
    let a2 = modulus.mul(o.n12, n[2]);
    let r1 = field::sub(modulus.p, a1, o.n9);
    let r2 = field::sub(modulus.p, a2, o.n10);
    let s = field::sub(modulus.p, n[1], n[5]);
    let t8 = field::add(modulus.p, o.n8, n[8]);
    let t = modulus.more1(t8, n[2], r2);
    let t7 = field::add(modulus.p, o.n7, n[7]);
    let s0 = chains::sum(modulus, t7, [(n[2], r1), (n[1], r2)], [(o.n11, n[8])]);
    let t6 = field::sub(modulus.p, a0, o.n6);
    let r0 = chains::sum(modulus, t6, [(o.n11, n[7])], [(n[1], r1)]);
    let k = modulus.more1(r1, o.n12, n[5]);
    let l = field::add(modulus.p, r2, a2);
    Parts {
        a0,
        a1,
        a2,
        r1,
        r2,
        s,
        t,
        s0,
        r0,
        k,
        l,
    }
}

// The first of the three polynomials of a double.
fn first_twin(modulus: Modulus, o: Lower, n: [u32; 9], w: Parts) -> Column
    requires { TwinAsked modulus.p o n w }
    ensures { FirstTwin modulus.p o n w result }
{
    let t0 = field::neg(modulus.p, n[3]);
    let one = chains::sum(modulus, t0, [(n[2], w.s0), (o.n11, n[0])], [(w.s, w.t)]);
    let t1 = field::add(modulus.p, w.t, n[4]);
    let t2 = field::neg(modulus.p, t1);
    let x = modulus.more1(t2, o.n11, n[5]);
    let t3 = field::sub(modulus.p, w.s, n[5]);
    let y = modulus.more1(t3, o.n11, n[2]);
    Column { one, x, y }
}

// The second of the three polynomials of a double.
fn second_twin(modulus: Modulus, o: Lower, n: [u32; 9], w: Parts) -> Column
    requires { TwinAsked modulus.p o n w }
    ensures { SecondTwin modulus.p o n w result }
{
    let t0 = field::neg(modulus.p, n[6]);
    let t1 = field::add(modulus.p, w.r0, w.a0);
    let one = chains::sum(modulus, t0, [(n[2], t1), (o.n11, n[3])], [(n[4], w.t)]);
    let t2 = field::neg(modulus.p, n[7]);
    let t3 = field::add(modulus.p, w.r1, w.a1);
    let x = modulus.more1(t2, n[2], t3);
    let t4 = field::add(modulus.p, w.t, n[8]);
    let t5 = field::sub(modulus.p, n[4], t4);
    let y = chains::sum(modulus, t5, [(n[2], w.l), (o.n11, n[5])], []);
    Column { one, x, y }
}

// The third of the three polynomials of a double.
fn third_twin(modulus: Modulus, o: Lower, n: [u32; 9], w: Parts) -> Column
    requires { TwinAsked modulus.p o n w }
    ensures { ThirdTwin modulus.p o n w result }
{
    let one = chains::sum(
        modulus,
        0,
        [(w.k, n[0]), (w.l, n[3]), (n[4], w.s0)],
        [(w.s, w.r0)],
    );
    let t0 = field::add(modulus.p, w.a0, w.r0);
    let t1 = field::neg(modulus.p, t0);
    let x = chains::sum(modulus, t1, [(w.k, n[1]), (w.l, n[4])], [(w.s, w.r1)]);
    let y = chains::sum(modulus, w.s0, [(w.k, n[2]), (w.l, n[5])], [(w.s, w.r2)]);
    Column { one, x, y }
}

// The matrix of a sum.
pub fn sum_matrix(modulus: Modulus, n: [u32; 9], m: [u32; 9]) -> [[u32; 5]; 3]
    requires { SumMatrixAsked modulus.p n m }
    ensures { SumMatrix modulus.p n m result }
{
    let a = difference(modulus.p, n[0], n[1], n[2], m[0], m[1], m[2]);
    let b = difference(modulus.p, n[3], n[4], n[5], m[3], m[4], m[5]);
    let c = difference(modulus.p, n[6], n[7], n[8], m[6], m[7], m[8]);
    let d = shifted(modulus, a, m);
    let e = shifted(modulus, b, m);
    matrix::rows(a, b, c, d, e)
}

// The matrix of a double.
pub fn double_matrix(modulus: Modulus, o: Lower, n: [u32; 9]) -> [[u32; 5]; 3]
    requires { PartsAsked modulus.p o n }
    ensures { DoubleMatrix modulus.p o n result }
{
    let w = parts_of(modulus, o, n);
    let a = first_twin(modulus, o, n, w);
    let b = second_twin(modulus, o, n, w);
    let c = third_twin(modulus, o, n, w);
    let d = shifted(modulus, a, n);
    let e = shifted(modulus, b, n);
    matrix::rows(a, b, c, d, e)
}
