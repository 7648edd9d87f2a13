// The formulas for the sum of two divisors of kind 31 from the row-reduced form of their matrix. The product of their ideals has the elements
// u = x³ + u5·y² + u4·xy + u3·x² + u2·y + u1·x + u0 and v = x²y + v5·y² + v4·xy + v3·x² + v2·y + v1·x + v0, and the sum has the polynomials f, g and h for which
// f·v = u·(g + a0·u5·f) and f2·h = (y + g1)·f − (x + f1 − g2)·g; comparing coefficients gives its numbers.
#![tactic(auto)]

ghost use Rattle.formulas.specs.Contract.{FactorsAsked, FactorsOf, TailAsked, TailOf, HeadAsked, HeadOf, BodyAsked, BodyOf, LastAsked, LastOf, InversesAsked, InversesOf};

use barrett::Modulus;
use basis::Divisor;
use entries::Lower;
use matrix::Column;

// u1, u2, u3, u4, or v1, v2, v3, v4.
#[derive(Clone, Copy)]
pub struct Tail {
    pub t1: u32,
    pub t2: u32,
    pub t3: u32,
    pub t4: u32,
}

// l = a0·u5, q = l·u5 − v5, f2, k2 = u3 − c7·u5, r0 = f1 − g2, g1, e3 = v3 − l·u3 and e4 = v4 − l·u4.
#[derive(Clone, Copy)]
pub struct Head {
    pub l: u32,
    pub q: u32,
    pub f2: u32,
    pub k2: u32,
    pub r0: u32,
    pub g1: u32,
    pub e3: u32,
    pub e4: u32,
}

#[derive(Clone, Copy)]
pub struct Body {
    pub g2: u32,
    pub f1: u32,
    pub f0: u32,
    pub g0: u32,
}

#[derive(Clone, Copy)]
pub struct Last {
    pub h0: u32,
    pub h1: u32,
    pub h2: u32,
}

// y = z²·f2 for the determinant z and the f2 of the sum, z·y and z³.
#[derive(Clone, Copy)]
pub struct Factors {
    pub y: u32,
    pub zy: u32,
    pub zzz: u32,
}

// The inverse of z, and z²/y.
#[derive(Clone, Copy)]
pub struct Inverses {
    pub one: u32,
    pub two: u32,
}

// The inverse of z and z²/y, where z·y is not 0, by one inversion.
pub fn inverses_of(modulus: Modulus, f: Factors) -> Inverses
    requires { InversesAsked modulus.p f }
    ensures { InversesOf modulus.p f result }
{
    let w = inversion::inverse_by(modulus.p, modulus.opposite, f.zy);
    let one = modulus.mul(f.y, w);
    let two = modulus.mul(f.zzz, w);
    Inverses { one, two }
}

// The square of the determinant z times f2 of the sum, by z times the row-reduced form: b is its entry in row 2 and column 4, c and e those in row 3 and columns 4 and 5. Its
// product with z is formed beside it, not after it.
pub fn factors_of(modulus: Modulus, o: Lower, f2: u32, z: u32, b: u32, c: u32, e: u32) -> Factors
    requires { FactorsAsked modulus.p o f2 z b c e }
    ensures { FactorsOf modulus.p o f2 z b c e result }
{
    let w0 = field::sub(modulus.p, e, b);
    let w1 = chains::sum(modulus, w0, [(z, f2)], [(o.n11, c)]);
    let w2 = modulus.mul(o.n12, c);
    let zz = modulus.mul(z, z);
    let zc = modulus.mul(z, c);
    let zy = modulus.cross(zz, w1, w2, zc);
    let y = modulus.cross(z, w1, w2, c);
    let zzz = modulus.mul(zz, z);
    Factors { y, zy, zzz }
}

// The numbers of x·q less v0·f + v1·g + v2·h at x, y, x² and xy, for the polynomial q with the numbers q0, q1, q2.
pub fn tail_of(modulus: Modulus, n: Divisor, q0: u32, q1: u32, q2: u32, v: Column) -> Tail
    requires { TailAsked modulus.p n q0 q1 q2 v }
    ensures { TailOf modulus.p n q0 q1 q2 v result }
{
    let t1 = modulus.less3(q0, v.one, n.n1, v.x, n.n4, v.y, n.n7);
    let t2 = modulus.less3(0, v.one, n.n2, v.x, n.n5, v.y, n.n8);
    let t3 = field::sub(modulus.p, q1, v.one);
    let t4 = field::sub(modulus.p, q2, v.x);
    Tail { t1, t2, t3, t4 }
}

// f2, g1 and f1 − g2 of the sum, and what they are made of; a and b are −u5 and −v5.
pub fn head_of(modulus: Modulus, o: Lower, u: Tail, v: Tail, a: u32, b: u32) -> Head
    requires { HeadAsked modulus.p o u v a b }
    ensures { HeadOf modulus.p o u v a b result }
{
    let l = modulus.mul(o.n12, a);
    let q = modulus.less1(b, l, a);
    let w1 = field::add(modulus.p, u.t4, q);
    let f2 = modulus.less1(w1, o.n11, a);
    let k2 = modulus.less1(u.t3, o.n10, a);
    let w2 = field::sub(modulus.p, k2, v.t4);
    let w3 = field::add(modulus.p, f2, u.t4);
    let r0 = modulus.more1(w2, l, w3);
    let w4 = modulus.mul(o.n12, f2);
    let w5 = field::add(modulus.p, u.t3, r0);
    let g1 = chains::sum(modulus, v.t3, [(o.n9, a)], [(l, w5), (w4, q)]);
    let e3 = modulus.less1(v.t3, l, u.t3);
    let e4 = modulus.less1(v.t4, l, u.t4);
    Head {
        l,
        q,
        f2,
        k2,
        r0,
        g1,
        e3,
        e4,
    }
}

// g2, f1, f0 and g0 of the sum; i is the inverse of f2.
pub fn body_of(modulus: Modulus, o: Lower, u: Tail, v: Tail, a: u32, h: Head, i: u32) -> Body
    requires { BodyAsked modulus.p o u v a h i }
    ensures { BodyOf modulus.p o u v a h i result }
{
    let m = modulus.less1(h.e4, o.n11, h.q);
    let w1 = field::neg(modulus.p, u.t2);
    let w2 = field::add(modulus.p, h.g1, o.n8);
    let w = chains::sum(modulus, w1, [(h.f2, m), (a, w2)], [(h.q, h.r0)]);
    let g2 = modulus.mul(i, w);
    let f1 = field::add(modulus.p, h.r0, g2);
    let k1 = modulus.less1(h.e3, o.n10, h.q);
    let w3 = field::sub(modulus.p, u.t1, v.t2);
    let w4 = chains::sum(
        modulus,
        w3,
        [(h.g1, u.t4), (h.l, u.t2)],
        [(h.f2, k1), (o.n7, a)],
    );
    let f0 = chains::sum(modulus, w4, [(g2, h.k2)], [(f1, h.e4)]);
    let k3 = modulus.cross(h.f2, h.q, g2, a);
    let w5 = chains::sum(modulus, v.t1, [(o.n6, a)], [(h.g1, u.t3)]);
    let w6 = field::add(modulus.p, f0, u.t1);
    let g0 = chains::sum(modulus, w5, [(f1, h.e3)], [(o.n9, k3), (h.l, w6)]);
    Body { g2, f1, f0, g0 }
}

// h0, h1 and h2 of the sum; i is the inverse of f2.
pub fn last_of(modulus: Modulus, h: Head, b: Body, i: u32) -> Last
    requires { LastAsked modulus.p h b i }
    ensures { LastOf modulus.p h b i result }
{
    let k = modulus.mul(i, h.r0);
    let l = modulus.mul(i, h.g1);
    let h2 = chains::sum(modulus, h.g1, [(i, b.f0)], [(b.g2, k)]);
    let h1 = modulus.cross(l, b.g2, i, b.g0);
    let h0 = modulus.cross(b.f0, l, b.g0, k);
    Last { h0, h1, h2 }
}
