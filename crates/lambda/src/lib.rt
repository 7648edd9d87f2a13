// The functional Λ of a monic f, by its values: lam[n] is Λ(mono n). Λ is 0 below d + 5, 1 at d + 5 and 0 at every multiple of
// f, d the degree of f.
#![tactic(auto)]

ghost use Rattle.lambda.specs.Lambda.{ValueAsked, Valued, ValueAtAsked, ValueAt, OppositeAsked, OppositeOf, FunctionalAsked, FunctionalOf};

// What the parts of the star of a triple share: the modulus, the inverse of −a0, and the degrees of its members f, u and w.
#[derive(Clone, Copy)]
pub struct Pose {
    pub p: u32,
    pub unit: u32,
    pub d: usize,
    pub d1: usize,
    pub d2: usize,
}

// Λ(x^(s/3)·v), for lam that is 0 below c: the products lam[n]·v[n − s] are 0 below c and s, and from `to` on.
fn value(p: u32, lam: &[u32; 26], c: usize, v: &[u32; 26], s: usize, to: usize) -> u32
    requires { ValueAsked p lam.now c v.now s to }
    ensures { Valued p lam.now v.now s result }
{
    if c < s {
        return vector::dot(p, lam, v, s, s, to);
    }
    vector::dot(p, lam, v, s, c, to)
}

// Λ(mono n·x^(h/3)·g) from the y-multiples of g, of degree e.
pub fn value_at(q: Pose, lam: &[u32; 26], ys: &[[u32; 26]; 3], e: usize, n: usize, h: usize) -> u32
    requires { ValueAtAsked q lam.now ys.now e n h }
    ensures { ValueAt q lam.now ys.now n h result }
{
    let j = n % 3;
    value(q.p, lam, q.d + 5, &ys[j], n - 4 * j + h, n + h + e + 1)
}

// −v over the lead of a product of two monic elements, whose classes modulo 3 add up to m: that lead is 1, or −a0 where a y³
// comes up.
pub fn opposite(q: Pose, m: usize, v: u32) -> u32
    requires { OppositeAsked q v }
    ensures { OppositeOf q m v result }
{
    if m < 3 {
        return field::neg(q.p, v);
    }
    let w = field::mul(q.p, q.unit, v);
    field::neg(q.p, w)
}

// The functional of a monic f from f's y-multiples: lam[d + s] makes it zero at mono s·f.
pub fn functional(q: Pose, ys: &[[u32; 26]; 3]) -> [u32; 26]
    requires { FunctionalAsked q ys.now }
    ensures { FunctionalOf q ys.now result }
{
    let mut lam = [0u32; 26];
    lam[q.d + 5] = 1;
    for s in 6..14 {
        let j = s % 3;
        let v = value(q.p, &lam, q.d + 5, &ys[j], s - 4 * j, q.d + s);
        lam[q.d + s] = opposite(q, j + q.d % 3, v);
    }
    lam
}
