// Vectors of residues modulo p, indexed by pole number. A vector is 26 numbers below p, 0 at the places 1, 2 and 5.
// The vector that a loop works on is lent, and loops end at the degree.
#![tactic(auto)]

ghost use Rattle.field.specs.Contract.{Is};
ghost use Rattle.vector.specs.Contract.{AxpyAsked, Added, ClearAsked, Cleared, MonicAsked, MadeMonic, DotAsked, pairing, ZeroAsked, ZeroTest, ScaleAsked, Scaled};

// c·x^(s/3)·b added to r, for b below e.
pub fn axpy(p: u32, r: &mut [u32; 26], c: u32, b: &[u32; 26], s: usize, e: usize)
    requires { AxpyAsked p r.old c b.now s e }
    ensures { Added p r.old c b.now s e r.new }
{
    if c == 0 {
        return;
    }
    for i in 0..e {
        let a = b[i];
        if a == 0 {
            continue;
        }
        let n = i + s;
        r[n] = field::mul_add(p, c, a, r[n]);
    }
}

// v less the multiple of the monic b of degree d that takes v[n] away.
pub fn clear(p: u32, v: &mut [u32; 26], n: usize, b: &[u32; 26], d: usize)
    requires { ClearAsked p v.old n b.now d }
    ensures { Cleared p v.old n b.now d v.new }
{
    let c = field::neg(p, v[n]);
    axpy(p, v, c, b, n - d, d);
    v[n] = 0;
}

// v over its lead, which stands at m.
pub fn make_monic(p: u32, v: &mut [u32; 26], m: usize)
    requires { MonicAsked p v.old m }
    ensures { MadeMonic p v.old m v.new }
{
    let lead = v[m];
    if lead != 1 {
        let c = inversion::inverse(p, lead);
        scale(p, v, c, m);
        v[m] = 1;
    }
}

// The sum of a[n]·b[n − s] for n from `from` up to `to`.
pub fn dot(p: u32, a: &[u32; 26], b: &[u32; 26], s: usize, from: usize, to: usize) -> u32
    requires { DotAsked p a.now b.now s from to }
    ensures { Is p result (pairing p a.now b.now s from to) }
{
    let mut r = 0;
    for n in from..to {
        r = field::mul_add(p, a[n], b[n - s], r);
    }
    r
}

// Is v, which is below top, zero?
pub fn is_zero(v: &[u32; 26], top: usize) -> bool
    requires { ZeroAsked v.now top }
    ensures { ZeroTest v.now result }
{
    v[..top].iter().all(|&a| a == 0)
}

// c·v, for v below e: the numbers from e on stay.
fn scale(p: u32, v: &mut [u32; 26], c: u32, e: usize)
    requires { ScaleAsked p v.old c e }
    ensures { Scaled p v.old c e v.new }
{
    for a in &mut v[..e] {
        *a = field::mul(p, c, *a);
    }
}
