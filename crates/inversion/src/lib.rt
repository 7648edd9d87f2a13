// The inverse modulo a prime p of a number below p, by the binary algorithm of Euclid.
#![tactic(auto)]

ghost use Rattle.field.specs.Residue.{Z, el};
ghost use Rattle.field.specs.Contract.{Invertible, Is};
ghost use Rattle.field.specs.Inverse.{inverse as inv};
ghost use Rattle.std.specs.Prelude.{◌≡◌, ◌^◌, ◌≤◌};
ghost use Rattle.inversion.specs.Contract.{Low, Odd, Opposite, OppositeOf, HalfAsked, Half, EndAsked, End};

use std::hint::select_unpredictable;

// x·y modulo 2^32
fn low(x: u64, y: u64) -> u64
    requires { Low x y }
    ensures { Is 4294967296 result ((Z 4294967296).mul (el 4294967296 x) (el 4294967296 y)) }
{
    x * y % 4294967296
}

// −1/p modulo 2^32: with u = −p and e = 1 + p·u, a multiple of 8, it is u·(1 + e)·(1 + e²)·(1 + e⁴)·(1 + e⁸), for p times
// this is e¹⁶ − 1
fn opposite(p: u64) -> u64
    requires { Odd p }
    ensures { Opposite p result }
{
    let u = 4294967296 - p;
    let e = (low(p, u) + 1) % 4294967296;
    let f = low(e, e);
    let g = low(f, f);
    let h = low(g, g);
    let a = low(u, e + 1);
    let b = low(a, f + 1);
    let c = low(b, g + 1);
    low(c, h + 1)
}

// −1/p modulo 2^32 for an odd p, and 0 for an even one
pub fn opposite_of(p: u32) -> u64
    ensures { OppositeOf p result }
{
    if p % 2 == 0 {
        return 0;
    }
    opposite(p as u64)
}

// 2^j
fn power(j: u32) -> u64
    requires { j ≤ 32 }
    ensures { result ≡ 2 ^ j }
{
    1u64 << j
}

// c / 2^j modulo p: with m·p added c is divisible by 2^j
fn halved(p: u64, v: u64, c: u64, j: u32) -> u64
    requires { HalfAsked p v c j }
    ensures { Half p c j result }
{
    let m = c * v % power(j);
    (c + m * p) >> j
}

// c / 2^k modulo p, or its negative, by two divisions of at most 32 bits
fn ended(p: u64, v: u64, c: u64, k: u32, negative: bool) -> u64
    requires { EndAsked p v c k }
    ensures { End p c k negative result }
{
    let h = k / 2;
    let l = k - h;
    let s = halved(p, v, c, h);
    let r = halved(p, v, s, l);
    if negative { p - r } else { r }
}

// a⁻¹ for a prime p, and 0 for a = 0, where v is −1/p modulo 2^32 if p is odd. In each turn x and y are odd and
// x·cy + y·cx = p, and modulo p a·cy = 2^k·y and a·cx = −2^k·x, or both with the other sign. The difference of x and y
// takes the place of the greater, with its factors of 2 taken out.
pub fn inverse_by(p: u32, v: u64, a: u32) -> u32
    requires invertible { Invertible p a }
    requires opposite_of { OppositeOf p v }
    ensures { Is p result (inv p (el p a)) }
{
    if a < 2 {
        return a;
    }
    let w = p as u64;
    let mut k = u64::trailing_zeros(a as u64);
    let mut x = w;
    let mut y = (a as u64) >> k;
    let mut cx: u64 = 0;
    let mut cy: u64 = 1;
    let mut negative = false;
    while y != 1 {
        let less = x < y;
        let up = std::num::wrapping_sub_u64(y, x);
        let down = std::num::wrapping_sub_u64(x, y);
        let z = u64::trailing_zeros(down);
        let d = select_unpredictable(less, up, down);
        let c = select_unpredictable(less, cx, cy);
        y = select_unpredictable(less, x, y);
        cx = cx + cy;
        cy = c << z;
        x = d >> z;
        k = k + z;
        negative = negative ^ less;
    }
    ended(w, v, cy, k, negative) as u32
}

// a⁻¹ for a prime p, and 0 for a = 0
pub fn inverse(p: u32, a: u32) -> u32
    requires { Invertible p a }
    ensures { Is p result (inv p (el p a)) }
{
    let v = opposite_of(p);
    inverse_by(p, v, a)
}
