// The quotients of nine fractions modulo p, of a record of fractions. Crate record, specs/Fractions.antt, says what the fractions are.
#![tactic(auto)]

ghost use Rattle.std.specs.Prelude.{◌<◌};
ghost use Rattle.field.specs.Residue.{el};
ghost use Rattle.field.specs.Contract.{Is};
ghost use Rattle.record.specs.Fractions.{signed, residue, numerator as numerator-of, denominator as denominator-of};
ghost use Rattle.quotients.specs.Contract.{FractionAsked, ResiduesAsked, Residues, ProductsAsked, Products, QuotientsAsked, Quotients};

// The signed number that has the 32 bits of n, modulo p. From 2³¹ on it is negative: what is missing to 2³² is negated.
fn signed_residue(n: u32, p: u32) -> u32
    requires { 0 < p }
    ensures { Is p result (residue p (signed n)) }
{
    if n < 2147483648 {
        return n % p;
    }
    field::neg(p, (4294967295 - n + 1) % p)
}

// The numerator of the coefficient i, modulo p.
fn numerator(s: &[u8], i: usize, p: u32) -> u32
    requires { FractionAsked s.now i p }
    ensures { Is p result (residue p (numerator-of s.now i)) }
{
    let n = layout::read_u32(s, 4 + 8 * i);
    signed_residue(n, p)
}

// The denominator of the coefficient i, modulo p.
fn denominator(s: &[u8], i: usize, p: u32) -> u32
    requires { FractionAsked s.now i p }
    ensures { Is p result (el p (denominator-of s.now i)) }
{
    let d = layout::read_u32(s, 8 + 8 * i);
    d % p
}

// The nine denominators modulo p.
pub fn residues(s: &[u8], p: u32) -> [u32; 9]
    requires { ResiduesAsked s.now p }
    ensures { Residues s.now p result }
{
    let mut r = [0u32; 9];
    for i in 0..9 {
        r[i] = denominator(s, i, p);
    }
    r
}

// The products of the numbers before each place of d, modulo p, and last the product of all.
pub fn products(p: u32, d: [u32; 9]) -> [u32; 10]
    requires { ProductsAsked p d }
    ensures { Products p d result }
{
    let mut r = [1u32; 10];
    for i in 0..9 {
        r[i + 1] = field::mul(p, r[i], d[i]);
    }
    r
}

// The nine quotients modulo p, from the last to the first, with one inversion: unit is the inverse of the product of the denominators before
// place i, first of all nine. Times the product before the place below, it is the inverse of the denominator there.
pub fn quotients(s: &[u8], p: u32, d: [u32; 9], before: [u32; 10]) -> [u32; 9]
    requires { QuotientsAsked s.now p d before }
    ensures { Quotients s.now p result }
{
    let mut r = [0u32; 9];
    let mut unit = inversion::inverse(p, before[9]);
    for i in (0..9).rev() {
        let n = numerator(s, i, p);
        let inverse = field::mul(p, before[i], unit);
        let quotient = field::mul(p, n, inverse);
        r[i] = quotient;
        unit = field::mul(p, unit, d[i]);
    }
    r
}
