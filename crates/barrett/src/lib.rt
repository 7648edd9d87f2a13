// Sums of products modulo p, for every p below 2^31. Four products at most are added to a number below p or taken from it, in 64 bits, and the sum is reduced once, without
// a division: two products by the factor of the modulus, more by its reciprocal.
#![tactic(auto)]

ghost use Rattle.std.specs.Prelude.{◌≡◌};
ghost use Rattle.barrett.specs.Divides.{Divides};
ghost use Rattle.barrett.specs.Contract.{high_half};

// A modulus p, and how numbers are divided by it without a division: the reciprocal is ⌊(2^64 − 1)/p⌋, a number below 2^63 times the factor over
// 2^(64 + shift) is its quotient by p, and the opposite is −1/p modulo 2^32 where p is odd.
#[derive(Clone, Copy)]
pub struct Modulus {
    pub p: u32,
    pub reciprocal: u64,
    pub factor: u64,
    pub shift: u32,
    pub opposite: u64,
    pub ghost divides: { Divides p reciprocal factor shift opposite },
}

// the high half of x·k, by the four products of their halves
pub fn high(x: u64, k: u64) -> u64
    ensures { result ≡ high_half x k }
{
    let x0 = x % 4294967296;
    let x1 = x / 4294967296;
    let k0 = k % 4294967296;
    let k1 = k / 4294967296;
    let m = x1 * k0 + x0 * k0 / 4294967296;
    let n = x0 * k1 + m % 4294967296;
    x1 * k1 + m / 4294967296 + n / 4294967296
}

impl Modulus {
    ghost use Rattle.std.specs.Prelude.{◌<◌};
    ghost use Rattle.field.specs.Residue.{Z, el};
    ghost use Rattle.field.specs.Contract.{Is};
    ghost use Rattle.barrett.specs.Contract.{dot₃, cross₂, more₁, less₁, less₂, less₃, Small₂, Small₃, Below₄, Below₅, Below₆, Below₇, Sum, Terms};

    // x modulo p: q = the high half of x·⌊(2^64 − 1)/p⌋ is the quotient or one less
    pub fn reduce(self, x: u64) -> u32
        ensures { Is self.p result (el self.p x) }
    {
        let w = self.p as u64;
        let q = high(x, self.reciprocal);
        let r = x - q * w;
        if r < w { r as u32 } else { (r - w) as u32 }
    }

    // x modulo p for x below 2^63, such as a sum of two products: the factor gives the quotient itself
    pub fn reduce_half(self, x: u64) -> u32
        requires { x < 9223372036854775808 }
        ensures { Is self.p result (el self.p x) }
    {
        let w = self.p as u64;
        let q = high(x, self.factor) >> self.shift;
        (x - q * w) as u32
    }

    // a·b, as a sum
    pub fn product(self, a: u32, b: u32) -> u64
        requires { Terms self.p 0 a b }
        ensures { Sum self.p 0 result ((Z self.p).mul (el self.p a) (el self.p b)) }
    {
        (a as u64) * (b as u64)
    }

    // x + a·b, as a sum
    pub fn add_product(self, x: u64, a: u32, b: u32) -> u64
        requires { Terms self.p x a b }
        ensures { Sum self.p x result (more₁ (Z self.p) (el self.p x) (el self.p a) (el self.p b)) }
    {
        x + (a as u64) * (b as u64)
    }

    // x − a·b, as the sum x + (p² − a·b)
    pub fn sub_product(self, x: u64, a: u32, b: u32) -> u64
        requires { Terms self.p x a b }
        ensures { Sum self.p x result (less₁ (Z self.p) (el self.p x) (el self.p a) (el self.p b)) }
    {
        x + ((self.p as u64) * (self.p as u64) - (a as u64) * (b as u64))
    }

    // a·b
    pub fn mul(self, a: u32, b: u32) -> u32
        requires { Small₂ self.p a b }
        ensures { Is self.p result ((Z self.p).mul (el self.p a) (el self.p b)) }
    {
        self.reduce_half((a as u64) * (b as u64))
    }

    // a·b − c·d
    pub fn cross(self, a: u32, b: u32, c: u32, d: u32) -> u32
        requires { Below₄ self.p a b c d }
        ensures { Is self.p result (cross₂ (Z self.p) (el self.p a) (el self.p b) (el self.p c) (el self.p d)) }
    {
        let s = self.product(a, b);
        self.reduce_half(self.sub_product(s, c, d))
    }

    // a·b + c·d + e·f
    pub fn dot3(self, a: u32, b: u32, c: u32, d: u32, e: u32, f: u32) -> u32
        requires { Below₆ self.p a b c d e f }
        ensures { Is self.p result (dot₃ (Z self.p) (el self.p a) (el self.p b) (el self.p c) (el self.p d) (el self.p e) (el self.p f)) }
    {
        let s = self.product(a, b);
        let t = self.add_product(s, c, d);
        self.reduce(self.add_product(t, e, f))
    }

    // x + a·b
    pub fn more1(self, x: u32, a: u32, b: u32) -> u32
        requires { Small₃ self.p x a b }
        ensures { Is self.p result (more₁ (Z self.p) (el self.p x) (el self.p a) (el self.p b)) }
    {
        self.reduce_half((x as u64) + (a as u64) * (b as u64))
    }

    // x − a·b
    pub fn less1(self, x: u32, a: u32, b: u32) -> u32
        requires { Small₃ self.p x a b }
        ensures { Is self.p result (less₁ (Z self.p) (el self.p x) (el self.p a) (el self.p b)) }
    {
        self.reduce_half((x as u64) + (a as u64) * ((self.p - b) as u64))
    }

    // x − (a·b + c·d)
    pub fn less2(self, x: u32, a: u32, b: u32, c: u32, d: u32) -> u32
        requires { Below₅ self.p x a b c d }
        ensures { Is self.p result (less₂ (Z self.p) (el self.p x) (el self.p a) (el self.p b) (el self.p c) (el self.p d)) }
    {
        let s = self.sub_product(x as u64, a, b);
        self.reduce_half(self.sub_product(s, c, d))
    }

    // x − (a·b + c·d + e·f)
    pub fn less3(self, x: u32, a: u32, b: u32, c: u32, d: u32, e: u32, f: u32) -> u32
        requires { Below₇ self.p x a b c d e f }
        ensures { Is self.p result (less₃ (Z self.p) (el self.p x) (el self.p a) (el self.p b) (el self.p c) (el self.p d) (el self.p e) (el self.p f)) }
    {
        let s = self.sub_product(x as u64, a, b);
        let t = self.sub_product(s, c, d);
        self.reduce(self.sub_product(t, e, f))
    }
}
