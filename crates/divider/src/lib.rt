// The modulus p with what divides by it without a division, made once for a curve.
#![tactic(auto)]

ghost use Rattle.std.specs.Prelude.{◌≡◌};
ghost use Rattle.divider.specs.Contract.{DividerAsked};

use barrett::Modulus;

// The modulus p. With 2^s < p ≤ 2^(s + 1) the factor is ⌊2^(64 + s)/p⌋ + 1, by two divisions.
pub fn of(p: u32) -> Modulus
    requires { DividerAsked p }
    ensures { result.p ≡ p }
{
    let w = p as u64;
    let shift = 31 - u32::leading_zeros(p - 1);
    let n = 4294967296u64 << shift;
    let high = n / w;
    let low = (n % w) * 4294967296 / w;
    let opposite = inversion::opposite_of(p);
    Modulus {
        p,
        reciprocal: 18446744073709551615 / w,
        factor: high * 4294967296 + low + 1,
        shift,
        opposite,
    }
}
