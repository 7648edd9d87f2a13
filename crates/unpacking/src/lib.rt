// A number of w bits read of a slice of bytes, across the borders of bytes. Crate packing, specs/Packing.antt, says which bits stand where.
#![tactic(auto)]

ghost use Rattle.std.specs.Prelude.{◌≡◌, ◌+◌, ◌/◌, ◌%◌, ◌^◌, ◌≤◌, ◌<◌, length, drop};
ghost use Rattle.packing.specs.Packing.{packed};

// The number of the bytes from place `at` on, at most four of them.
fn last(s: &[u8], at: usize) -> u64
    requires { length s.now < at + 5 }
    ensures { result ≡ packed 8 (drop at s.now) }
{
    let mut n = 0u64;
    for i in (at..s.len()).rev() {
        n = (n << 8) | (s[i] as u64);
    }
    n
}

// The lowest 40 bits of the number of the bytes from place `at` on.
fn five(s: &[u8], at: usize) -> u64
    requires { at ≤ 65536 }
    ensures { result ≡ packed 8 (drop at s.now) % 2 ^ 40 }
{
    if s.len() < at + 5 {
        return last(s, at);
    }
    let low = layout::read_u32(s, at);
    let high = s[at + 4];
    ((high as u64) << 32) | (low as u64)
}

// The number of w bits from bit `from` of s on; bits past the end are 0.
pub fn read_bits(s: &[u8], from: usize, w: u32) -> u32
    requires w_bound { w ≤ 32 }
    requires from_bound { from ≤ 65536 }
    ensures { result ≡ packed 8 s.now / 2 ^ from % 2 ^ w }
{
    let at = from >> 3;
    let skip = from & 7;
    let mask = (1u64 << w) - 1;
    ((five(s, at) >> skip) & mask) as u32
}
