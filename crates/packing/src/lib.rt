// Numbers of w bits packed one behind the other in a slice of bytes: shifts and masks place each number across the borders of bytes. specs/Packing.antt says
// which bits stand where.
#![tactic(auto)]

ghost use Rattle.std.specs.Prelude.{◌≡◌, ◌-◌, ◌≤◌, length};
ghost use Rattle.packing.specs.Packing.{packed, filled};
ghost use Rattle.packing.specs.Contract.{LengthOf, laid, PackAsked};

// The bit length of n.
pub fn bit_length(n: u32) -> u32
    ensures { LengthOf n result }
{
    32 - n.leading_zeros()
}

// Writes the numbers of ns, w bits each, from place `at` on: four bytes at a time, and at the end the bytes that are left. The lowest
// `bits` bits of `held` are those that are not yet written.
pub fn pack(out: &mut [u8], at: usize, ns: &[u32], w: u32)
    requires { PackAsked out.old at ns.now w }
    ensures { out.new ≡ laid out.old at (filled w (length ns.now)) (packed w ns.now) }
{
    let mut done = 0;
    let mut held = 0u64;
    let mut bits = 0;
    for n in ns {
        held |= u64::from(*n) << bits;
        bits += w;
        if bits >= 32 {
            writing::write_u32(out, at + done, (held & 4294967295) as u32);
            done += 4;
            held >>= 32;
            bits -= 32;
        }
    }
    let place = at + done;
    let left = bits.div_ceil(8) as usize;
    bytes(out, place, place + left, held);
}

// Writes the bytes of n, the lowest first, from place `at` on, up to `end`.
fn bytes(out: &mut [u8], at: usize, end: usize, n: u64)
    requires at_le_end { at ≤ end }
    requires end_in_bounds { end ≤ length out.old }
    ensures { out.new ≡ laid out.old at (end - at) n }
{
    let mut left = n;
    for place in at..end {
        out[place] = (left & 255) as u8;
        left >>= 8;
    }
}
