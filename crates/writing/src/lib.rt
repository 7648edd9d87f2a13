// Writing little-endian numbers in a slice of bytes, and whole records. Crate layout,
// specs/Layout.antt, says what the bytes are.
#![tactic(auto)]

ghost use Rattle.std.specs.Prelude.{◌≡◌, ◌++◌, ◌+◌, ◌*◌, ◌≤◌, ◌<◌, length, take, drop};
ghost use Rattle.layout.specs.Layout.{bytes2, bytes4, all_bytes4, record_bytes};

// Writes v as a two-byte number at place `at`.
#[tactic(auto, unfolding(layout::specs::Layout::bytes2))]
pub fn write_u16(s: &mut [u8], at: usize, v: u32)
    requires at_in_bounds { at + 2 ≤ length s.old }
    requires v_bound { v < 65536 }
    ensures { s.new ≡ take at s.old ++ bytes2 v ++ drop (at + 2) s.old }
{
    s[at..at + 2].copy_from_slice(&(v as u16).to_le_bytes());
}

// Writes v as a four-byte number at place `at`.
#[tactic(auto, unfolding(layout::specs::Layout::bytes4))]
pub fn write_u32(s: &mut [u8], at: usize, v: u32)
    requires { at + 4 ≤ length s.old }
    ensures { s.new ≡ take at s.old ++ bytes4 v ++ drop (at + 4) s.old }
{
    s[at..at + 4].copy_from_slice(&v.to_le_bytes());
}

// Writes the numbers of ns, four bytes each, from place `at` on.
pub fn write_numbers(out: &mut [u8], at: usize, ns: &[u32])
    requires { at + 4 * length ns.now ≤ length out.old }
    ensures { out.new ≡ take at out.old ++ all_bytes4 ns.now ++ drop (at + 4 * length ns.now) out.old }
{
    for (i, n) in ns.iter().enumerate() {
        write_u32(out, at + 4 * i, *n);
    }
}

// Writes the record of the numbers of ns at the start of `out`, and returns its length.
pub fn write_record(out: &mut [u8], kind: u32, ns: &[u32]) -> usize
    requires length_bound { 4 + 4 * length ns.now < 65536 }
    requires kind_bound { kind < 65536 }
    requires in_bounds { 4 + 4 * length ns.now ≤ length out.old }
    ensures size { result ≡ 4 + 4 * length ns.now }
    ensures written { out.new ≡ record_bytes kind ns.now ++ drop (4 + 4 * length ns.now) out.old }
{
    let size = 4 + 4 * ns.len();
    write_u16(out, 0, size as u32);
    write_u16(out, 2, kind);
    write_numbers(out, 4, ns);
    size
}
