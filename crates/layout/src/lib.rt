// The bytes of a record: reading little-endian numbers in a slice of bytes.
// specs/Layout.antt says what the numbers and the bytes are.
#![tactic(auto)]

ghost use Rattle.std.specs.Prelude.{◌+◌, ◌≤◌, length};
ghost use Rattle.layout.specs.Contract.{Read2, Read4};

// The two-byte number at place `at`.
#[tactic(auto, unfolding(crate::specs::Layout::number2))]
pub fn read_u16(s: &[u8], at: usize) -> u32
    requires { at + 2 ≤ length s.now }
    ensures { Read2 s.now at result }
{
    u32::from(u16::from_le_bytes([s[at], s[at + 1]]))
}

// The four-byte number at place `at`.
#[tactic(auto, unfolding(crate::specs::Layout::number4))]
pub fn read_u32(s: &[u8], at: usize) -> u32
    requires { at + 4 ≤ length s.now }
    ensures { Read4 s.now at result }
{
    u32::from_le_bytes([s[at], s[at + 1], s[at + 2], s[at + 3]])
}
