// The short record of a divisor by value, written in a slice of bytes. Crate short, specs/Short.antt, says what its bytes are.
#![tactic(auto)]

ghost use Rattle.short_writer.specs.Contract.{ShortWriteAsked, ShortWriteAnswer};

use basis::Divisor;

// Writes the short record of a divisor at the start of `out`, and returns its length.
pub fn write_short(p: u32, x: Divisor, out: &mut [u8]) -> usize
    requires { ShortWriteAsked p x out.old }
    ensures { ShortWriteAnswer p x out.old out.new result }
{
    let w = packing::bit_length(p - 1);
    let count = x.kind.count();
    let ns = [x.n0, x.n1, x.n2, x.n3, x.n4, x.n5, x.n6, x.n7, x.n8];
    let size = 4 + ((w as usize) * count + 7) / 8;
    let code = 100 + x.kind.code();
    writing::write_u16(out, 0, size as u32);
    writing::write_u16(out, 2, code);
    packing::pack(out, 4, &ns[..count], w);
    size
}
