// Reports on inputs that are refused for each cause, on the empty list and on others.
#![tactic(auto)]

ghost use Rattle.std.specs.Prelude.{◌≤◌, length};

use std::io;
use text::Text;

// Prints the report on an input.
fn print(rt: &impl Print, input: &[u8]) -> io::Result<()> {
    let mut out = [0u8; printing::LONGEST];
    let text = counting::report(input, &mut out);
    rt.write_all(text)
}

// What the inputs differ in at the start of the curve y³ + x⁴ + c0: its length, its kind, p and c0.
#[derive(Clone, Copy)]
struct Head {
    size: u8,
    kind: u8,
    p: u8,
    c0: u8,
}

// The curve E, which is accepted.
const E: Head = Head {
    size: 44,
    kind: 34,
    p: 5,
    c0: 1,
};

impl Head {
    // The record of the curve.
    fn curve(self) -> [u8; 44] {
        let mut c = [0u8; 44];
        c[0] = self.size;
        c[2] = self.kind;
        c[4] = self.p;
        c[8] = self.c0;
        c
    }
}

// The report on a curve and a list.
fn show(rt: &impl Print, head: Head, list: &[u8]) -> io::Result<()>
    requires { length list.now ≤ 56 }
{
    let mut room = [0u8; 100];
    let mut input = Text::new(&mut room);
    input.push_bytes(&head.curve());
    input.push_bytes(list);
    print(rt, input.into_bytes())
}

// Curves of a wrong length, a wrong kind, with no prime, with a number that is not below p, and a singular one.
fn refused_curves(rt: &impl Print) -> io::Result<()> {
    let heads = [
        Head { size: 43, ..E },
        Head { kind: 35, ..E },
        Head { p: 4, ..E },
        Head { c0: 5, ..E },
        Head { c0: 0, ..E },
    ];
    for head in heads {
        show(rt, head, b"")?;
    }
    Ok(())
}

// A list of one byte more than the longest.
fn long_list(rt: &impl Print) -> io::Result<()> {
    let mut input = [0u8; counting::INPUT_ROOM];
    input[..44].copy_from_slice(&E.curve());
    print(rt, &input)
}

fn main(rt: HostRuntime) -> io::Result<()> {
    print(&rt, b"")?;
    refused_curves(&rt)?;
    show(&rt, E, b"\x04\x00\x00\x00\x04\x00\x00")?;
    show(&rt, E, b"\x0c\x00\x0c\x00\x00\x00\x00\x00\x01\x00\x00\x00")?;
    show(&rt, E, b"\x0c\x00\x0b\x00\x05\x00\x00\x00\x01\x00\x00\x00")?;
    show(&rt, E, b"\x0c\x00\x0b\x00\x00\x00\x00\x00\x00\x00\x00\x00")?;
    long_list(&rt)?;
    show(&rt, E, b"")?;
    show(
        &rt,
        E,
        b"\x0c\x00\x0b\x00\x00\x00\x00\x00\x01\x00\x00\x00\x10\x00\x16\x00\x00\x00\x00\x00\x01\x00\x00\x00\x04\x00\x00\x00",
    )
}
