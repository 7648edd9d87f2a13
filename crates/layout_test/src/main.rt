// Writes a record of three numbers into a buffer of 20 bytes, and prints its length, what is read of the buffer and whether it has certain bytes.
#![tactic(auto)]

use std::io;

fn say_same(rt: &impl Print, a: &[u8], b: &[u8]) -> io::Result<()> {
    let walk = words::compare(a, b);
    if walk.same {
        println!(rt; "same")
    } else {
        println!(rt; "other")
    }
}

fn main(rt: HostRuntime) -> io::Result<()> {
    let mut out: [u8; 20] = [9; 20];
    let ns: [u32; 3] = [65537, 4294967295, 67305985];
    let size = writing::write_record(&mut out, 258, &ns);
    println!(rt; "{size}")?;
    for i in 0..2 {
        let n = layout::read_u16(&out, 2 * i);
        println!(rt; "{n}")?;
    }
    for i in 1..5 {
        let n = layout::read_u32(&out, 4 * i);
        println!(rt; "{n}")?;
    }
    say_same(
        &rt,
        &out,
        b"\x10\x00\x02\x01\x01\x00\x01\x00\xff\xff\xff\xff\x01\x02\x03\x04\x09\x09\x09\x09",
    )?;
    say_same(&rt, &out, b"\x10\x00\x02\x01")
}
