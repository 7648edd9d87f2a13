// Lists of sum calls on a pool of five records on the curve E, and the record that they leave, compared with what the list call writes.
#![tactic(auto)]

ghost use Rattle.std.specs.Prelude.{◌≡◌, ◌≤◌, length};
ghost use Rattle.worked.specs.Table.{E};
ghost use Rattle.pool.specs.Run.{Valid};
ghost use Rattle.pool_test.specs.Start.{start};

use std::io;

// The curve E: p = 5, y³ + x⁴ + 1.
fn curve() -> [u8; 44]
    ensures { result ≡ E }
{
    let mut c = [0u8; 44];
    c[0] = 44;
    c[2] = 34;
    c[4] = 5;
    c[8] = 1;
    c
}

// The pool at the start: slots of 40 bytes with (1, 2), (2, 2), (3, 2), (0, 4) and the zero class.
fn lay_out() -> [u8; 200]
    ensures { result ≡ start }
{
    let mut s = [0u8; 200];
    s[0] = 12;
    s[2] = 11;
    s[4] = 4;
    s[8] = 3;
    s[40] = 12;
    s[42] = 11;
    s[44] = 3;
    s[48] = 3;
    s[80] = 12;
    s[82] = 11;
    s[84] = 2;
    s[88] = 3;
    s[120] = 12;
    s[122] = 11;
    s[128] = 1;
    s[160] = 4;
    s
}

// Carries the calls out on the pool. The result is how many records are left.
fn run(calls: &[u32], s: &mut [u8]) -> usize
    requires valid { Valid 5 64 calls.now }
    requires s_value { s.old ≡ start }
    ensures { result ≤ 5 }
{
    let c = curve();
    let mut scratch = [0u8; 64];
    pool::run_calls(&c, s, 5, calls, &mut scratch)
}

// Writes the sum of the list of the five records to `out`, and returns its length.
fn list_sum(out: &mut [u8]) -> usize
    requires { length out.old ≡ 40 }
    ensures { result ≤ 40 }
{
    let c = curve();
    let list =
        b"\x0c\0\x0b\0\x04\0\0\0\x03\0\0\0\x0c\0\x0b\0\x03\0\0\0\x03\0\0\0\x0c\0\x0b\0\x02\0\0\0\x03\0\0\0\x0c\0\x0b\0\0\0\0\0\x01\0\0\0\x04\0\0\0";
    c34::c34_list_sum(&c, list, out) as usize
}

// Carries the calls out and prints how many records are left. If it is one, then also whether it is the sum of the list.
fn trial(rt: &impl Print, calls: &[u32]) -> io::Result<()>
    requires { Valid 5 64 calls.now }
{
    let mut s = lay_out();
    let left = run(calls, &mut s);
    if left != 1 {
        return println!(rt; "{left} left");
    }
    let mut sum = [0u8; 40];
    let n = list_sum(&mut sum);
    let walk = words::compare(&s[0..n], &sum[0..n]);
    if walk.same {
        return println!(rt; "1 left, equal to the list sum");
    }
    println!(rt; "1 left, unlike the list sum")
}

// A call is two places and the length of its buffer; a buffer under 40 bytes is refused, and the pool stays.
fn main(rt: HostRuntime) -> io::Result<()> {
    trial(&rt, &[0, 1, 40, 0, 1, 40, 0, 1, 40, 0, 1, 40])?;
    trial(&rt, &[4, 0, 40, 3, 0, 41, 2, 0, 64, 1, 0, 40])?;
    trial(&rt, &[0, 1, 40, 0, 1, 40, 2, 1, 40, 1, 0, 40])?;
    trial(
        &rt,
        &[1, 3, 39, 1, 3, 40, 0, 2, 0, 0, 2, 64, 2, 1, 40, 1, 0, 40],
    )?;
    trial(&rt, &[0, 4, 40, 2, 1, 39, 2, 1, 64])?;
    trial(&rt, &[0, 1, 0, 3, 2, 39])?;
    trial(&rt, &[])
}
