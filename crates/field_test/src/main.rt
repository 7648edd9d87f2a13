// Writes results of the arithmetic modulo p at the least and the largest moduli. A line has p, a, b and c, and then a + b, a − b, −a,
// a·b, a·b + c, c − a·b and the inverse of a, which is 0 where a is 0.
#![tactic(auto)]

use std::io;

// p = 2^31 − 1, the largest that the calls take.
const MERSENNE: u32 = 2147483647;

// p = 2^32 − 5, the largest prime below 2^32.
const LARGEST: u32 = 4294967291;

fn line(rt: &impl Print, p: u32, a: u32, b: u32, c: u32) -> io::Result<()> {
    if p <= a || p <= b || p <= c {
        return Ok(());
    }
    print!(rt; "{p} {a} {b} {c}:")?;
    let sum = field::add(p, a, b);
    let difference = field::sub(p, a, b);
    let negative = field::neg(p, a);
    print!(rt; " {sum} {difference} {negative}")?;
    let product = field::mul(p, a, b);
    let more = field::mul_add(p, a, b, c);
    let less = field::mul_sub(p, a, b, c);
    print!(rt; " {product} {more} {less}")?;
    if prime::is_prime(p) {
        let inverse = inversion::inverse(p, a);
        print!(rt; " {inverse}")?;
    }
    println!(rt; "")
}

// A line for each a, b and c.
fn lines(rt: &impl Print, p: u32, cases: &[(u32, u32, u32)]) -> io::Result<()> {
    for (a, b, c) in cases {
        line(rt, p, *a, *b, *c)?;
    }
    Ok(())
}

fn main(rt: HostRuntime) -> io::Result<()> {
    lines(&rt, 2, &[(0, 0, 0), (0, 1, 1), (1, 1, 1)])?;
    lines(&rt, 3, &[(0, 2, 1), (1, 2, 0), (2, 2, 2)])?;
    lines(&rt, 5, &[(1, 3, 4), (2, 4, 1), (3, 3, 1), (4, 3, 4)])?;
    lines(
        &rt,
        MERSENNE,
        &[
            (0, 2147483646, 5),
            (2, 2147483645, 2147483646),
            (123456789, 987654321, 5),
            (1073741824, 2, 1),
            (2147483646, 2147483646, 2147483646),
        ],
    )?;
    lines(
        &rt,
        LARGEST,
        &[
            (0, 4294967290, 5),
            (2, 4294967289, 4294967290),
            (123456789, 987654321, 5),
            (2147483646, 2, 1),
            (4294967290, 4294967290, 4294967290),
        ],
    )
}
