// Writes whether each of some numbers is a prime: the small ones, Carmichael numbers, squares and products of primes at the
// borders of the table's parts, and the largest primes below 2³¹ and 2³².
#![tactic(auto)]

use std::io;

const CARMICHAEL: [u32; 7] = [561, 1105, 1729, 294409, 56052361, 118901521, 172947529];

const BORDERS: [u32; 8] = [
    677329, 680621, 14386849, 592289569, 2147117569, 2238141481, 4292870399, 4293001441,
];

const LARGE: [u32; 6] = [
    65537, 2147483629, 2147483647, 2147483649, 4294967291, 4294967295,
];

fn say(rt: &impl Print, n: u32) -> io::Result<()> {
    if prime::is_prime(n) {
        println!(rt; "{n} prime")
    } else {
        println!(rt; "{n} no")
    }
}

fn say_each(rt: &impl Print, numbers: &[u32]) -> io::Result<()> {
    for n in numbers {
        say(rt, *n)?;
    }
    Ok(())
}

fn main(rt: HostRuntime) -> io::Result<()> {
    for n in 0..32 {
        say(&rt, n)?;
    }
    say_each(&rt, &CARMICHAEL)?;
    say_each(&rt, &BORDERS)?;
    say_each(&rt, &LARGE)
}
