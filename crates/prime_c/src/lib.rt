// Is a number below 2^32 a prime, for C.
#![tactic(auto)]

ghost use Rattle.algebra.specs.Answers.{Answers};
ghost use Rattle.prime.specs.Prime.{Prime};

#[unsafe(no_mangle)]
pub extern "C" fn prime_is_prime(n: u32) -> bool
    ensures { Answers (Prime n) result }
{
    prime::prime_is_prime(n)
}
