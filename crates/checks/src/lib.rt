// Curve and divisor records in bytes: their numbers by value, and whether these are below p. specs/ says what is checked.
#![tactic(auto)]

ghost use Rattle.std.specs.Prelude.{◌≡◌, ℕ, ◌<◌, ◌≤◌, length, nat_lt};
ghost use Rattle.std.specs.List.{list_all};
ghost use Rattle.algebra.specs.Answers.{Answers};
ghost use Rattle.basis.specs.Divisor.{numbers_of};
ghost use Rattle.checks.specs.Contract.{AllBelow, Word, ValueOf, coefficient_of, equation_value};

use basis::Divisor;
use equation::Equation;
use kind::Kind;

// Are all numbers of a list below p?
fn below(p: u32, ns: &[u32]) -> bool
    ensures { result ≡ list_all (λ n. nat_lt n p) ns.now }
{
    ns.iter().all(|n| *n < p)
}

// The equation of a curve's bytes.
pub fn equation(s: &[u8]) -> Equation
    requires { length s.now ≡ 44 }
    ensures { result ≡ equation_value s.now }
{
    Equation {
        p: layout::read_u32(s, 4),
        a0: 1,
        c0: layout::read_u32(s, 8),
        c1: layout::read_u32(s, 12),
        c2: layout::read_u32(s, 16),
        c3: layout::read_u32(s, 20),
        c4: layout::read_u32(s, 24),
        c5: layout::read_u32(s, 28),
        c6: layout::read_u32(s, 32),
        c7: layout::read_u32(s, 36),
        c8: layout::read_u32(s, 40),
    }
}

// Are all coefficients below p?
pub fn coefficients_below(e: Equation) -> bool
    ensures { Answers ((i : ℕ) → i < 9 → coefficient_of e i < e.p) result }
{
    below(e.p, &[e.c0, e.c1, e.c2, e.c3, e.c4, e.c5, e.c6, e.c7, e.c8])
}

// The four-byte number at place `at`, 0 if it is not whole.
fn word(s: &[u8], at: usize) -> u32
    requires { at ≤ 40 }
    ensures { Word s.now at result }
{
    if at + 4 <= s.len() {
        layout::read_u32(s, at)
    } else {
        0
    }
}

// The divisor of a kind with the numbers of a divisor record.
pub fn value(kind: Kind, s: &[u8]) -> Divisor
    ensures { ValueOf kind s.now result }
{
    Divisor {
        kind,
        n0: word(s, 4),
        n1: word(s, 8),
        n2: word(s, 12),
        n3: word(s, 16),
        n4: word(s, 20),
        n5: word(s, 24),
        n6: word(s, 28),
        n7: word(s, 32),
        n8: word(s, 36),
    }
}

// Are all numbers of a divisor below p?
pub fn all_below(p: u32, r: Divisor) -> bool
    ensures { Answers (AllBelow p (numbers_of r)) result }
{
    below(p, &[r.n0, r.n1, r.n2, r.n3, r.n4, r.n5, r.n6, r.n7, r.n8])
}
