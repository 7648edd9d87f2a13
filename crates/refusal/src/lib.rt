// The causes for which a call refuses its input: their numbers, and the words for them.
#![tactic(auto)]

ghost use Rattle.std.specs.Prelude.{◌≡◌};
ghost use Rattle.refusal.specs.Refusal.{number_of};

use std::error::Error;
use std::fmt;

// Why a call refuses its input.
#[derive(Clone, Copy, Debug, PartialEq, Eq)]
pub enum Refusal {
    // The size of the curve's bytes, or not the length of its kind.
    CurveSize = 1,
    // The kind of the curve.
    CurveKind = 2,
    // p is not a prime from 2 to 2147483647.
    Modulus = 3,
    // A coefficient that is not below p.
    Coefficient = 4,
    // The curve has a singular point.
    Singular = 5,
    // The size of a divisor's bytes, or not the length of its kind.
    DivisorSize = 6,
    // The kind of a divisor.
    DivisorKind = 7,
    // A number of a divisor, or a coordinate, that is not below p.
    Number = 8,
    // The numbers of a divisor are not a basis, or a pair is off the curve.
    NoBasis = 9,
    // The result buffer is too short.
    Room = 10,
    // A list that is too long.
    ListSize = 11,
    // The size or the kind of a record of fractions.
    Fractions = 12,
    // A denominator that p divides.
    Denominator = 13,
    // p is too large for a search of points, or the count of numbers is odd or too large.
    Points = 14,
    // A bit of the filling of a short record is not zero.
    Filling = 15,
}

impl Refusal {
    // The number of the cause.
    pub fn number(self) -> u8
        ensures { result ≡ number_of self }
    {
        self as u8
    }
}

// A cause as a byte is its number.
impl From<Refusal> for u8 {
    ghost from_gives = { λ e k. k ≡ number_of e };

    fn from(cause: Refusal) -> u8 {
        cause.number()
    }
}

impl fmt::Display for Refusal {
    ghost use Rattle.std.specs.Prelude.{Some};
    ghost use Rattle.refusal.specs.Refusal.{words_of};

    ghost output = { λ r. Some (words_of r) };

    fn fmt<W: fmt::Write>(&self, f: &mut fmt::Formatter<W>) -> fmt::Result {
        f.write_str(match self {
            Refusal::CurveSize =>
                "curve bytes under 4, length field unlike the bytes given, or kind 34 with length not 44",
            Refusal::CurveKind => "curve kind not 34",
            Refusal::Modulus => "p not a prime from 2 to 2147483647",
            Refusal::Coefficient => "some c not below p",
            Refusal::Singular => "curve singular",
            Refusal::DivisorSize =>
                "divisor bytes under 4, length field unlike the bytes given, or length not that of its kind",
            Refusal::DivisorKind => "no kind of divisor",
            Refusal::Number => "divisor number or coordinate not below p",
            Refusal::NoBasis => "divisor not a basis, or pair off the curve",
            Refusal::Room => "result buffer too short",
            Refusal::ListSize => "list over 32,768 bytes",
            Refusal::Fractions => "fractions of the wrong length or kind",
            Refusal::Denominator => "a denominator divisible by p, zero included",
            Refusal::Points => "p above 65521, an odd count of numbers, or more than 4,096 pairs",
            Refusal::Filling => "a filling bit is not zero",
        })
    }
}

impl Error for Refusal {}
