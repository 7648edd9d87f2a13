// The kinds of divisor records: their numbers, how many numbers a record of each has, and the degree of its divisors.
#![tactic(auto)]

ghost use Rattle.std.specs.Prelude.{◌≡◌, ◌≤◌};
ghost use Rattle.kind.specs.Kinds.{code, count, degree_of, KindOf};

// The kind of a divisor record: of the zero class, or the kind with the number in its name.
#[derive(Clone, Copy, Debug, PartialEq, Eq)]
pub enum Kind {
    Zero = 0,
    K11 = 11,
    K21 = 21,
    K22 = 22,
    K31 = 31,
}

// A number that no kind has.
#[derive(Clone, Copy, Debug, PartialEq, Eq)]
pub struct UnknownKind(pub u32);

impl TryFrom<u32> for Kind {
    type Error = UnknownKind;

    ghost try_from_gives = { KindOf };

    fn try_from(code: u32) -> Result<Self, UnknownKind> {
        match code {
            0 => Ok(Kind::Zero),
            11 => Ok(Kind::K11),
            21 => Ok(Kind::K21),
            22 => Ok(Kind::K22),
            31 => Ok(Kind::K31),
            _ => Err(UnknownKind(code)),
        }
    }
}

impl Kind {
    // The number that stands for the kind in a record.
    pub fn code(self) -> u32
        ensures { result ≡ code self }
    {
        self as u32
    }

    // How many numbers a record of this kind has.
    pub fn count(self) -> usize
        ensures is { result ≡ count self }
        ensures small { result ≤ 9 }
    {
        match self {
            Kind::Zero => 0,
            Kind::K11 => 2,
            Kind::K21 => 4,
            Kind::K22 => 3,
            Kind::K31 => 9,
        }
    }

    // The degree of a divisor of this kind: how many monomials remain.
    pub fn degree(self) -> usize
        ensures { result ≡ degree_of self }
    {
        match self {
            Kind::Zero => 0,
            Kind::K11 => 1,
            Kind::K21 | Kind::K22 => 2,
            Kind::K31 => 3,
        }
    }
}
