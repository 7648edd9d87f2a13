// Whole numbers by their sign and size.
#![tactic(auto)]

ghost use Rattle.whole.specs.Whole.{SignOf};

// A whole number by its sign and size: n or −n.
#[derive(Clone, Copy)]
pub enum Whole {
    Up(u64),
    Down(u64),
}

// The sign and the size of n.
pub fn size_of(n: i64) -> Whole
    ensures { SignOf n result }
{
    if n >= 0 {
        Whole::Up(n.unsigned_abs())
    } else {
        Whole::Down(n.unsigned_abs())
    }
}
