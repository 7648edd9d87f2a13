// Arithmetic modulo p on numbers below p, for every p below 2^32. Each function ensures that its result is below p and
// what its residue is in the ring Z p.
#![tactic(auto)]

ghost use Rattle.field.specs.Residue.{Z, el};
ghost use Rattle.field.specs.Contract.{Below₁, Below₂, Below₃, Is};

// a + b
pub fn add(p: u32, a: u32, b: u32) -> u32
    requires { Below₂ p a b }
    ensures { Is p result ((Z p).add (el p a) (el p b)) }
{
    let d = p - b;
    if a < d { a + b } else { a - d }
}

// a − b
pub fn sub(p: u32, a: u32, b: u32) -> u32
    requires { Below₂ p a b }
    ensures { Is p result ((Z p).add (el p a) ((Z p).neg (el p b))) }
{
    if a < b { a + (p - b) } else { a - b }
}

// −a
pub fn neg(p: u32, a: u32) -> u32
    requires { Below₁ p a }
    ensures { Is p result ((Z p).neg (el p a)) }
{
    if a == 0 { 0 } else { p - a }
}

// a·b
pub fn mul(p: u32, a: u32, b: u32) -> u32
    requires { Below₂ p a b }
    ensures { Is p result ((Z p).mul (el p a) (el p b)) }
{
    ((a as u64) * (b as u64) % (p as u64)) as u32
}

// a·b + c
pub fn mul_add(p: u32, a: u32, b: u32, c: u32) -> u32
    requires { Below₃ p a b c }
    ensures { Is p result ((Z p).add ((Z p).mul (el p a) (el p b)) (el p c)) }
{
    (((a as u64) * (b as u64) + (c as u64)) % (p as u64)) as u32
}

// c − a·b, as a·(p − b) + c
pub fn mul_sub(p: u32, a: u32, b: u32, c: u32) -> u32
    requires { Below₃ p a b c }
    ensures { Is p result ((Z p).add (el p c) ((Z p).neg ((Z p).mul (el p a) (el p b)))) }
{
    (((a as u64) * ((p - b) as u64) + (c as u64)) % (p as u64)) as u32
}
