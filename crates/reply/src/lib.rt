// What a call returns and writes: minus the number of a refusal, or the record of the divisor that was found and its length.
#![tactic(auto)]

ghost use Rattle.std.specs.Prelude.{◌≡◌};
ghost use Rattle.refusal.specs.Refusal.{number_of};
ghost use Rattle.calls.specs.Answer.{minus};
ghost use Rattle.reply.specs.Written.{Wrote};

use basis::Divisor;
use refusal::Refusal;

// Minus the number by which a call refuses.
fn refused(n: u8) -> i32
    ensures { result ≡ minus n }
{
    -i32::from(n)
}

// What a call returns for a refusal.
pub fn refusal(cause: Refusal) -> i32
    ensures { result ≡ minus (number_of cause) }
{
    refused(cause.number())
}

// Writes the record of a divisor that was found at the start of `out`, and returns its length; refuses a buffer that is too short, and what was
// refused before, for a cause or by any byte: by what converts to its number.
pub fn written<E: Into<u8>>(found: Result<Divisor, E>, out: &mut [u8]) -> i32
    ensures { Wrote E.converts found out.old result out.new }
{
    match found {
        Ok(_) if out.len() < reader::ROOM => refusal(Refusal::Room),
        Ok(x) => reader::write_divisor(x, out) as i32,
        Err(cause) => refused(cause.into()),
    }
}
