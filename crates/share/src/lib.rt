// The line of the share put behind a text or into a lent buffer; crate report, specs/Report.antt, says what the line is.
#![tactic(auto)]

ghost use Rattle.std.specs.Prelude.{◌≡◌, ◌+◌, ◌≤◌, ◌<◌, length};
ghost use Rattle.text.specs.Put.{PlacedAt, Placed};
ghost use Rattle.report.specs.Report.{rounded, per_cent, share_line};

use tallies::Tallies;
use text::Text;

// a / b as a whole number, a half rounded to the even one.
fn rounded(a: u64, b: u64) -> u64
    requires a_bound { a < 4611686018427387904 }
    requires b_nonzero { 0 < b }
    requires b_bound { b < 4611686018427387904 }
    ensures { result ≡ rounded a b }
{
    let quotient = a / b;
    let twice = 2 * (a % b);
    if twice < b {
        return quotient;
    }
    if b < twice {
        return quotient + 1;
    }
    if quotient % 2 == 0 {
        return quotient;
    }
    quotient + 1
}

// Hundredths with two decimals.
fn push_per_cent(text: &mut Text<'_>, h: u32)
    requires { 13 ≤ length text.old.free }
    ensures { Placed text.old (per_cent h) 13 text.new }
{
    text.push_number(h / 100);
    text.push_byte(b'.');
    text.push_two_digits(h % 100);
}

// The line of the share behind a text.
pub fn push_share(text: &mut Text<'_>, t: Tallies)
    requires typical_le_total { t.typical ≤ t.total }
    requires free_bound { 20 ≤ length text.old.free }
    ensures { Placed text.old (share_line t.typical t.total) 20 text.new }
{
    if t.total == 0 {
        return text.push_bytes(b"share none\n");
    }
    let hundredths = rounded(10000 * t.typical as u64, t.total as u64);
    text.push_bytes(b"share ");
    push_per_cent(text, hundredths as u32);
    text.push_byte(b'\n');
}

// The line of the share in a lent buffer, from place `at` on; returns the place behind it.
pub fn put_share(out: &mut [u8], at: usize, t: Tallies) -> usize
    requires typical_le_total { t.typical ≤ t.total }
    requires at_bound { at + 20 ≤ length out.old }
    ensures { PlacedAt out.old at (share_line t.typical t.total) 20 result out.new }
{
    let mut room = [0u8; 20];
    let mut line = Text::new(&mut room);
    push_share(&mut line, t);
    text::put_bytes(out, at, line.into_bytes())
}
