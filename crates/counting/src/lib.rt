// The counting program: the report on an input, put into a lent buffer; crate report, specs/Report.antt, says what that is.
#![tactic(auto)]

ghost use Rattle.std.specs.Prelude.{◌≤◌, length};
ghost use Rattle.report.specs.Report.{Report};
ghost use Rattle.report.specs.Input.{enough, ReportsRead};
ghost use Rattle.printing.specs.Contract.{longest};
ghost use Rattle.counting.specs.Contract.{Printable, PassPut, PrintedOn};

use pass::Pass;
use refusal::Refusal;
use text::Text;

// The length of a curve's record.
const CURVE_SIZE: usize = 44;

// Room for a curve and one byte more than the longest list.
pub const INPUT_ROOM: usize = CURVE_SIZE + reader::LIST_LIMIT + 1;

// All that is printed for what was found of a list.
fn put_pass(text: &mut Text<'_>, found: Result<Pass, Refusal>)
    requires printable { Printable found }
    requires longest_bound { longest ≤ length text.old.free }
    ensures { PassPut found text.old text.new }
{
    match found {
        Ok(p) => {
            let mut sum = [0u8; reader::ROOM];
            let size = reader::write_divisor(p.sum, &mut sum);
            printing::push_all(text, p.tallies, &sum[..size])
        }
        Err(cause) => printing::push_refused(text, cause.number()),
    }
}

// All that is printed for a curve and a list.
fn put_report(text: &mut Text<'_>, curve: &[u8], list: &[u8])
    requires { longest ≤ length text.old.free }
    ensures { PrintedOn curve.now list.now text.old text.new }
{
    put_pass(text, reader::on_curve(curve, |g| pass::pass_on(g, list)))
}

// All that is printed for an input, put at the start of `out`; returns that part of `out`.
pub fn report<'a>(input: &[u8], out: &'a mut [u8]) -> &'a mut [u8]
    requires { 256 ≤ length out.old }
    ensures { Report input.now result.now }
{
    let (curve, list) = input.split_at(input.len().min(CURVE_SIZE));
    let mut text = Text::new(out);
    put_report(&mut text, curve, list);
    text.into_bytes()
}

// All that is printed for the standard input, of which the first n bytes of the buffer `read` were read; put and returned as by `report`.
// The buffer and not only what was read is asked for, as the contract speaks of its length: it has to have room for one byte more than the
// longest list, so that a list that is too long is known by what was read.
pub fn report_read<'a>(read: &[u8], n: usize, out: &'a mut [u8]) -> &'a mut [u8]
    requires enough_in_bounds { enough ≤ length read.now }
    requires n_in_bounds { n ≤ length read.now }
    requires room_bound { 256 ≤ length out.old }
    ensures { ReportsRead read.now n result.now }
{
    report(&read[..n], out)
}
