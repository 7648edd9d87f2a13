// The lines of a report put behind a text or into a lent buffer; crate report, specs/Report.antt, says what the lines are.
#![tactic(auto)]

ghost use Rattle.std.specs.Prelude.{◌++◌, ◌+◌, ◌*◌, ◌≤◌, length};
ghost use Rattle.text.specs.Ascii.{ascii};
ghost use Rattle.text.specs.Decimal.{decimal};
ghost use Rattle.text.specs.Put.{PlacedAt, Placed};
ghost use Rattle.layout.specs.Layout.{numbers};
ghost use Rattle.calls.specs.Call.{room};
ghost use Rattle.report.specs.Report.{count_line, count_lines, spaced, sum_line, refused_line};
ghost use Rattle.printing.specs.Contract.{longest, AllPushed, AllPut};

use tallies::Tallies;
use text::Text;

// The most bytes that are printed.
pub const LONGEST: usize = 256;

// A name and a number on a line.
fn push_line(text: &mut Text<'_>, name: &[u8], n: u32)
    requires { length name.now + 11 ≤ length text.old.free }
    ensures { Placed text.old (count_line name.now n) (length name.now + 11) text.new }
{
    text.push_bytes(name);
    text.push_number(n);
    text.push_byte(b'\n');
}

// The line of a refusal behind a text.
pub fn push_refused(text: &mut Text<'_>, n: u8)
    requires { 19 ≤ length text.old.free }
    ensures { Placed text.old (refused_line n) 19 text.new }
{
    push_line(text, b"refused ", u32::from(n));
}

// The line of a refusal at the start of a lent buffer; returns its length.
pub fn put_refused(out: &mut [u8], n: u8) -> usize
    requires { 19 ≤ length out.old }
    ensures { PlacedAt out.old 0 (refused_line n) 19 result out.new }
{
    let mut room = [0u8; 19];
    let mut line = Text::new(&mut room);
    push_refused(&mut line, n);
    text::put_bytes(out, 0, line.into_bytes())
}

// The lines of the five kinds.
fn push_counts(text: &mut Text<'_>, t: Tallies)
    requires { 72 ≤ length text.old.free }
    ensures { Placed text.old (count_lines t.n0 t.n11 t.n21 t.n22 t.n31) 72 text.new }
{
    push_line(text, b"zero ", t.n0);
    push_line(text, b"11 ", t.n11);
    push_line(text, b"21 ", t.n21);
    push_line(text, b"22 ", t.n22);
    push_line(text, b"31 ", t.n31);
}

// A space and a number.
fn push_spaced(text: &mut Text<'_>, n: u32)
    requires { 11 ≤ length text.old.free }
    ensures { Placed text.old (ascii " " ++ decimal n) 11 text.new }
{
    text.push_byte(b' ');
    text.push_number(n);
}

// The first `count` numbers of a record, each behind a space.
fn push_numbers(text: &mut Text<'_>, w: &[u8], count: usize)
    requires count_in_bounds { 4 + 4 * count ≤ length w.now }
    requires count_bound { 11 * count ≤ length text.old.free }
    ensures { Placed text.old (spaced (numbers w.now 4 count)) (11 * count) text.new }
{
    for i in 0..count {
        push_spaced(text, layout::read_u32(w, 4 + 4 * i));
    }
}

// The line of the sum, whose record is w.
fn push_sum(text: &mut Text<'_>, w: &[u8])
    requires in_bounds { 4 ≤ length w.now }
    requires w_len_bound { length w.now ≤ room }
    requires free_bound { 114 ≤ length text.old.free }
    ensures { Placed text.old (sum_line w.now) 114 text.new }
{
    let count = (w.len() - 4) / 4;
    text.push_bytes(b"sum ");
    text.push_number(layout::read_u16(w, 2));
    push_numbers(text, w, count);
    text.push_byte(b'\n');
}

// All lines behind a text: of the kinds, of the share and of the sum, whose record is w.
pub fn push_all(text: &mut Text<'_>, t: Tallies, w: &[u8])
    requires typical_le_total { t.typical ≤ t.total }
    requires longest_bound { longest ≤ length text.old.free }
    requires in_bounds { 4 ≤ length w.now }
    requires w_len_bound { length w.now ≤ room }
    ensures { AllPushed t w.now text.old text.new }
{
    push_counts(text, t);
    share::push_share(text, t);
    push_sum(text, w);
}

// The same at the start of a lent buffer; returns how many bytes they are.
pub fn put_all(out: &mut [u8], t: Tallies, w: &[u8]) -> usize
    requires typical_le_total { t.typical ≤ t.total }
    requires longest_bound { longest ≤ length out.old }
    requires in_bounds { 4 ≤ length w.now }
    requires w_len_bound { length w.now ≤ room }
    ensures { AllPut t w.now out.old result out.new }
{
    let mut room = [0u8; LONGEST];
    let mut lines = Text::new(&mut room);
    push_all(&mut lines, t, w);
    text::put_bytes(out, 0, lines.into_bytes())
}
