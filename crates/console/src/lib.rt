// The counting program as it is run: standard input is read to its end, and the report on it printed. A contract speaks of the bytes that a
// reader has left and a writer holds where these are known, as those in memory are; of standard input and output they are not.
#![tactic(auto)]

ghost use Rattle.std.specs.Prelude.{List, ℕ, OnOk, IfSome};
ghost use Rattle.std.specs.Io.KnownBytes.{Appends};
ghost use Rattle.report.specs.Report.{Report};

use std::io;
use std::io::{Input, Read, Write};

// Reads the input to its end. A proved loop has to end, so the turns are bounded by a number that no run uses up.
fn skip_rest(reader: &mut impl Read) -> io::Result<()> {
    let mut buf = [0u8; 4096];
    for _ in 0..u64::MAX {
        if reader.read(&mut buf)? == 0 {
            break;
        }
    }
    Ok(())
}

// Reads the input to its end and writes the report on it.
fn report_on<R: Read, W: Write>(reader: &mut R, writer: &mut W) -> io::Result<()>
    ensures { OnOk result (IfSome (R.remaining reader.old) (λ input.
        (text : List ℕ) × Report input text × Appends (W.contents writer.old) (W.contents writer.new) text)) }
{
    let mut input = [0u8; counting::INPUT_ROOM];
    let n = reading::read_full(reader, &mut input)?;
    skip_rest(reader)?;
    let mut out = [0u8; printing::LONGEST];
    let text = counting::report_read(&input, n, &mut out);
    writer.write_all(text)
}

// The counting program: prints the report on what standard input holds.
pub fn run(rt: &(impl Input + Print)) -> io::Result<()> {
    report_on(&mut rt.reader(), &mut io::writer(rt))
}
