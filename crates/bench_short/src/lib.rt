// The short form of a record without the checks of the curve and of the basis, for bench/short.c to time.
#![tactic(auto)]

ghost use Rattle.bench_short.specs.Contract.{Shortens};

// Writes the short form of a record whose numbers are below p, and returns its length; 0 for other bytes and for a buffer under 40 bytes.
#[unsafe(no_mangle)]
pub extern "C" fn bench_shorten(p: u32, divisor: &[u8], out: &mut [u8]) -> u32
    ensures { Shortens p divisor.now out.old result out.new }
{
    if out.len() < reader::ROOM {
        return 0;
    }
    let Ok(kind) = form::divisor_form(divisor) else {
        return 0;
    };
    let x = checks::value(kind, divisor);
    if !checks::all_below(p, x) {
        return 0;
    }
    let n = short_writer::write_short(p, x, out);
    n as u32
}
