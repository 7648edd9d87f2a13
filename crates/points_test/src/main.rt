// The two calls on points, made on the calls that standard input holds. For each a line is printed: what it returned, what it wrote, and the
// word `touched` if anything else has changed in the array around its result. tests/points-vectors.py makes the input and the lines.
//
// A call in the input is one byte, 0 for points_sum and 1 for points_of; three numbers of four bytes, the lengths in bytes of the curve and of
// the second argument, and the length of the slice for the result; the curve; and the second argument, in which points are numbers of four bytes.
#![tactic(auto)]

ghost use Rattle.std.specs.Prelude.{◌+◌, ◌*◌, ◌≤◌, length};

use std::io::{Input, Read};
use std::ops::ControlFlow;
use std::{fmt, io};

// The bytes of a call before its arguments.
const HEAD_LENGTH: usize = 13;

// The most bytes of an argument.
const BYTES: usize = 66000;

// The most numbers of an argument, four bytes each.
const NUMBERS: usize = 16500;

// The length of the array around a result.
const AROUND: usize = 1000;

// The place in it where the result starts.
const START: usize = 200;

// The most bytes or numbers that are lent for a result; as many as START are left behind it.
const MOST: usize = 600;

// What is wrong with the input.
#[derive(Clone, Copy)]
enum Fault {
    CallCut,
    CurveLong,
    ArgumentLong,
    ResultLong,
    CurveCut,
    ArgumentCut,
    UnknownCall,
}

impl fmt::Display for Fault {
    fn fmt<W: fmt::Write>(&self, f: &mut fmt::Formatter<W>) -> fmt::Result {
        match self {
            Fault::CallCut => write!(f, "a call is cut short"),
            Fault::CurveLong => write!(f, "a curve is too long"),
            Fault::ArgumentLong => write!(f, "an argument is too long"),
            Fault::ResultLong => write!(f, "a result is too long"),
            Fault::CurveCut => write!(f, "a curve is cut short"),
            Fault::ArgumentCut => write!(f, "an argument is cut short"),
            Fault::UnknownCall => write!(f, "no such call"),
        }
    }
}

// Why the calls end before the input does.
#[derive(Drop)]
enum Stop {
    Fault(Fault),
    Io(io::Error),
}

impl From<Fault> for Stop {
    fn from(fault: Fault) -> Stop {
        Stop::Fault(fault)
    }
}

impl From<io::Error> for Stop {
    fn from(error: io::Error) -> Stop {
        Stop::Io(error)
    }
}

// Which of the two calls is made.
#[derive(Clone, Copy)]
enum Which {
    Sum,
    Points,
}

impl TryFrom<u8> for Which {
    type Error = Fault;

    fn try_from(which: u8) -> Result<Which, Fault> {
        match which {
            0 => Ok(Which::Sum),
            1 => Ok(Which::Points),
            _ => Err(Fault::UnknownCall),
        }
    }
}

// What stands before the arguments of a call: which call it is, the lengths of the curve and of the second argument, and that of the result.
#[derive(Clone, Copy)]
struct Head {
    which: u8,
    curve: usize,
    second: usize,
    result: usize,
}

impl Head {
    fn of(bytes: &[u8; HEAD_LENGTH]) -> Head {
        Head {
            which: bytes[0],
            curve: layout::read_u32(bytes, 1) as usize,
            second: layout::read_u32(bytes, 5) as usize,
            result: layout::read_u32(bytes, 9) as usize,
        }
    }
}

// A number that an array around a result holds before a call: which place has which.
trait Marked: Copy + PartialEq {
    fn mark(i: usize) -> Self;
}

impl Marked for u8 {
    // Never 0.
    fn mark(i: usize) -> u8 {
        (1 + i % 251) as u8
    }
}

impl Marked for u32 {
    // No coordinate is as large.
    fn mark(i: usize) -> u32 {
        (4294967295 - i % 65536) as u32
    }
}

// Puts its mark at each place.
fn put_marks<T: Marked>(s: &mut [T]) {
    for i in 0..s.len() {
        s[i] = T::mark(i);
    }
}

// Whether the places from `from` up to `to` still have their marks.
fn is_kept<T: Marked>(s: &[T], from: usize, to: usize) -> bool
    requires { to ≤ length s.now }
{
    for i in from..to {
        if s[i] != T::mark(i) {
            return false;
        }
    }
    true
}

// Fills `to`, or stops if the input ends before.
fn read_part(reader: &mut impl Read, to: &mut [u8], cut: Fault) -> Result<(), Stop> {
    if reading::read_full(reader, to)? < to.len() {
        return Err(Stop::Fault(cut));
    }
    Ok(())
}

// Puts the numbers of a list in bytes at the start of `to`.
fn take_numbers(list: &[u8], to: &mut [u32])
    requires { 4 * length to.old ≤ length list.now }
{
    for i in 0..to.len() {
        to[i] = layout::read_u32(list, 4 * i);
    }
}

// Prints a space and bytes in hexadecimal digits; nothing for no bytes.
fn print_bytes(rt: &impl Print, s: &[u8]) -> io::Result<()> {
    if s.is_empty() {
        return Ok(());
    }
    print!(rt; " ")?;
    for b in s {
        print!(rt; "{b:02x}")?;
    }
    Ok(())
}

// Prints a space and numbers with commas between them; nothing for no numbers.
fn print_numbers(rt: &impl Print, s: &[u32]) -> io::Result<()> {
    let Some((first, others)) = s.split_first() else {
        return Ok(());
    };
    print!(rt; " {first}")?;
    for n in others {
        print!(rt; ",{n}")?;
    }
    Ok(())
}

// Prints the end of a line: whether all else was kept.
fn end_line(rt: &impl Print, kept: bool) -> io::Result<()> {
    if kept {
        return println!(rt; "");
    }
    println!(rt; " touched")
}

// Prints what a call returned. The result is how much the call says that it wrote, 0 for a refusal.
fn print_returned(rt: &impl Print, r: i32) -> io::Result<usize> {
    print!(rt; "{r}")?;
    Ok(usize::try_from(r).unwrap_or(0))
}

// Prints the line of a sum, for which n bytes were lent.
fn print_sum(rt: &impl Print, r: i32, around: &[u8], n: usize) -> io::Result<()>
    requires { 200 + n ≤ length around.now }
{
    let said = print_returned(rt, r)?;
    let end = START + said.min(n);
    print_bytes(rt, &around[START..end])?;
    end_line(
        rt,
        is_kept(around, 0, START) && is_kept(around, end, around.len()),
    )
}

// Prints the line of the points of a divisor, for which n numbers were lent.
fn print_points(rt: &impl Print, r: i32, around: &[u32], n: usize) -> io::Result<()>
    requires { 200 + n ≤ length around.now }
{
    let said = print_returned(rt, r)?;
    let end = START + 2 * said.min(n / 2);
    print_numbers(rt, &around[START..end])?;
    end_line(
        rt,
        is_kept(around, 0, START) && is_kept(around, end, around.len()),
    )
}

// Marks an array and lends n bytes of it to points_sum.
fn call_sum(curve: &[u8], numbers: &[u32], around: &mut [u8], n: usize) -> i32
    requires { 200 + n ≤ length around.old }
{
    put_marks(around);
    let end = START + n;
    points::points_sum(curve, numbers, &mut around[START..end])
}

// Marks an array and lends n numbers of it to points_of.
fn call_points(curve: &[u8], divisor: &[u8], around: &mut [u32], n: usize) -> i32
    requires { 200 + n ≤ length around.old }
{
    put_marks(around);
    let end = START + n;
    points::points_of(curve, divisor, &mut around[START..end])
}

// Makes a call of points_sum, its list of numbers in bytes and n bytes for the result, and prints its line.
fn trial_sum(rt: &impl Print, curve: &[u8], list: &[u8], n: usize) -> io::Result<()>
    requires list_len_bound { length list.now ≤ 66000 }
    requires n_bound { n ≤ 600 }
{
    let mut numbers = [0u32; NUMBERS];
    let count = list.len() / 4;
    take_numbers(list, &mut numbers[..count]);
    let mut around = [0u8; AROUND];
    let r = call_sum(curve, &numbers[..count], &mut around, n);
    print_sum(rt, r, &around, n)
}

// Makes a call of points_of, n numbers for the result, and prints its line.
fn trial_points(rt: &impl Print, curve: &[u8], divisor: &[u8], n: usize) -> io::Result<()>
    requires { n ≤ 600 }
{
    let mut around = [0u32; AROUND];
    let r = call_points(curve, divisor, &mut around, n);
    print_points(rt, r, &around, n)
}

// Reads the arguments of a call, makes it and prints its line.
fn call(rt: &impl Print, reader: &mut impl Read, head: Head) -> Result<(), Stop> {
    if BYTES < head.curve {
        return Err(Stop::Fault(Fault::CurveLong));
    }
    if BYTES < head.second {
        return Err(Stop::Fault(Fault::ArgumentLong));
    }
    if MOST < head.result {
        return Err(Stop::Fault(Fault::ResultLong));
    }
    let mut curve = [0u8; BYTES];
    read_part(reader, &mut curve[..head.curve], Fault::CurveCut)?;
    let mut second = [0u8; BYTES];
    read_part(reader, &mut second[..head.second], Fault::ArgumentCut)?;
    let curve = &curve[..head.curve];
    let second = &second[..head.second];
    match Which::try_from(head.which)? {
        Which::Sum => trial_sum(rt, curve, second, head.result)?,
        Which::Points => trial_points(rt, curve, second, head.result)?,
    }
    Ok(())
}

// Reads a call, makes it and prints its line; breaks off if there are no more.
fn turn(rt: &impl Print, reader: &mut impl Read) -> Result<ControlFlow<()>, Stop> {
    let mut head = [0u8; HEAD_LENGTH];
    let got = reading::read_full(reader, &mut head)?;
    if got == 0 {
        return Ok(ControlFlow::Break(()));
    }
    if got < HEAD_LENGTH {
        return Err(Stop::Fault(Fault::CallCut));
    }
    call(rt, reader, Head::of(&head))?;
    Ok(ControlFlow::Continue(()))
}

// The turns are bounded by a number that no run uses up, for a proved loop has to end.
fn run(rt: &(impl Input + Print)) -> Result<(), Stop> {
    let mut reader = rt.reader();
    for _ in 0..u64::MAX {
        if let ControlFlow::Break(()) = turn(rt, &mut reader)? {
            break;
        }
    }
    Ok(())
}

fn main(rt: HostRuntime) -> io::Result<()> {
    match run(&rt) {
        Ok(()) => Ok(()),
        Err(Stop::Fault(fault)) => println!(rt; "{fault}"),
        Err(Stop::Io(error)) => Err(error),
    }
}
