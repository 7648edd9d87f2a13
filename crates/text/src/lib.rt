// Text put into a lent buffer of bytes. Each function `put_..` writes from place `at` on and returns the place behind what it wrote; a `Text` puts
// piece behind piece.
#![tactic(auto)]

ghost use Rattle.std.specs.Prelude.{◌≡◌, [], ◌∷◌, ◌+◌, ◌≤◌, ◌<◌, length};
ghost use Rattle.text.specs.Decimal.{digit, decimal, two_digits};
ghost use Rattle.text.specs.Put.{PutAt, PlacedAt, Put, Placed};

use std::marker::Model;

// One byte.
pub fn put_byte(out: &mut [u8], at: usize, b: u8) -> usize
    requires { at + 1 ≤ length out.old }
    ensures { PutAt out.old at (b ∷ []) result out.new }
{
    out[at] = b;
    at + 1
}

// The bytes of a slice.
pub fn put_bytes(out: &mut [u8], at: usize, text: &[u8]) -> usize
    requires { at + length text.now ≤ length out.old }
    ensures { PutAt out.old at text.now result out.new }
{
    let end = at + text.len();
    out[at..end].copy_from_slice(text);
    end
}

// One digit.
fn put_digit(out: &mut [u8], at: usize, d: u32) -> usize
    requires d_bound { d < 10 }
    requires at_in_bounds { at + 1 ≤ length out.old }
    ensures { PutAt out.old at (digit d ∷ []) result out.new }
{
    put_byte(out, at, (48 + d) as u8)
}

// A number below 100 in two digits.
pub fn put_two_digits(out: &mut [u8], at: usize, n: u32) -> usize
    requires n_bound { n < 100 }
    requires at_in_bounds { at + 2 ≤ length out.old }
    ensures { PutAt out.old at (two_digits n) result out.new }
{
    let next = put_digit(out, at, n / 10);
    put_digit(out, next, n % 10)
}

// The digits of a number, all but the last by a call of itself.
fn put_digits(out: &mut [u8], at: usize, n: u32) -> usize
    requires { at + length (decimal n) ≤ length out.old }
    ensures { PutAt out.old at (decimal n) result out.new }
{
    if n < 10 {
        return put_digit(out, at, n);
    }
    let next = put_digits(out, at, n / 10);
    put_digit(out, next, n % 10)
}

// A number in decimal digits, of which there are ten at most.
pub fn put_number(out: &mut [u8], at: usize, n: u32) -> usize
    requires { at + 10 ≤ length out.old }
    ensures { PlacedAt out.old at (decimal n) 10 result out.new }
{
    put_digits(out, at, n)
}

// A lent buffer, of which the first `len` bytes are put. A contract sees these, and the free bytes behind them.
#[derive(Drop)]
pub struct Text<'a> {
    room: &'a mut [u8],
    len: usize,
}

impl<'a> Model for Text<'a> {
    ghost use Rattle.std.specs.Prelude.{◌≤◌, length, take, drop};
    ghost use Rattle.text.specs.Written.{Written};

    ghost Value = { Written };

    ghost view = { λ t. record { bytes = take t.len t.room.now; free = drop t.len t.room.now } };

    ghost invariant = { λ t. t.len ≤ length t.room.now };
}

impl<'a> Text<'a> {
    // No byte is put yet, and the whole buffer is free.
    pub fn new(room: &'a mut [u8]) -> Text<'a>
        ensures bytes { result.bytes ≡ [] }
        ensures free { result.free ≡ room.old }
    {
        Text { room, len: 0 }
    }

    // The bytes that are put, and the free bytes behind them.
    pub fn into_parts(self) -> (&'a mut [u8], &'a mut [u8])
        ensures bytes { result.0.now ≡ self.entry.bytes }
        ensures free { result.1.now ≡ self.entry.free }
    {
        let Text { room, len } = self;
        room.split_at_mut(len)
    }

    // The bytes that are put.
    pub fn into_bytes(self) -> &'a mut [u8]
        ensures { result.now ≡ self.entry.bytes }
    {
        self.into_parts().0
    }

    // One byte.
    pub fn push_byte(&mut self, b: u8)
        requires { 1 ≤ length self.old.free }
        ensures { Put self.old (b ∷ []) self.new }
    {
        self.len = put_byte(self.room, self.len, b);
    }

    // The bytes of a slice.
    pub fn push_bytes(&mut self, bytes: &[u8])
        requires { length bytes.now ≤ length self.old.free }
        ensures { Put self.old bytes.now self.new }
    {
        self.len = put_bytes(self.room, self.len, bytes);
    }

    // A number below 100 in two digits.
    pub fn push_two_digits(&mut self, n: u32)
        requires n_bound { n < 100 }
        requires free_bound { 2 ≤ length self.old.free }
        ensures { Put self.old (two_digits n) self.new }
    {
        self.len = put_two_digits(self.room, self.len, n);
    }

    // A number in decimal digits, of which there are ten at most.
    pub fn push_number(&mut self, n: u32)
        requires { 10 ≤ length self.old.free }
        ensures { Placed self.old (decimal n) 10 self.new }
    {
        self.len = put_number(self.room, self.len, n);
    }
}
