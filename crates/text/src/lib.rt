// The text of a line, in ASCII, written into a lent buffer from a place on. Every function answers the place behind its text, and a
// `Line` keeps both. No public function has a `requires`: what would stand past the buffer's end is dropped.
#![tactic(auto)]

ghost use Rattle.std.specs.Prelude.{◌≡◌, [], ◌∷◌, ◌<◌, take, replicate};
ghost use Rattle.text.specs.Text.{Writes, Appends, decimal_of, hex_of, hex_byte, spaced_of, reply_of};
ghost use Rattle.text.specs.Text.{digit as Text·digit};

// A text that is at hand.
pub fn put(out: &mut [u8], at: usize, text: &[u8]) -> usize
    ensures { Writes text.now out.old at out.new result }
{
    let mut next = at;
    for &b in text {
        next = byte(out, next, b);
    }
    next
}

// A number in decimal digits, with no zero in front. It is by hand, as `hex` is: `write!` states its text where it gives `Ok`, and
// no clause says that it does, so that `Writes` did not prove of it.
#[tactic(auto, using(crate::proofs::Digits::decimal_one))]
pub fn decimal(out: &mut [u8], at: usize, n: u64) -> usize
    ensures { Writes (decimal_of n) out.old at out.new result }
{
    if n < 10 {
        return byte(out, at, digit(n as u8));
    }
    let next = decimal(out, at, n / 10);
    byte(out, next, digit((n % 10) as u8))
}

// The first `n` bytes, in two hexadecimal digits each, capitals.
pub fn hex(out: &mut [u8], at: usize, bytes: &[u8], n: usize) -> usize
    ensures { Writes (hex_of (take n bytes.now)) out.old at out.new result }
{
    let mut next = at;
    for &b in &bytes[..n.min(bytes.len())] {
        next = pair(out, next, b);
    }
    next
}

// A number, and the space behind it.
pub fn spaced(out: &mut [u8], at: usize, n: u64) -> usize
    ensures { Writes (spaced_of n) out.old at out.new result }
{
    let next = decimal(out, at, n);
    byte(out, next, b' ')
}

// A reply's `count` bits in whole bytes, or `-` where it has none.
#[tactic(auto, unfolding(crate::specs::Text::reply_of))]
pub fn reply(out: &mut [u8], at: usize, bytes: &[u8], count: usize) -> usize
    ensures { Writes (reply_of count bytes.now) out.old at out.new result }
{
    if count == 0 {
        return byte(out, at, b'-');
    }
    hex(out, at, bytes, count.div_ceil(8))
}

fn pair(out: &mut [u8], at: usize, b: u8) -> usize
    ensures { Writes (hex_byte b) out.old at out.new result }
{
    let next = byte(out, at, digit(b / 16));
    byte(out, next, digit(b % 16))
}

fn byte(out: &mut [u8], at: usize, b: u8) -> usize
    ensures { Writes (b ∷ []) out.old at out.new result }
{
    // An index, and not `get_mut`: after it a proof knows no byte of the slice.
    if at < out.len() {
        out[at] = b;
        return at + 1;
    }
    at
}

fn digit(d: u8) -> u8
    requires { d < 16 }
    ensures { result ≡ Text·digit d }
{
    match d {
        0..=9 => b'0' + d,
        _ => b'A' + (d - 10),
    }
}

// A line's text, and the place behind what is written of it.
#[derive(Drop)]
pub struct Line<const N: usize> {
    pub bytes: [u8; N],
    pub at: usize,
}

// Each method but `new` writes what the function of its name does. They take the line by `&mut`: by value each would copy it. The
// functions stay public: `determined` has a theorem of each, and they write in any lent slice, as `console::print` does by `put`.
impl<const N: usize> Line<N> {
    // A line with no text.
    pub fn new() -> Self
        ensures { result ≡ record { bytes = replicate N 0; at = 0 } }
    {
        Line {
            bytes: [0; N],
            at: 0,
        }
    }

    pub fn put(&mut self, text: &[u8])
        ensures { Appends text.now self.old self.new }
    {
        self.at = put(&mut self.bytes, self.at, text);
    }

    pub fn decimal(&mut self, n: u64)
        ensures { Appends (decimal_of n) self.old self.new }
    {
        self.at = decimal(&mut self.bytes, self.at, n);
    }

    pub fn hex(&mut self, bytes: &[u8], n: usize)
        ensures { Appends (hex_of (take n bytes.now)) self.old self.new }
    {
        self.at = hex(&mut self.bytes, self.at, bytes, n);
    }

    pub fn spaced(&mut self, n: u64)
        ensures { Appends (spaced_of n) self.old self.new }
    {
        self.at = spaced(&mut self.bytes, self.at, n);
    }

    pub fn reply(&mut self, bytes: &[u8], count: usize)
        ensures { Appends (reply_of count bytes.now) self.old self.new }
    {
        self.at = reply(&mut self.bytes, self.at, bytes, count);
    }
}
