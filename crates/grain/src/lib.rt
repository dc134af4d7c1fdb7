// Grain-128A (Annex C and clause 9 of ISO/IEC 29167-13): the pre-output generator, its start, the keystream and the MAC. No
// public function has a `requires`. A message is the first bits of a lent slice; where its count goes past the slice, it is the
// bits that are there.
#![tactic(auto)]

mod taps;

ghost use Rattle.std.specs.Prelude.{◌≡◌, cond, false, ℕ, ◌<◌, ◌≤◌, ◌^◌, ◌%◌, get_or, length, take};
ghost use Rattle.bits.specs.Bits.{bits_of, num_of};
ghost use Rattle.bits.specs.Bytes.{bits_of_bytes, with_front, word_bits};
ghost use Rattle.grain.specs.Generator.{push, product, value, clock, out, bit_at, next_b, next_s};
ghost use Rattle.grain.specs.Start.{loaded, started, provers};
ghost use Rattle.grain.specs.Mac.{padding, taken, filled, absorbed, authenticated, encrypted, decrypted};
ghost use Rattle.grain.specs.Stored.{width_of, bits_r, register_of, state_of, engine_of, mac_of, session_of, outputs_of, pair_of, keystream_of, place_of, places, terms};

use taps::Tap;

// Who is authenticated (Table 2): the tag, the interrogator, or both.
#[derive(Clone, Copy, PartialEq, Eq)]
pub enum Method {
    Ta,
    Ia,
    Ma,
}

// The size of the MAC (Table 4, bit 0).
#[derive(Clone, Copy, PartialEq, Eq)]
pub enum Width {
    Mac32,
    Mac64,
}

// 128 bits: bit 0 is the highest of `first`. What holds a key or what is made of one derives no `==`, which would branch on secrets,
// and no `Debug`, which would print them.
#[derive(Clone, Copy, Default)]
pub struct Register {
    pub first: u64,
    pub last: u64,
}

// The NFSR b and the LFSR s.
#[derive(Clone, Copy, Default)]
pub struct Engine {
    pub b: Register,
    pub s: Register,
}

// A generator with the MAC's accumulator and shift register, each a number of w bits.
#[derive(Clone, Copy, Default)]
pub struct Session {
    pub engine: Engine,
    pub acc: u64,
    pub reg: u64,
}

// Bits that were put out, the first highest, and the generator after them. This and `Pair` are named for what they hold, which a
// tuple or a generic would not say.
#[derive(Clone, Copy)]
pub struct Outputs {
    pub word: u64,
    pub engine: Engine,
}

// A pair of outputs, and the generator after it.
#[derive(Clone, Copy)]
pub struct Pair {
    pub key: bool,
    pub mac: bool,
    pub engine: Engine,
}

impl Method {
    // s96 and s97, as the two bits of a number.
    #[tactic(auto, unfolding(bits::specs::Bits::num_of))]
    fn proving(self) -> u64
        ensures value { result ≡ num_of (provers self) }
        ensures small { result < 4 }
    {
        match self {
            Method::Ta => 2,
            Method::Ia => 1,
            Method::Ma => 3,
        }
    }
}

impl Width {
    pub fn bits(self) -> usize
        ensures { result ≡ width_of self }
    {
        match self {
            Width::Mac32 => 32,
            Width::Mac64 => 64,
        }
    }

    // The low bits of a word, as many as a MAC has.
    fn narrow(self, x: u64) -> u64
        ensures { result ≡ num_of (bits_of (width_of self) x) }
    {
        match self {
            Width::Mac32 => x % (1 << 32),
            Width::Mac64 => x,
        }
    }
}

impl Engine {
    // The registers as clause 9 sets them up, before the first clock. Of a number only the low 48 bits count. The four are clause
    // 9's, and no struct: of the suite `states::session::begin` alone hands them on.
    pub fn load(key: Register, method: Method, reader: u64, tag: u64) -> Engine
        ensures { result ≡ engine_of (loaded method (bits_r key) reader tag) }
    {
        let s = Register {
            first: (1 << 63) + (reader % (1 << 47)) * (1 << 16) + tag / (1 << 32) % (1 << 16),
            last: (tag % (1 << 32)) * (1 << 32) + method.proving() * (1 << 30) + ((1 << 30) - 2),
        };
        Engine { b: key, s }
    }

    // The 256 clocks whose outputs go back into both registers.
    pub fn start(self) -> Engine
        ensures { result ≡ engine_of (started (state_of self)) }
    {
        let mut e = self;
        for _ in 0usize..256 {
            e = e.clock(e.out());
        }
        e
    }

    // The next `n` outputs, 64 at most.
    pub fn outputs(self, n: usize) -> Outputs
        ensures { result ≡ outputs_of (word_bits n) (state_of self) }
    {
        let w = bits::word_bits(n);
        let mut e = self;
        let mut word: u64 = 0;
        for _ in 0..w {
            word = (word << 1) | (e.out() as u64);
            e = e.clock(false);
        }
        Outputs { word, engine: e }
    }

    // The next pair: a keystream bit, then a MAC bit.
    pub fn pair(self) -> Pair
        ensures { result ≡ pair_of (state_of self) }
    {
        let key = self.out();
        let e = self.clock(false);
        let mac = e.out();
        let engine = e.clock(false);
        Pair { key, mac, engine }
    }

    // The next 64 keystream bits; the MAC bits of their pairs are thrown away.
    pub fn keystream(self) -> Outputs
        ensures { result ≡ keystream_of 64 (state_of self) }
    {
        let mut e = self;
        let mut word: u64 = 0;
        for _ in 0usize..64 {
            let p = e.pair();
            word = (word << 1) | (p.key as u64);
            e = p.engine;
        }
        Outputs { word, engine: e }
    }

    // The next outputs fill the accumulator and then the shift register.
    pub fn fill(self, width: Width) -> Session
        ensures { result ≡ session_of (filled (width_of width) (state_of self)) }
    {
        let w = width.bits();
        let acc = self.outputs(w);
        let reg = acc.engine.outputs(w);
        Session {
            engine: reg.engine,
            acc: acc.word,
            reg: reg.word,
        }
    }

    #[tactic(auto, unfolding(crate::specs::Stored::state_of))]
    fn bit(self, tap: Tap) -> bool
        ensures { result ≡ bit_at (state_of self) (place_of tap) }
    {
        match tap {
            Tap::B(place) => self.b.bit(place),
            Tap::S(place) => self.s.bit(place),
        }
    }

    // No `all`, which stops at the first 0: secrets choose no branch.
    fn product(self, taps: &[Tap]) -> bool
        ensures { result ≡ product (state_of self) (places taps.now) }
    {
        taps.iter().fold(true, |all, &tap| all & self.bit(tap))
    }

    // The sum of a table's products. As a call for each table a start takes three times as long.
    #[inline(always)]
    fn value<const N: usize>(self, table: &[[Tap; N]]) -> bool
        ensures { result ≡ value (state_of self) (terms table.now) }
    {
        // A loop and no fold: tried, and no `ensures` was found for the closure, as the function is generic; with its own it is no
        // plainer.
        let mut sum = false;
        for taps in table {
            sum ^= self.product(taps);
        }
        sum
    }

    fn out(self) -> bool
        ensures { result ≡ out (state_of self) }
    {
        self.value(&taps::OUTPUT_TWOFOLD)
            ^ self.value(&taps::OUTPUT_THREEFOLD)
            ^ self.value(&taps::OUTPUT_SINGLE)
    }

    fn next_b(self) -> bool
        ensures { result ≡ value (state_of self) next_b }
    {
        self.value(&taps::NEXT_B_SINGLE)
            ^ self.value(&taps::NEXT_B_TWOFOLD)
            ^ self.value(&taps::NEXT_B_FOURFOLD)
            ^ self.value(&taps::NEXT_B_THREEFOLD)
    }

    fn next_s(self) -> bool
        ensures { result ≡ value (state_of self) next_s }
    {
        self.value(&taps::NEXT_S)
    }

    // One clock, with `f` added into both new bits.
    #[tactic(auto, unfolding(crate::specs::Generator::clock, crate::specs::Stored::engine_of, crate::specs::Stored::state_of))]
    fn clock(self, f: bool) -> Engine
        ensures { result ≡ engine_of (clock f (state_of self)) }
    {
        Engine {
            b: self.b.push(self.next_b() ^ f),
            s: self.s.push(self.next_s() ^ f),
        }
    }
}

// The width is beside the session, and no field of it: it is public, and a face holds it.
impl Session {
    // The MAC goes over the first `count` bits of `bytes` and the padding bit; it is the accumulator that comes back.
    pub fn authenticate(self, width: Width, bytes: &[u8], count: usize) -> Session
        ensures { result ≡ session_of (authenticated (take count (bits_of_bytes bytes.now)) (mac_of (width_of width) self)) }
    {
        self.absorb(bytes, count).pad(width)
    }

    // The first `count` bits of `bytes` are encrypted where they stand, and the MAC goes over the encrypted bits.
    pub fn encrypt(self, width: Width, bytes: &mut [u8], count: usize) -> Session
        ensures { (result ≡ session_of (authenticated (encrypted (take count (bits_of_bytes bytes.old)) (mac_of (width_of width) self)) (mac_of (width_of width) self)))
            × (bytes.new ≡ with_front count (encrypted (take count (bits_of_bytes bytes.old)) (mac_of (width_of width) self)) bytes.old) }
    {
        self.cipher::<false>(bytes, count).pad(width)
    }

    // The first `count` bits of `bytes` are decrypted where they stand, and the MAC goes over the bits as they came.
    pub fn decrypt(self, width: Width, bytes: &mut [u8], count: usize) -> Session
        ensures { (result ≡ session_of (authenticated (take count (bits_of_bytes bytes.old)) (mac_of (width_of width) self)))
            × (bytes.new ≡ with_front count (decrypted (take count (bits_of_bytes bytes.old)) (mac_of (width_of width) self)) bytes.old) }
    {
        self.cipher::<true>(bytes, count).pad(width)
    }

    // A message bit goes in. At 32 bits the words' high halves hold what has left the shift register; `pad` drops it.
    fn step(self, m: bool) -> Session
        ensures { (w : ℕ) → 0 < w → w ≤ 64 → mac_of w result ≡ taken m (mac_of w self) }
    {
        let p = self.engine.pair();
        Session {
            engine: p.engine,
            acc: self.acc ^ ((m as u64) * self.reg),
            reg: (self.reg << 1) | (p.mac as u64),
        }
    }

    // A bit is no element of the slice, so the fold here and the loop below go over places.
    fn absorb(self, bytes: &[u8], count: usize) -> Session
        ensures { (w : ℕ) → 0 < w → w ≤ 64 → mac_of w result ≡ absorbed (take count (bits_of_bytes bytes.now)) (mac_of w self) }
    {
        let n = bits::bits_in(bytes, count);
        (0..n).fold(self, |x, i| x.step(bits::bit_at(bytes, i)))
    }

    // Each bit has its keystream bit added, and of the two the encrypted one goes into the MAC. A constant, so that both ways have
    // one proof, and none is chosen at run time.
    fn cipher<const DECRYPTING: bool>(self, bytes: &mut [u8], count: usize) -> Session
        ensures { (w : ℕ) → 0 < w → w ≤ 64 →
            (mac_of w result ≡ absorbed (cond DECRYPTING (take count (bits_of_bytes bytes.old)) (encrypted (take count (bits_of_bytes bytes.old)) (mac_of w self))) (mac_of w self))
            × (bytes.new ≡ with_front count (cond DECRYPTING (decrypted (take count (bits_of_bytes bytes.old)) (mac_of w self)) (encrypted (take count (bits_of_bytes bytes.old)) (mac_of w self))) bytes.old) }
    {
        let n = bits::bits_in(bytes, count);
        let mut x = self;
        for i in 0..n {
            let m = bits::bit_at(bytes, i);
            let k = x.engine.out();
            bits::set_bit(bytes, i, m ^ k);
            x = x.step(m ^ (k & !DECRYPTING));
        }
        x
    }

    // The padding bit 1 goes in, and accumulator and shift register are cut to the width.
    fn pad(self, width: Width) -> Session
        ensures { result ≡ session_of (taken padding (mac_of (width_of width) self)) }
    {
        let x = self.step(true);
        Session {
            acc: width.narrow(x.acc),
            reg: width.narrow(x.reg),
            ..x
        }
    }
}

impl Register {
    fn bit(self, place: usize) -> bool
        ensures { result ≡ get_or (bits_r self) place false }
    {
        match place {
            0..64 => word_bit(self.first, place),
            64..128 => word_bit(self.last, place - 64),
            _ => false,
        }
    }

    fn push(self, x: bool) -> Register
        ensures { result ≡ register_of (push x (bits_r self)) }
    {
        Register {
            first: (self.first << 1) | (self.last >> 63),
            last: (self.last << 1) | (x as u64),
        }
    }
}

// Bits and payloads have the like of a byte, and each its own width.
#[tactic(auto, using(bits::proofs::Words::word_bit_lem))]
fn word_bit(n: u64, place: usize) -> bool
    requires { place < 64 }
    ensures { result ≡ get_or (bits_of 64 n) place false }
{
    (n >> (63 - place)) & 1 == 1
}
