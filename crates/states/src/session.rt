// What both machines do with the cipher: start it from a key, choose its width, send and receive with it; and what a stored session
// must be.
ghost use Rattle.std.specs.Prelude.{◌≡◌, not, ◌||◌, ◌^◌, eqb, ltb, take};
ghost use Rattle.bits.specs.Bytes.{bits_of_bytes, with_front};
ghost use Rattle.states.specs.Sessions.{method_of, chosen_width, stored_width, key_in, begun_engine, after_message, body_of, data_of, sent_session, with_engine, unfilled, empty_engine, session_fits};

use grain::{Engine, Method, Register, Session, Width};

// The MAC that options bit 0 chooses. No `From`: it is one of the things that options say.
pub fn chosen_width(options: u8) -> Width
    ensures { result ≡ chosen_width options }
{
    stored_width(payloads::mac_bits(options))
}

// The MAC of a stored width. No `TryFrom`: a face may hold any byte, and `stored_width` says something of each.
pub fn stored_width(width: u8) -> Width
    ensures { result ≡ stored_width width }
{
    if width == 64 {
        Width::Mac64
    } else {
        Width::Mac32
    }
}

pub fn key_in(key: &[u8]) -> Register
    ensures { result ≡ key_in key.now }
{
    let first = bits::field(key, 0, 64);
    let last = bits::field(key, 64, 64);
    Register { first, last }
}

// The engine that a key, a method and the two numbers start, at either machine.
#[tactic(auto, unfolding(crate::specs::Sessions::begun_engine))]
pub fn begin(key: Register, method: u8, reader: u64, tag: u64) -> Engine
    ensures { result ≡ begun_engine key method reader tag }
{
    let m = method_of(method);
    let e = Engine::load(key, m, reader, tag);
    e.start()
}

// The method of a stored byte: 0 is TA, 1 is IA, any other is MA. No `TryFrom`, as a face may hold any byte.
#[tactic(auto, unfolding(crate::specs::Sessions::method_of))]
fn method_of(method: u8) -> Method
    ensures { result ≡ method_of method }
{
    match method {
        0 => Method::Ta,
        1 => Method::Ia,
        _ => Method::Ma,
    }
}

// ---- messages

// The first `count` bits of `bytes`, as they go out, where they stand. `secure` is a flag here and in `receive`, as `sent_session`,
// `body_of` and `data_of` have it.
pub fn send(x: Session, width: Width, secure: bool, bytes: &mut [u8], count: usize) -> Session
    ensures { (result ≡ sent_session width secure (take count (bits_of_bytes bytes.old)) x)
        × (bytes.new ≡ with_front count (body_of width secure (take count (bits_of_bytes bytes.old)) x) bytes.old) }
{
    if secure {
        return x.encrypt(width, bytes, count);
    }
    x.authenticate(width, bytes, count)
}

// The first `count` bits of `bytes`, as they came, become their data where they stand. Beside `send`, as its clause is another: the
// accumulator goes over the bits that came, and what is left is `data_of`, not `body_of`.
pub fn receive(x: Session, width: Width, secure: bool, bytes: &mut [u8], count: usize) -> Session
    ensures { (result ≡ after_message width (take count (bits_of_bytes bytes.old)) x)
        × (bytes.new ≡ with_front count (data_of width secure (take count (bits_of_bytes bytes.old)) x) bytes.old) }
{
    if secure {
        return x.decrypt(width, bytes, count);
    }
    x.authenticate(width, bytes, count)
}

// ---- stored sessions

// A struct update, with a theorem of its own (`with_engine_lem` in `determined`).
pub fn with_engine(x: Session, engine: Engine) -> Session
    ensures { result ≡ with_engine x engine }
{
    Session { engine, ..x }
}

// Before accumulator and register are filled.
pub(crate) fn unfilled(engine: Engine) -> Session
    ensures { result ≡ unfilled engine }
{
    Session {
        engine,
        ..Session::default()
    }
}

// Whether a session fits a state of this width, which may hold nothing where it is bare. What must be zero is gathered in one word,
// so that only `bare` and the width, which are public, choose.
#[tactic(auto, using(crate::proofs::Sessions::both_zero), unfolding(crate::specs::Sessions::session_fits))]
pub(crate) fn fits(bare: bool, width: u8, x: Session) -> bool
    ensures { result ≡ session_fits bare width x }
{
    let acc = above(x.acc, width);
    let reg = above(x.reg, width);
    let engine = x.engine;
    let held = held(bare, engine);
    (acc | reg | held) == 0
}

// What x has above its w low bits.
fn above(x: u64, w: u8) -> u64
    ensures { eqb result 0 ≡ ltb x (2 ^ w) }
{
    if w < 64 {
        return x >> w;
    }
    0
}

// What a bare state may not hold.
#[tactic(auto, using(crate::proofs::Sessions::both_zero))]
fn held(bare: bool, e: Engine) -> u64
    ensures { eqb result 0 ≡ (not bare || empty_engine e) }
{
    if bare {
        return e.b.first | e.b.last | e.s.first | e.s.last;
    }
    0
}
