// Annex D of ISO/IEC 29167-13, line by line, through the public functions of `grain`. Each line of the tables is printed with its
// MAC, set and number; the file `stdout` holds the values that the standard prints.
#![tactic(auto)]

use grain::{Engine, Method, Register, Session, Width};
use text::Line;

// The longest line: 21 of its head, 80 digits of five words, and its end.
const LINE_BYTES: usize = 102;

// The message of every set, and its bits; `sessions` has them too, as the programs share no crate for their constants.
const MESSAGE: [u8; 5] = *b"\x12\x34\x56\x78\xAB";

const MESSAGE_BITS: usize = 40;

// A set of the tables: where its lines are printed, and what heads each of them, the MAC's width and the set's number.
#[derive(Drop)]
struct Set<'a, P> {
    rt: &'a P,
    width: Width,
    number: u64,
}

// Keystream bits and MAC bits, and the generator after their pairs.
#[derive(Clone, Copy)]
struct Streams {
    key: u64,
    mac: u64,
    engine: Engine,
}

fn main(rt: HostRuntime) {
    let zero = Register::default();
    let key = Register {
        first: 0x0123456789ABCDEF,
        last: 0xFEDCBA9876543210,
    };
    set_32(&rt, 1, zero, 0x800000000000, 0, Method::Ta, false);
    set_32(&rt, 2, zero, 0x800000000000, 0, Method::Ia, false);
    set_32(&rt, 3, zero, 0x800000000000, 0, Method::Ma, false);
    set_32(&rt, 4, zero, 0, 0, Method::Ma, false);
    set_32(&rt, 5, zero, 0x800000000000, 0, Method::Ma, true);
    set_32(
        &rt,
        6,
        key,
        0x112233445566,
        0x778899AABBCC,
        Method::Ma,
        true,
    );
    set_64(&rt, 1, zero, 0x800000000000, 0, Method::Ta);
    set_64(&rt, 2, zero, 0x800000000000, 0, Method::Ia);
}

// Tables D.1 to D.3. The inputs are parameters, as `Engine::load` takes them; with `secure` the message is sealed.
fn set_32(
    rt: &impl Print,
    number: u64,
    key: Register,
    reader: u64,
    tag: u64,
    method: Method,
    secure: bool,
) {
    let set = Set {
        rt,
        width: Width::Mac32,
        number,
    };
    let loaded = set.load(key, method, reader, tag);
    set.registers(4, loaded);
    let e = loaded.start();
    set.registers(6, e);
    let more = second_bits(method);
    set.pre_output(e, more);
    let x = e.fill(set.width);
    set.number(9, x.acc, 32);
    set.number(10, x.reg, 32);
    set.streams(x.engine, more);
    set.command(set.keystreams(13, x, method), secure);
}

// Table D.4.
fn set_64(rt: &impl Print, number: u64, key: Register, reader: u64, tag: u64, method: Method) {
    let set = Set {
        rt,
        width: Width::Mac64,
        number,
    };
    let x = set.load(key, method, reader, tag).start().fill(set.width);
    let y = set.keystreams(4, x, method);
    set.message(6);
    set.missing(8);
    let z = y.authenticate(set.width, &MESSAGE, MESSAGE_BITS);
    set.number(9, z.acc, 64);
}

// The bits of a second word of keystream, which only MA takes: of no bits nothing is written, so that the lines are the same code.
fn second_bits(method: Method) -> usize {
    match method {
        Method::Ta | Method::Ia => 0,
        Method::Ma => 64,
    }
}

fn split(e: Engine, n: usize) -> Streams {
    let mut s = Streams {
        key: 0,
        mac: 0,
        engine: e,
    };
    for _ in 0..n {
        let p = s.engine.pair();
        s = Streams {
            key: (s.key << 1) | u64::from(p.key),
            mac: (s.mac << 1) | u64::from(p.mac),
            engine: p.engine,
        };
    }
    s
}

// The low `bits` bits of x as whole bytes, zeros at the end, as Annex D writes them.
fn hex(line: &mut Line<LINE_BYTES>, x: u64, bits: usize) {
    let mut bytes = [0u8; 8];
    bits::put(&mut bytes, 0, bits, x);
    line.hex(&bytes, bits.div_ceil(8));
}

impl<'a, P: Print> Set<'a, P> {
    // Lines 1 to 3, and the generator as the inputs load it.
    fn load(&self, key: Register, method: Method, reader: u64, tag: u64) -> Engine {
        self.register(1, key);
        self.number(2, reader, 48);
        self.number(3, tag, 48);
        Engine::load(key, method, reader, tag)
    }

    // Line 8: what fills accumulator and shift register, then the pairs of the keystream's words, two words for each.
    fn pre_output(&self, e: Engine, more: usize) {
        let mut line = self.begin(8);
        let mut g = e;
        for bits in [64, 64, 64, more, more] {
            let next = g.outputs(64);
            hex(&mut line, next.word, bits);
            g = next.engine;
        }
        console::print_line(self.rt, &mut line);
    }

    // Lines 11 and 12: the keystream bits and the MAC bits of the same pairs.
    fn streams(&self, e: Engine, more: usize) {
        let a = split(e, 64);
        let b = split(a.engine, 64);
        self.words(11, a.key, b.key, more);
        self.words(12, a.mac, b.mac, more);
    }

    // IKeyStream and TKeyStream, on two lines from `line` on; the session after them.
    fn keystreams(&self, line: u8, x: Session, method: Method) -> Session {
        let line = u64::from(line);
        let first = x.engine.keystream();
        let next = first.engine;
        let engine = match method {
            Method::Ta => {
                self.missing(line);
                self.number(line + 1, first.word, 64);
                next
            }
            Method::Ia => {
                self.number(line, first.word, 64);
                self.missing(line + 1);
                next
            }
            Method::Ma => {
                let second = next.keystream();
                self.number(line, first.word, 64);
                self.number(line + 1, second.word, 64);
                second.engine
            }
        };
        Session { engine, ..x }
    }

    // Lines 15 to 25.
    fn command(&self, x: Session, secure: bool) {
        self.message(15);
        let e = x.engine;
        self.registers(17, e);
        self.number(19, x.reg, 32);
        self.number(20, x.acc, 32);
        let whole = e.outputs(64);
        let rest = whole.engine.outputs(18);
        self.words(21, whole.word, rest.word, 18);
        let s = split(e, 41);
        self.number(22, s.key, 41);
        self.number(23, s.mac, 41);
        let mut data = MESSAGE;
        let y = if secure {
            let sealed = x.encrypt(self.width, &mut data, MESSAGE_BITS);
            self.number(24, bits::field(&data, 0, MESSAGE_BITS), MESSAGE_BITS);
            sealed
        } else {
            self.missing(24);
            x.authenticate(self.width, &data, MESSAGE_BITS)
        };
        self.number(25, y.acc, 32);
    }

    // The message, and its length in bits.
    fn message(&self, line: u8) {
        let line = u64::from(line);
        self.number(line, bits::field(&MESSAGE, 0, MESSAGE_BITS), MESSAGE_BITS);
        self.text(line + 1, b"40");
    }

    // b and s, on two lines from `line` on.
    fn registers(&self, line: u8, e: Engine) {
        let line = u64::from(line);
        self.register(line, e.b);
        self.register(line + 1, e.s);
    }

    fn register(&self, line: u64, r: Register) {
        self.words(line, r.first, r.last, 64);
    }

    fn number(&self, line: u64, x: u64, bits: usize) {
        let mut line = self.begin(line);
        hex(&mut line, x, bits);
        console::print_line(self.rt, &mut line);
    }

    // A word, and the low `bits` bits of a second.
    fn words(&self, line: u64, first: u64, second: u64, bits: usize) {
        let mut line = self.begin(line);
        hex(&mut line, first, 64);
        hex(&mut line, second, bits);
        console::print_line(self.rt, &mut line);
    }

    fn missing(&self, line: u64) {
        self.text(line, b"N\\A");
    }

    fn text(&self, line: u64, text: &[u8]) {
        let mut line = self.begin(line);
        line.put(text);
        console::print_line(self.rt, &mut line);
    }

    // MAC, set and number.
    fn begin(&self, number: u64) -> Line<LINE_BYTES> {
        let mut line = Line::new();
        line.put(b"MAC");
        line.decimal(self.width.bits() as u64);
        line.put(b" set ");
        line.decimal(self.number);
        line.put(b" line ");
        line.decimal(number);
        line.put(b": ");
        line
    }
}
