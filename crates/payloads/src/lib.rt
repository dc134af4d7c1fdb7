// Payloads (document 01, "Payloads, first bit highest in its byte"): the fields of a lent payload, an authentication's payload
// written, the parts of a message, and what options ask and features offer (Tables 4 and 5). No public function has a
// `requires`: a field past a slice's end is zero, and what has no room is dropped.
//
// Between bools stand `&` and `|`, here and in the crates above, and no `&&`, which may branch: where a message comes, the places
// of a command's fields hold its data, and data chooses no branch.
#![tactic(auto)]

ghost use Rattle.std.specs.Prelude.{◌≡◌, [], ◌∷◌, ◌++◌, ◌≤◌, ◌<◌, length};
ghost use Rattle.bits.specs.Bits.{bits_of};
ghost use Rattle.bits.specs.Bytes.{bits_of_bytes, field_of};
ghost use Rattle.bits.specs.Area.{shown};
ghost use Rattle.payloads.specs.Parts.{Says};
ghost use Rattle.payloads.specs.Payloads.{layout_of, fields_in, features_in, status_in, data_bits, zeros_of, length_fits, has_bit, mac_bits, securing, supports, offers, supports_start, beyond_of};

// No message has more data bits.
pub const DATA_BITS: usize = 2048;

// A number at or above it is refused with 11: it has 48 bits.
pub const NUMBER_LIMIT: u64 = 1 << 48;

// The fields that both authentication commands begin with. Bytes and no enums: they are what came, and a call answers them all
// (`demand1_tag`).
#[derive(Clone, Copy)]
pub struct Fields {
    pub method: u8,
    pub step: u8,
    pub options: u8,
    pub keyid: u8,
}

// An authentication's payload, by its fields: bytes of any value, of which `layout_of` takes the low bits. Some hold keystream
// bits, so it derives no `==`, which would branch on them.
#[derive(Clone, Copy)]
pub enum Payload {
    StepZero {
        method: u8,
        options: u8,
        keyid: u8,
        number: u64,
    },
    StepOne {
        method: u8,
        options: u8,
        keyid: u8,
        keystream: u64,
    },
    TagProof {
        features: u8,
        number: u64,
        keystream: u64,
    },
    TagChallenge {
        features: u8,
        number: u64,
    },
    Status(u8),
    MutualProof(u64),
    Nothing,
}

// A field of a payload that is written: its width in bits, and its value.
#[derive(Clone, Copy)]
struct Part {
    bits: usize,
    value: u64,
}

impl Part {
    // No field.
    const NONE: Part = Part { bits: 0, value: 0 };

    fn new(bits: usize, value: u64) -> Part
        ensures { result ≡ record { bits = bits; value = value } }
    {
        Part { bits, value }
    }
}

// Whether a bit count goes beyond the slice.
pub fn beyond(s: &[u8], count: usize) -> bool
    ensures { result ≡ beyond_of s.now count }
{
    bits::bits_in(s, count) < count
}

// ---- authentications

// The first fields of a command.
pub fn first_fields(payload: &[u8]) -> Fields
    ensures { result ≡ fields_in (bits_of_bytes payload.now) }
{
    Fields {
        method: small_field(payload, 0, 2),
        step: small_field(payload, 2, 2),
        options: small_field(payload, 4, 4),
        keyid: small_field(payload, 8, 8),
    }
}

// The features in a response to step 0.
pub fn features(payload: &[u8]) -> u8
    ensures { result ≡ features_in (bits_of_bytes payload.now) }
{
    small_field(payload, 0, 8)
}

// The status in a response to step 1: its one bit, a byte as it came.
pub fn status(payload: &[u8]) -> u8
    ensures { result ≡ status_in (bits_of_bytes payload.now) }
{
    small_field(payload, 0, 1)
}

// Writes a payload into the reply area; the answer is how many bits it has.
pub fn write(p: Payload, out: &mut [u8]) -> usize
    ensures value { result ≡ length (layout_of p) }
    ensures out_after { out.new ≡ shown (layout_of p) out.old }
{
    bits::clear(out);
    let mut at = 0;
    for part in parts_of(p) {
        bits::put(out, at, part.bits, part.value);
        at += part.bits;
    }
    at
}

// A payload's fields, one behind the other. There are three at most, and no heap for fewer: `NONE` has no bits, and writes nothing.
fn parts_of(p: Payload) -> [Part; 3]
    ensures { Says p result }
{
    match p {
        Payload::StepZero {
            method,
            options,
            keyid,
            number,
        } => command(head(method, 0, options), keyid, Part::new(48, number)),
        Payload::StepOne {
            method,
            options,
            keyid,
            keystream,
        } => command(head(method, 1, options), keyid, Part::new(64, keystream)),
        Payload::TagProof {
            features,
            number,
            keystream,
        } => challenge(features, number, Part::new(64, keystream)),
        Payload::TagChallenge { features, number } => challenge(features, number, Part::NONE),
        Payload::Status(s) => [Part::new(1, s as u64), Part::NONE, Part::NONE],
        Payload::MutualProof(keystream) => [Part::new(1, 0), Part::new(64, keystream), Part::NONE],
        Payload::Nothing => [Part::NONE, Part::NONE, Part::NONE],
    }
}

fn command(head: u64, keyid: u8, last: Part) -> [Part; 3]
    ensures { result ≡ record { bits = 8; value = head } ∷ record { bits = 8; value = keyid } ∷ last ∷ [] }
{
    [Part::new(8, head), Part::new(8, keyid as u64), last]
}

fn challenge(features: u8, number: u64, last: Part) -> [Part; 3]
    ensures { result ≡ record { bits = 8; value = features } ∷ record { bits = 48; value = number } ∷ last ∷ [] }
{
    [Part::new(8, features as u64), Part::new(48, number), last]
}

// The first byte of an authentication command: method, step, options.
fn head(method: u8, step: u8, options: u8) -> u64
    requires { step < 4 }
    ensures { bits_of 8 result ≡ bits_of 2 method ++ (bits_of 2 step ++ bits_of 4 options) }
{
    let m = method as u64;
    let s = step as u64;
    let o = options as u64;
    (m * 4 + s) * 16 + o % 16
}

// A field of at most eight bits.
fn small_field(s: &[u8], at: usize, w: usize) -> u8
    requires { w ≤ 8 }
    ensures { result ≡ field_of at w (bits_of_bytes s.now) }
{
    let x = bits::field(s, at, w);
    x as u8
}

// ---- messages: data, eight zero bits, MAC

// How many of a message's bits are data, where the MAC has `w` bits.
pub fn data_bits(w: usize, count: usize) -> usize
    ensures { result ≡ data_bits w count }
{
    count.saturating_sub(8).saturating_sub(w)
}

// Whether its eight zero bits are zero. They are in the clear also in a secure message, so they are looked at before anything is
// decrypted.
#[tactic(auto, unfolding(crate::specs::Payloads::zeros_of))]
pub fn zeros(w: u8, payload: &[u8], count: usize) -> bool
    ensures { result ≡ zeros_of w count (bits_of_bytes payload.now) }
{
    let n = data_bits(w as usize, count);
    bits::field(payload, n, 8) == 0
}

// Whether its length leaves room for both, and for no more data than there may be.
pub fn length_fits(w: u8, count: usize) -> bool
    ensures { result ≡ length_fits w count }
{
    let size = w as usize;
    (8 + size <= count) & (count <= DATA_BITS + 8 + size)
}

// ---- options and features: that options are below 4 each rule asks itself, as its definition does (`supports`, `reader_fits`)

// The bit at `k`, the lowest at 0.
fn bit(x: u8, k: u8) -> bool
    requires { k < 8 }
    ensures { result ≡ has_bit k x }
{
    (x >> k) & 1 == 1
}

// The bits of the MAC that options choose.
pub fn mac_bits(options: u8) -> u8
    ensures { result ≡ mac_bits options }
{
    if bit(options, 0) { 64 } else { 32 }
}

// Whether options ask for secure messages.
pub fn secure(options: u8) -> bool
    ensures { result ≡ securing options }
{
    bit(options, 1)
}

// Whether features support options. By `&` and `|`, and no `match` or `if`, here and in the two below: where a message comes, its
// data stands for options and method.
pub fn supported(features: u8, options: u8) -> bool
    ensures { result ≡ supports features options }
{
    let wide = bit(options, 0);
    let mac = (wide & bit(features, 3)) | (!wide & bit(features, 2));
    (options < 4) & mac & (!secure(options) | bit(features, 4))
}

// Whether features offer a method: its own bit. 0 is TA, 1 IA and 2 MA, which `rules` above names.
pub fn offered(features: u8, method: u8) -> bool
    ensures { result ≡ offers features method }
{
    ((method == 0) & bit(features, 0)) | ((method == 1) & bit(features, 1)) | (method == 2)
}

// Whether they support a method's step 0.
pub fn start_supported(features: u8, method: u8, options: u8) -> bool
    ensures { result ≡ supports_start features method options }
{
    let ta = method == 0;
    offered(features, method) & ((ta & supported(features, options)) | (!ta & (options == 0)))
}
