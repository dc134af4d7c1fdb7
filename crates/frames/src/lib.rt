// Host frames: a kind byte, a bit count, and the payload's bytes (document 01, "Host frames"). No public function has a
// `requires`: every slice and every place gets an answer.
#![tactic(auto)]

ghost use Rattle.std.specs.Prelude.{◌≡◌, ◌+◌, ◌≤◌, Ok, length, take, drop};
ghost use Rattle.std.proofs.lemmas.List.Edits.{sets};
ghost use Rattle.counts.specs.Count.{count_bytes};
ghost use Rattle.counts.specs.Payload.{size_of, check_of};
ghost use Rattle.frames.specs.Frame.{limit_of, framed, scan_of, payload_of, frame_of, placed, written_of, out_after};

use counts::Counted;
pub use counts::Refusal;

// The last kind: a reset, which has no bits.
const RESET: u8 = 6;

// The longest payload: 2,048 data bits, eight zero bits and a MAC of 64.
const MOST_BITS: usize = 2120;

// What stands at the front of a slice: a payload of `count` bits from `start` up to `end`, where the next frame begins.
#[derive(Clone, Copy, PartialEq, Eq)]
pub struct Frame {
    // A byte and no enum: a write, a host's run and C take every byte, and each answers those above 6.
    pub kind: u8,
    pub count: usize,
    pub start: usize,
    pub end: usize,
}

// The frame that `s` begins with.
#[tactic(auto, unfolding(crate::specs::Frame::scan_of, crate::specs::Frame::after_count))]
pub fn scan(s: &[u8]) -> Result<Frame, Refusal>
    ensures { result ≡ scan_of s.now }
{
    let Some(&kind) = s.first() else {
        return Err(Refusal::Short);
    };
    if RESET < kind {
        return Err(Refusal::Kind);
    }
    let counted = counts::read(s, 1, MOST_BITS)?;
    frame_at(s, kind, counted)
}

// The payload of the frame that `s` begins with, as a part of `s`. No `Result`: a refused read hands back an empty part
// (docs/DECISIONS.md 9).
#[tactic(auto, unfolding(crate::specs::Frame::payload_of, crate::specs::Frame::part_of))]
pub fn payload(s: &[u8]) -> &[u8]
    ensures { result.now ≡ payload_of s.now }
{
    match scan(s) {
        Err(_) => &s[..0],
        Ok(frame) => &s[frame.start..frame.end],
    }
}

// Writes a frame from `at` on, which may lie anywhere, past the end too; the place behind it. A refused write changes nothing, a
// done one only the frame's own bytes. Bytes of the payload behind its count are ignored. Kind, count and payload are no struct:
// `written_of` and `out_after`, which C's `kusarehyon_frame_write` has too, take them one by one.
#[tactic(auto, unfolding(crate::specs::Frame::out_after, crate::specs::Frame::changed))]
pub fn write(
    out: &mut [u8],
    at: usize,
    kind: u8,
    count: usize,
    payload: &[u8],
) -> Result<usize, Refusal>
    ensures value { result ≡ written_of (length out.old) at kind count payload.now }
    ensures out_after { out.new ≡ out_after out.old at kind count payload.now }
{
    let end = end_of(out.len(), at, kind, count, payload)?;
    put_frame(&mut out[at..], kind, count, payload);
    Ok(end)
}

// The frame whose payload is behind its count.
#[tactic(auto, unfolding(crate::specs::Frame::framed))]
fn frame_at(s: &[u8], kind: u8, counted: Counted) -> Result<Frame, Refusal>
    requires { counted.next ≤ length s.now }
    ensures { result ≡ framed kind counted (check_of (limit_of kind) counted.count (drop counted.next s.now)) }
{
    let Counted { count, next } = counted;
    counts::check(limit(kind), count, &s[next..])?;
    Ok(Frame {
        kind,
        count,
        start: next,
        end: next + counts::size(count),
    })
}

// The largest count of a kind.
#[tactic(auto, unfolding(crate::specs::Frame::limit_of))]
fn limit(kind: u8) -> usize
    ensures { result ≡ limit_of kind }
{
    if kind == RESET { 0 } else { MOST_BITS }
}

// The place behind a frame that may be written. Nothing is written before this is known.
#[tactic(auto, using(crate::proofs::Answers::frame_sizes), unfolding(crate::specs::Frame::written_of, crate::specs::Frame::placed))]
fn end_of(len: usize, at: usize, kind: u8, count: usize, payload: &[u8]) -> Result<usize, Refusal>
    ensures { result ≡ written_of len at kind count payload.now }
{
    if RESET < kind {
        return Err(Refusal::Kind);
    }
    counts::check(limit(kind), count, payload)?;
    place(len, at, 1 + counts::groups(count) + counts::size(count))
}

// Where `n` bytes from `at` on end, if they have room.
#[tactic(auto, unfolding(crate::specs::Frame::placed))]
fn place(len: usize, at: usize, n: usize) -> Result<usize, Refusal>
    ensures { result ≡ placed len (at + n) (Ok tt) }
{
    if len < at || len - at < n {
        return Err(Refusal::Room);
    }
    Ok(at + n)
}

// Writes a frame that is fine and has room at the front of `out`: each writer has the tail from its own place.
fn put_frame(out: &mut [u8], kind: u8, count: usize, payload: &[u8])
    requires { (size_of count ≤ length payload.now) × (1 + length (count_bytes count) + size_of count ≤ length out.old) }
    ensures { out.new ≡ sets out.old 0 (frame_of kind count payload.now) }
{
    out[0] = kind;
    counts::put(&mut out[1..], count);
    let p = 1 + counts::groups(count);
    put_payload(&mut out[p..], payload, counts::size(count));
}

// By its places: `copy_from_slice` of a length that no constant says is a call of `memmove`, which a C program without a C library would
// have to bring.
fn put_payload(out: &mut [u8], payload: &[u8], n: usize)
    requires { (n ≤ length payload.now) × (n ≤ length out.old) }
    ensures { out.new ≡ sets out.old 0 (take n payload.now) }
{
    let front = &mut out[..n];
    for (i, byte) in front.iter_mut().enumerate() {
        *byte = payload[i];
    }
}
