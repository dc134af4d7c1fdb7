// Counts, and the bytes that hold so many bits. A count is in groups of seven bits, lowest first, the high bit set on all but
// the last, in its shortest form (document 01, "Host frames"); its place says what it may be at most. A word has ten groups, so
// no call here goes deeper than ten. No public function has a `requires`: every slice, every place and every limit gets an
// answer.
#![tactic(auto)]

ghost use Rattle.std.specs.Prelude.{◌≡◌, ◌/◌, ◌≤◌, ◌<◌, Ok, length};
ghost use Rattle.std.proofs.lemmas.List.Edits.{sets};
ghost use Rattle.counts.specs.Refusal.{number_of};
ghost use Rattle.counts.specs.Count.{group, up_to, joined, count_at, count_bytes};
ghost use Rattle.counts.specs.Payload.{size_of, unused_of, check_of};

// What a group of seven bits is below, and a byte's high bit.
const GROUP: usize = 128;

// Why a frame, or anything else that has counts, is not read or not written: one list for every format. A count and its
// payload are refused by the first three alone.
#[derive(Clone, Copy, PartialEq, Eq)]
pub enum Refusal {
    // The slice ends too soon; at a write, the payload is shorter than its count.
    Short = 20,
    // The count is not shortest, or over its limit.
    Count = 21,
    // The unused bits are not zero.
    Unused = 22,
    // The kind is above 6.
    Kind = 23,
    // A write has no room from its place.
    Room = 24,
}

// A count that is read, and the place behind it.
#[derive(Clone, Copy, PartialEq, Eq)]
pub struct Counted {
    pub count: usize,
    pub next: usize,
}

impl From<Refusal> for u8 {
    ghost from_gives = { λ refusal number. number ≡ number_of refusal };

    // The number that document 01 gives it.
    fn from(refusal: Refusal) -> u8
        ensures { result ≡ number_of refusal }
    {
        refusal as u8
    }
}

// The count that begins at `at` and is at most `most`.
#[tactic(auto, using(crate::proofs::Counts::count_steps))]
pub fn read(s: &[u8], at: usize, most: usize) -> Result<Counted, Refusal>
    ensures { result ≡ count_at s.now at most }
{
    let Some(&byte) = s.get(at) else {
        return Err(Refusal::Short);
    };
    let group = usize::from(byte);
    if group < GROUP {
        return up_to(most, group, at + 1);
    }
    if most < GROUP {
        return Err(Refusal::Count);
    }
    let high = read(s, at + 1, most / GROUP)?;
    join(most, group - GROUP, high)
}

// The rules on a count and its payload that reading and writing share, in document 01's order.
#[tactic(auto, unfolding(crate::specs::Payload::check_of))]
pub fn check(limit: usize, count: usize, payload: &[u8]) -> Result<(), Refusal>
    ensures { result ≡ check_of limit count payload.now }
{
    if limit < count {
        return Err(Refusal::Count);
    }
    if payload.len() < size(count) {
        return Err(Refusal::Short);
    }
    if unused(payload, count) != 0 {
        return Err(Refusal::Unused);
    }
    Ok(())
}

// How many bytes hold `count` bits.
pub fn size(count: usize) -> usize
    ensures { result ≡ size_of count }
{
    count.div_ceil(8)
}

// How many groups a count takes: a byte each.
#[tactic(auto, using(crate::proofs::Counts::count_one, crate::proofs::Counts::count_more, crate::proofs::Counts::count_few))]
pub fn groups(count: usize) -> usize
    ensures { result ≡ length (count_bytes count) }
{
    if count < GROUP {
        1
    } else {
        1 + groups(count / GROUP)
    }
}

// Writes a count's bytes at the front of `out`. Those that have no room there are dropped.
#[tactic(auto, using(crate::proofs::Counts::count_one))]
pub fn put(out: &mut [u8], count: usize)
    ensures { out.new ≡ sets out.old 0 (count_bytes count) }
{
    let Some((first, rest)) = out.split_first_mut() else {
        return;
    };
    if count < GROUP {
        *first = count as u8;
        return;
    }
    *first = (count % GROUP + GROUP) as u8;
    put(rest, count / GROUP);
}

// A count, refused over `most`.
#[tactic(auto, unfolding(crate::specs::Count::up_to))]
fn up_to(most: usize, count: usize, next: usize) -> Result<Counted, Refusal>
    ensures { result ≡ up_to most count next }
{
    if most < count {
        return Err(Refusal::Count);
    }
    Ok(Counted { count, next })
}

// The count whose lowest group is `low` and whose other groups spell `high`: not in its shortest form where that is 0.
#[tactic(auto, unfolding(crate::specs::Count::joined))]
fn join(most: usize, low: usize, high: Counted) -> Result<Counted, Refusal>
    requires { (low < group) × (high.count ≤ most / group) }
    ensures { result ≡ joined most low (Ok high) }
{
    if high.count == 0 {
        return Err(Refusal::Count);
    }
    up_to(most, low + high.count * GROUP, high.next)
}

// The number in the unused bits of a payload, the lowest of its last byte. Where there are none, it is a remainder by 1.
#[tactic(auto, using(crate::proofs::Payloads::shl_one, crate::proofs::Payloads::unused_is))]
fn unused(payload: &[u8], count: usize) -> u8
    ensures { result ≡ unused_of count payload.now }
{
    let free = (8 - count % 8) % 8;
    bits::byte_at(payload, count / 8) % (1 << free)
}
