// The suite for programs in C and Rust, over numbers and lent bytes; include/kusarehyon.h says what each function does, and `capi_c`
// hands them to C, which has no enums or structs of ours: each function takes and gives numbers. No function here has a `requires`:
// any call, with any bytes, gets an answer.
#![tactic(auto)]

ghost use Rattle.std.specs.Prelude.{◌≡◌, [], ◌∷◌, length};
ghost use Rattle.bits.specs.Area.{shown};
ghost use Rattle.book.specs.Book.{sound_of};
ghost use Rattle.frames.specs.Frame.{scan_of, written_of, out_after};
ghost use Rattle.rules.specs.Answers.{number_of};
ghost use Rattle.rules.specs.Results.{Result};
ghost use Rattle.blocks.specs.Blocks.{stored_in};
ghost use Rattle.capi.specs.Calls.{Leaves, Does, called, reset_called, tag_reset_called, command_called, response_called, close_answer, closed_block, error_type_called, reader_reset_called, begin_called, replied_called, send_called, receive_called, find_called, scanned_numbers, written_numbers};

use blocks::Block;
use rules::Answer;
use states::TagState;
use suite::{Begin, Command, Machine, Message, Reader, Step, Tag};

// A key's bits.
const KEY_BITS: usize = 8 * book::KEY_BYTES;

// ---- the tag

pub fn kusarehyon_tag_reset(state: &mut [u8], reply: &mut [u8], bits: &mut usize) -> u8
    ensures { Leaves (tag_reset_called state.old)
        result bits.new state.new reply.old reply.new }
{
    reset(state, reply, bits, Tag::reset)
}

pub fn kusarehyon_tag_command(
    state: &mut [u8],
    kind: u8,
    payload: &[u8],
    count: usize,
    features: u8,
    book: &[u8],
    number: u64,
    reply: &mut [u8],
    bits: &mut usize,
) -> u8
    ensures { Leaves (command_called state.old (record { kind = kind; payload = payload.now; count = count; features = features; book = book.now; number = number }) (length reply.old))
        result bits.new state.new reply.old reply.new }
{
    called(state, reply, bits, |tag: Tag, reply| {
        let command = Command {
            kind,
            payload,
            count,
            features,
            book,
            number,
        };
        tag.command(command, reply)
    })
}

pub fn kusarehyon_tag_response(
    state: &mut [u8],
    kind: u8,
    data: &[u8],
    count: usize,
    reply: &mut [u8],
    bits: &mut usize,
) -> u8
    ensures { Leaves (response_called state.old (record { kind = kind; payload = «data».now; count = count }) (length reply.old))
        result bits.new state.new reply.old reply.new }
{
    called(state, reply, bits, |tag: Tag, reply| {
        let message = Message {
            kind,
            payload: data,
            count,
        };
        tag.response(message, reply)
    })
}

pub fn kusarehyon_tag_close(state: &mut [u8]) -> u8
    ensures value { result ≡ close_answer state.old }
    ensures state_after { state.new ≡ closed_block state.old }
{
    let Some(held) = TagState::spelled(state) else {
        return u8::from(Answer::BadState);
    };
    let closed = Tag { state: held }.close();
    closed.state.store(state);
    u8::from(Answer::Done)
}

pub fn kusarehyon_tag_error_type(state: &[u8]) -> u8
    ensures { result ≡ error_type_called state.now }
{
    let Some(held) = TagState::spelled(state) else {
        return u8::from(Answer::BadState);
    };
    Tag { state: held }.error_type()
}

// ---- the reader

pub fn kusarehyon_reader_reset(state: &mut [u8], reply: &mut [u8], bits: &mut usize) -> u8
    ensures { Leaves (reader_reset_called state.old)
        result bits.new state.new reply.old reply.new }
{
    reset(state, reply, bits, Reader::reset)
}

pub fn kusarehyon_reader_begin(
    state: &mut [u8],
    method: u8,
    options: u8,
    keyid: u8,
    number: u64,
    book: &[u8],
    reply: &mut [u8],
    bits: &mut usize,
) -> u8
    ensures { Leaves (begin_called state.old (record { method = method; options = options; keyid = keyid; number = number; book = book.now }) (length reply.old))
        result bits.new state.new reply.old reply.new }
{
    called(state, reply, bits, |reader: Reader, reply| {
        let begin = Begin {
            method,
            options,
            keyid,
            number,
            book,
        };
        reader.begin(begin, reply)
    })
}

pub fn kusarehyon_reader_replied(
    state: &mut [u8],
    payload: &[u8],
    count: usize,
    reply: &mut [u8],
    bits: &mut usize,
) -> u8
    ensures { Leaves (replied_called state.old payload.now count (length reply.old))
        result bits.new state.new reply.old reply.new }
{
    called(state, reply, bits, |reader: Reader, reply| {
        reader.replied(payload, count, reply)
    })
}

pub fn kusarehyon_reader_send(
    state: &mut [u8],
    kind: u8,
    data: &[u8],
    count: usize,
    reply: &mut [u8],
    bits: &mut usize,
) -> u8
    ensures { Leaves (send_called state.old (record { kind = kind; payload = «data».now; count = count }) (length reply.old))
        result bits.new state.new reply.old reply.new }
{
    called(state, reply, bits, |reader: Reader, reply| {
        let message = Message {
            kind,
            payload: data,
            count,
        };
        reader.send(message, reply)
    })
}

pub fn kusarehyon_reader_receive(
    state: &mut [u8],
    kind: u8,
    payload: &[u8],
    count: usize,
    reply: &mut [u8],
    bits: &mut usize,
) -> u8
    ensures { Leaves (receive_called state.old (record { kind = kind; payload = payload.now; count = count }) (length reply.old))
        result bits.new state.new reply.old reply.new }
{
    called(state, reply, bits, |reader: Reader, reply| {
        let message = Message {
            kind,
            payload,
            count,
        };
        reader.receive(message, reply)
    })
}

// ---- the key book

pub fn kusarehyon_book_sound(book: &[u8]) -> bool
    ensures { result ≡ sound_of book.now }
{
    book::sound(book)
}

pub fn kusarehyon_book_find(book: &[u8], keyid: u8, reply: &mut [u8], bits: &mut usize) -> u8
    ensures { Leaves (find_called book.now keyid (length reply.old))
        result bits.new [] reply.old reply.new }
{
    if reply.len() < bits::AREA_BYTES {
        return refused(Answer::SmallBuffer, reply, bits);
    }
    if !book::sound(book) {
        return refused(Answer::BadBook, reply, bits);
    }
    let Some(key) = book::find(book, keyid) else {
        return refused(Answer::UnknownKey, reply, bits);
    };
    bits::show(reply, key, KEY_BITS);
    *bits = KEY_BITS;
    u8::from(Answer::Done)
}

// ---- host frames

#[tactic(auto, unfolding(crate::specs::Calls::scanned_numbers))]
pub fn kusarehyon_frame_scan(
    s: &[u8],
    kind: &mut u8,
    count: &mut usize,
    start: &mut usize,
    end: &mut usize,
) -> u8
    ensures { result ∷ kind.new ∷ count.new ∷ start.new ∷ end.new ∷ [] ≡ scanned_numbers (scan_of s.now) }
{
    match frames::scan(s) {
        Err(why) => {
            *kind = 0;
            *count = 0;
            *start = 0;
            *end = 0;
            u8::from(why)
        }
        Ok(frame) => {
            *kind = frame.kind;
            *count = frame.count;
            *start = frame.start;
            *end = frame.end;
            0
        }
    }
}

#[tactic(auto, unfolding(crate::specs::Calls::written_numbers))]
pub fn kusarehyon_frame_write(
    out: &mut [u8],
    at: usize,
    kind: u8,
    count: usize,
    payload: &[u8],
    next: &mut usize,
) -> u8
    ensures next_after { result ∷ next.new ∷ [] ≡ written_numbers (written_of (length out.old) at kind count payload.now) }
    ensures out_after { out.new ≡ out_after out.old at kind count payload.now }
{
    match frames::write(out, at, kind, count, payload) {
        Err(why) => {
            *next = 0;
            u8::from(why)
        }
        Ok(n) => {
            *next = n;
            0
        }
    }
}

// ---- workers

fn refused(answer: Answer, reply: &mut [u8], bits: &mut usize) -> u8
    ensures value { result ≡ number_of answer }
    ensures bits_after { bits.new ≡ 0 }
    ensures reply_after { reply.new ≡ shown [] reply.old }
{
    bits::clear(reply);
    *bits = 0;
    u8::from(answer)
}

// A call of a machine, over the block of its state.
fn called<S: Block, F: FnOnce(Machine<S>, &mut [u8]) -> Step<S>>(
    state: &mut [u8],
    reply: &mut [u8],
    bits: &mut usize,
    call: F,
) -> u8
    requires { F.IsAlwaysCallable call }
    ensures { (work : S → Result S) → ((t : S) → Does (work t) reply.old (F.post call (record { state = t })))
        → Leaves (called S.blocks state.old work) result bits.new state.new reply.old reply.new }
{
    let Some(held) = S::spelled(state) else {
        return refused(Answer::BadState, reply, bits);
    };
    let step = call(Machine { state: held }, reply);
    stepped(state, step, bits)
}

// A reset of a machine, over any block of the right length.
fn reset<S: Block, F: FnOnce(&mut [u8]) -> Step<S>>(
    state: &mut [u8],
    reply: &mut [u8],
    bits: &mut usize,
    call: F,
) -> u8
    requires { F.IsAlwaysCallable call }
    ensures { (work : Result S) → Does work reply.old (F.post call)
        → Leaves (reset_called S.blocks state.old work) result bits.new state.new reply.old reply.new }
{
    if state.len() != S::BYTES {
        return refused(Answer::BadState, reply, bits);
    }
    let step = call(reply);
    stepped(state, step, bits)
}

fn stepped<S: Block>(state: &mut [u8], step: Step<S>, bits: &mut usize) -> u8
    ensures value { result ≡ number_of step.answer }
    ensures bits_after { bits.new ≡ step.bits }
    ensures state_after { state.new ≡ stored_in S.blocks.bytes (S.blocks.block_of step.next.state) state.old }
{
    step.next.state.store(state);
    *bits = step.bits;
    u8::from(step.answer)
}
