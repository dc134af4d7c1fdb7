// `tagrun` runs the frames of standard input through one tag and prints a line for each (document 01, "Host frames").
#![tactic(auto)]

ghost use Rattle.std.specs.Prelude.{◌≡◌, ◌≤◌, length};
ghost use Rattle.frames.specs.Frame.{payload_of};
ghost use Rattle.rules.specs.Calls.{lent_command};

use faces::Name;
use frames::{Frame, Refusal};
use states::TagState;
use std::io::Read;
use suite::{Command, Step, Tag};
use text::Line;

// The most bytes that it runs.
const MOST_BYTES: usize = 32768;

// Features, number and book stand in `sessions` too: a crate for the programs' constants alone would be no plainer.

// The tag's features: all of Table 5's.
const FEATURES: u8 = 0x1F;

// The tag's book: KeyID 05 and the key of Annex D's set 6.
const BOOK: [u8; 17] = *b"\x05\x01\x23\x45\x67\x89\xAB\xCD\xEF\xFE\xDC\xBA\x98\x76\x54\x32\x10";

// The tag's number, that of Annex D's set 6.
const NUMBER: u64 = 0x778899AABBCC;

// The longest line: 5 digits of a frame's number, an answer of 2, a state's name of 8, a bit count of 4, a reply in hex, and
// what stands between and behind them.
const LINE_BYTES: usize = 24 + 2 * Tag::REPLY_BYTES;

// One byte more than it runs is asked for, and tells that the input is too long.
fn main(rt: HostRuntime) {
    let mut input = [0u8; MOST_BYTES + 1];
    let n = read_full(&mut rt.stdin(), &mut input);
    if MOST_BYTES < n {
        let _ = rt.write_all(b"input too long\n");
    } else {
        run(&rt, &input[..n]);
    }
}

// Reads until the buffer is full or the input ends; a read that fails ends it too. How many bytes stand in the buffer then.
fn read_full<R: Read>(from: &mut R, buffer: &mut [u8]) -> usize
    ensures { result ≤ length buffer.new }
{
    let mut at = 0;
    // A loop, as what came before a failed read is run: `read_exact` loses how much that is, and `read_to_end` needs memory.
    while at < buffer.len() {
        match from.read(&mut buffer[at..]) {
            Ok(0) => break,
            Ok(n) => at += n,
            Err(_) => break,
        }
    }
    at
}

// A bad frame ends the run.
fn run(rt: &impl Print, input: &[u8]) {
    let mut tag = fresh();
    let mut number: u64 = 0;
    let mut rest = input;
    // A loop over what is left: an iterator of frames would have to end behind the first refusal, and to hand that out too.
    while !rest.is_empty() {
        number += 1;
        match frames::scan(rest) {
            Err(why) => {
                print_refusal(rt, number, why);
                return;
            }
            Ok(frame) => {
                tag = run_frame(rt, tag, number, command(frame, rest));
                rest = &rest[frame.end..];
            }
        }
    }
}

// The frame that `rest` begins with, as the tag's call: its payload is what `frames` hands back of `rest`.
fn command<'a>(frame: Frame, rest: &'a [u8]) -> Command<'a>
    ensures { lent_command result ≡ record { kind = frame.kind; payload = payload_of rest.now; count = frame.count; features = FEATURES; book = BOOK; number = NUMBER } }
{
    Command {
        kind: frame.kind,
        payload: frames::payload(rest),
        count: frame.count,
        features: FEATURES,
        book: &BOOK,
        number: NUMBER,
    }
}

// The tag as a reset leaves it.
fn fresh() -> Tag {
    let mut reply = [0u8; Tag::REPLY_BYTES];
    Tag::reset(&mut reply).next
}

// Runs a frame and prints its line; the tag after it. Output and number are no struct: both printers would take it apart.
fn run_frame(rt: &impl Print, tag: Tag, number: u64, frame: Command<'_>) -> Tag {
    let mut reply = [0u8; Tag::REPLY_BYTES];
    let step = host::run(tag, frame, &mut reply);
    print_step(rt, number, step, &reply);
    step.next
}

// Frame number, refusal.
fn print_refusal(rt: &impl Print, number: u64, why: Refusal) {
    let mut line = Line::<LINE_BYTES>::new();
    line.spaced(number);
    line.decimal(u64::from(u8::from(why)));
    console::print_line(rt, &mut line);
}

// Frame number, answer, state, reply bits, reply.
fn print_step(rt: &impl Print, number: u64, step: Step<TagState>, reply: &[u8]) {
    let mut line = Line::<LINE_BYTES>::new();
    line.spaced(number);
    line.spaced(u64::from(u8::from(step.answer)));
    line.put(name_of(step.next.state.face().name));
    line.put(b" ");
    line.spaced(step.bits as u64);
    line.reply(reply, step.bits);
    console::print_line(rt, &mut line);
}

// A state's name, as bytes and by no `Display`: a `Line` is no writer for `write!` (`text` has the reason).
fn name_of(name: Name) -> &'static [u8] {
    match name {
        Name::CsReset => b"CS-Reset",
        Name::Ta1 => b"TA.1",
        Name::Ia1 => b"IA.1",
        Name::Ia2 => b"IA.2",
        Name::Ma1 => b"MA.1",
        Name::Ma2 => b"MA.2",
    }
}
