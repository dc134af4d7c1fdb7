// `sessions` runs a reader and a tag against each other, from reset: a whole session of each method at each of its options, one
// whose message is damaged on the way, and one of each method with a tag that says that it has neither TA nor IA. It prints a
// heading for each session and a line for each call (document 01, "Tag machine" and "Reader machine"; document 02, Req 01).
#![tactic(auto)]

use grain::Method;
use rules::{AUTHENTICATION, Answer, COMM, COMM_RESPONSE, SECURE, SECURE_RESPONSE};
use states::{ReaderState, TagState};
use suite::{Begin, Command, Message, Reader, Step, Tag};
use text::Line;

// The kinds of messages.
#[derive(Clone, Copy)]
enum Kind {
    Comm,
    Secure,
}

// The first of the options with secure messages: 2 has MAC32, 3 has MAC64.
const SECURE_OPTIONS: u8 = 2;

// What is set 6's here stands in `annexd` and `tagrun` too: a crate for the programs' constants alone would be no plainer.

// The KeyID that both ends have, and their book: set 6's key of Annex D under it.
const KEYID: u8 = 0x05;

const BOOK: [u8; 17] = *b"\x05\x01\x23\x45\x67\x89\xAB\xCD\xEF\xFE\xDC\xBA\x98\x76\x54\x32\x10";

// The machines' numbers, those of Annex D's set 6.
const READER_NUMBER: u64 = 0x112233445566;

const TAG_NUMBER: u64 = 0x778899AABBCC;

// The data, which is set 6's too, and its bits.
const DATA: [u8; 5] = *b"\x12\x34\x56\x78\xAB";

const DATA_BITS: usize = 40;

// The tag's features: all of Table 5's.
const FEATURES: u8 = 0x1F;

// The bit that is damaged: the last of the data, so that the zero bits stay zeros and only the MAC can tell.
const DAMAGED_BIT: usize = 39;

// Where the features of a response have TA's bit and IA's: bits 0 and 1 of Table 5, which counts them from the lowest.
const TA_FEATURE: usize = 7;

const IA_FEATURE: usize = 6;

// The longest line: 14 of a machine and its call, an answer of 2, a bit count of 4, a reply in hex, and what stands between and
// behind them.
const LINE_BYTES: usize = 24 + 2 * Tag::REPLY_BYTES;

// Both machines, where their calls are printed, and the bits of the last call's reply, which the other machine is
// given: its bytes stay the caller's, where they are damaged or disclaimed.
#[derive(Drop)]
struct Run<'a, P> {
    rt: &'a P,
    reader: Reader,
    tag: Tag,
    bits: usize,
}

// Secure messages are MA's alone, so that the other methods have half the options.
fn main(rt: HostRuntime) {
    session(&rt, b"TA MAC32", Method::Ta, 0);
    session(&rt, b"TA MAC64", Method::Ta, 1);
    session(&rt, b"IA MAC32", Method::Ia, 0);
    session(&rt, b"IA MAC64", Method::Ia, 1);
    session(&rt, b"MA MAC32", Method::Ma, 0);
    session(&rt, b"MA MAC64", Method::Ma, 1);
    session(&rt, b"MA MAC32 secure", Method::Ma, 2);
    session(&rt, b"MA MAC64 secure", Method::Ma, 3);
    damaged_session(&rt, b"MA MAC32 secure damaged");
    bought_session(&rt, b"TA MAC32 bought tag", Method::Ta);
    bought_session(&rt, b"IA MAC32 bought tag", Method::Ia);
    bought_session(&rt, b"MA MAC32 bought tag", Method::Ma);
}

// Headings stand as they are printed: made of method and options they would take two matches.
fn session(rt: &impl Print, heading: &[u8], method: Method, options: u8) {
    let run = Run::fresh(rt, heading)
        .open(method, options)
        .messages(method, Kind::Comm);
    if SECURE_OPTIONS <= options {
        run.messages(method, Kind::Secure);
    }
}

// The tag refuses the damaged message and closes, and so has no answer to give.
fn damaged_session(rt: &impl Print, heading: &[u8]) {
    let mut message = [0u8; Tag::REPLY_BYTES];
    let mut reply = [0u8; Tag::REPLY_BYTES];
    let run = Run::fresh(rt, heading)
        .open(Method::Ma, SECURE_OPTIONS)
        .send(Kind::Secure, DATA_BITS, &mut message);
    damage(&mut message);
    run.command(Kind::Secure.sent(), &message, &mut reply)
        .response(Kind::Secure, DATA_BITS, &mut reply);
}

fn damage(message: &mut [u8]) {
    let bit = bits::bit_at(message, DAMAGED_BIT);
    bits::set_bit(message, DAMAGED_BIT, !bit);
}

// The bought tag answers as ours does, and says that it can't. The reader turns it away in TA and IA and is closed then, and the
// same response again finds no work; MA needs no bit and goes on.
fn bought_session(rt: &impl Print, heading: &[u8], method: Method) {
    let mut message = [0u8; Tag::REPLY_BYTES];
    let mut reply = [0u8; Tag::REPLY_BYTES];
    let run = Run::fresh(rt, heading)
        .begin(method, 0, &mut message)
        .command(AUTHENTICATION, &message, &mut reply);
    let bits = run.bits;
    disclaim(&mut reply);
    print_call(rt, b"bought tag ", Answer::Done, bits, &reply);
    let run = run.replied(&reply, &mut message);
    if method == Method::Ma {
        run.prove(&mut message);
    } else {
        Run { bits, ..run }.replied(&reply, &mut message);
    }
}

fn disclaim(response: &mut [u8]) {
    bits::set_bit(response, TA_FEATURE, false);
    bits::set_bit(response, IA_FEATURE, false);
}

impl Kind {
    // The kind under which a message is handed on.
    fn sent(self) -> u8 {
        match self {
            Kind::Comm => COMM,
            Kind::Secure => SECURE,
        }
    }

    // The kind under which the tag is asked for its own message.
    fn wanted(self) -> u8 {
        match self {
            Kind::Comm => COMM_RESPONSE,
            Kind::Secure => SECURE_RESPONSE,
        }
    }
}

impl<'a, P: Print> Run<'a, P> {
    // Both machines as a reset leaves them, below a heading.
    fn fresh(rt: &'a P, heading: &[u8]) -> Self {
        print_heading(rt, heading);
        let mut reply = [0u8; Tag::REPLY_BYTES];
        let reader = Reader::reset(&mut reply).next;
        let tag = Tag::reset(&mut reply).next;
        Run {
            rt,
            reader,
            tag,
            bits: 0,
        }
    }

    // The authentication: TA has one command and its response, the others two.
    fn open(self, method: Method, options: u8) -> Self {
        let mut message = [0u8; Tag::REPLY_BYTES];
        let run = self
            .begin(method, options, &mut message)
            .prove(&mut message);
        if method == Method::Ta {
            return run;
        }
        run.prove(&mut message)
    }

    // The tag takes the reader's command, and the reader the tag's response: its reply is the command after it.
    fn prove(self, message: &mut [u8]) -> Self {
        let mut reply = [0u8; Tag::REPLY_BYTES];
        self.command(AUTHENTICATION, message, &mut reply)
            .replied(&reply, message)
    }

    // The messages of one kind, the data and then one of no bits: IA has them to the tag, TA to the reader, MA both ways.
    fn messages(mut self, method: Method, kind: Kind) -> Self {
        if method != Method::Ta {
            self = self.to_tag(kind, DATA_BITS).to_tag(kind, 0);
        }
        if method != Method::Ia {
            self = self.to_reader(kind, DATA_BITS).to_reader(kind, 0);
        }
        self
    }

    fn to_tag(self, kind: Kind, count: usize) -> Self {
        let mut message = [0u8; Tag::REPLY_BYTES];
        let mut reply = [0u8; Tag::REPLY_BYTES];
        self.send(kind, count, &mut message)
            .command(kind.sent(), &message, &mut reply)
    }

    fn to_reader(self, kind: Kind, count: usize) -> Self {
        let mut message = [0u8; Tag::REPLY_BYTES];
        let mut reply = [0u8; Tag::REPLY_BYTES];
        self.response(kind, count, &mut message)
            .receive(kind, &message, &mut reply)
    }

    // ---- the reader's calls, each with its line

    fn begin(self, method: Method, options: u8, reply: &mut [u8]) -> Self {
        let begin = Begin {
            method: method as u8,
            options,
            keyid: KEYID,
            number: READER_NUMBER,
            book: &BOOK,
        };
        let step = self.reader.begin(begin, reply);
        self.after_reader(b"reader begin ", step, reply)
    }

    fn replied(self, message: &[u8], reply: &mut [u8]) -> Self {
        let step = self.reader.replied(message, self.bits, reply);
        self.after_reader(b"reader replied ", step, reply)
    }

    fn send(self, kind: Kind, count: usize, reply: &mut [u8]) -> Self {
        let message = Message {
            kind: kind.sent(),
            payload: &DATA,
            count,
        };
        let step = self.reader.send(message, reply);
        self.after_reader(b"reader send ", step, reply)
    }

    fn receive(self, kind: Kind, payload: &[u8], reply: &mut [u8]) -> Self {
        let message = Message {
            kind: kind.sent(),
            payload,
            count: self.bits,
        };
        let step = self.reader.receive(message, reply);
        self.after_reader(b"reader receive ", step, reply)
    }

    // This and `after_tag` stay two: each puts another field's machine back, which a closure would spell out as well.
    fn after_reader(self, name: &[u8], step: Step<ReaderState>, reply: &[u8]) -> Self {
        print_call(self.rt, name, step.answer, step.bits, reply);
        Run {
            reader: step.next,
            bits: step.bits,
            ..self
        }
    }

    // ---- the tag's calls, each with its line

    fn command(self, kind: u8, payload: &[u8], reply: &mut [u8]) -> Self {
        let command = Command {
            kind,
            payload,
            count: self.bits,
            features: FEATURES,
            book: &BOOK,
            number: TAG_NUMBER,
        };
        let step = self.tag.command(command, reply);
        self.after_tag(b"tag command ", step, reply)
    }

    fn response(self, kind: Kind, count: usize, reply: &mut [u8]) -> Self {
        let message = Message {
            kind: kind.wanted(),
            payload: &DATA,
            count,
        };
        let step = self.tag.response(message, reply);
        self.after_tag(b"tag response ", step, reply)
    }

    fn after_tag(self, name: &[u8], step: Step<TagState>, reply: &[u8]) -> Self {
        print_call(self.rt, name, step.answer, step.bits, reply);
        Run {
            tag: step.next,
            bits: step.bits,
            ..self
        }
    }
}

// Who is called and for what, the answer, the reply's bits, the reply.
fn print_call(rt: &impl Print, name: &[u8], answer: Answer, count: usize, reply: &[u8]) {
    let mut line = Line::<LINE_BYTES>::new();
    line.put(name);
    line.spaced(u64::from(u8::from(answer)));
    line.spaced(count as u64);
    line.reply(reply, count);
    console::print_line(rt, &mut line);
}

fn print_heading(rt: &impl Print, heading: &[u8]) {
    let mut line = Line::<LINE_BYTES>::new();
    line.put(heading);
    console::print_line(rt, &mut line);
}
