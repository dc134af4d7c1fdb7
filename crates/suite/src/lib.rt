// The tag and the reader of ISO/IEC 29167-13 as document 01 reads it. No public function has a `requires`: any call, in any
// state, with any bytes, gets an answer by number, and after it the whole reply area is the reply's bits and then zeros. What a
// call is refused for `verdicts` decides: whether the stored state is sound, and then `rules` on public parts; the rest is work.
#![tactic(auto)]

mod tag_work;
mod work;

ghost use Rattle.std.specs.Prelude.{◌≡◌, length};
ghost use Rattle.rules.specs.Calls.{lent_command, lent_message, lent_begin};
ghost use Rattle.rules.specs.Results.{Gives};
ghost use Rattle.states.specs.TagStates.{closed_tag};
ghost use Rattle.machines.specs.TagWork.{reset_of, command_of, response_of, error_type_of};
ghost use Rattle.machines.specs.ReaderWork.{reader_reset, begin_of, replied_of, sending_of, receiving_of};
ghost use Rattle.suite.specs.Steps.{step_of};

pub use rules::{Begin, Command, Message};
use rules::{Answer, Shown, ShownBegin};
use states::{ReaderState, TagState};

// A machine: its stored state, and its calls.
#[derive(Clone, Copy)]
pub struct Machine<S> {
    pub state: S,
}

pub type Tag = Machine<TagState>;

pub type Reader = Machine<ReaderState>;

// What a call gives: the machine after it, the answer, and how many bits the reply has.
#[derive(Clone, Copy)]
pub struct Step<S> {
    pub next: Machine<S>,
    pub answer: Answer,
    pub bits: usize,
}

impl Tag {
    // A call with a shorter reply buffer is refused with 2.
    pub const REPLY_BYTES: usize = bits::AREA_BYTES;

    // No message has more data bits.
    pub const DATA_BITS: usize = payloads::DATA_BITS;

    // A number at or above it is refused with 11.
    pub const NUMBER_LIMIT: u64 = payloads::NUMBER_LIMIT;

    // The tag after a reset. It is never refused, and zeroes the reply area, however short.
    pub fn reset(reply: &mut [u8]) -> Step<TagState>
        ensures { Gives step_of reset_of result reply.old reply.new }
    {
        work::left(TagState::reset(), Answer::Done, reply)
    }

    // A command: authentication, comm, secure or key update.
    pub fn command(self, command: Command<'_>, reply: &mut [u8]) -> Step<TagState>
        ensures { Gives step_of (command_of self.state (lent_command command.entry) (length reply.old))
            result reply.old reply.new }
    {
        let t = self.state;
        let face = t.face();
        let Command {
            kind,
            payload,
            count,
            features,
            book,
            number,
        } = command;
        let fields = payloads::first_fields(payload);
        let key = rules::tag::key_under(kind, fields.keyid, book);
        let shown = Shown {
            kind,
            count,
            beyond: payloads::beyond(payload, count),
            features,
            number,
            room: reply.len(),
            fields,
            zeros: payloads::zeros(face.width, payload, count),
            book: book::sound(book),
            known: key.is_some(),
        };
        // Only step 0 looks at the key, and without one it is refused by 5.
        tag_work::carry(t, shown, key.unwrap_or(b""), payload, reply)
    }

    // A response that the host wants: comm or secure.
    pub fn response(self, message: Message<'_>, reply: &mut [u8]) -> Step<TagState>
        ensures { Gives step_of (response_of self.state (lent_message message.entry) (length reply.old))
            result reply.old reply.new }
    {
        let t = self.state;
        match verdicts::tag::response(t, message, reply.len()) {
            Err(refused) => work::refuse(t, refused, reply),
            Ok(()) => work::send(
                t,
                message.kind == rules::SECURE_RESPONSE,
                message.payload,
                message.count,
                reply,
            ),
        }
    }

    // The tag closed, whatever its state: only a reset opens it.
    pub fn close(self) -> Tag
        ensures { result ≡ record { state = closed_tag self.state } }
    {
        let t = self.state;
        let state = t.closed();
        Machine { state }
    }

    // The error type of Annex B's table: 1, 2 or 3; 0 where there is no error, or the state is against the rules.
    pub fn error_type(self) -> u8
        ensures { result ≡ error_type_of self.state }
    {
        let t = self.state;
        if t.sound() {
            faces::tag::error_type(t.face())
        } else {
            0
        }
    }
}

impl Reader {
    // The reader after a reset. It is never refused, and zeroes the reply area, however short. A line as the tag's, each by its own
    // definition (`reset_of`, `reader_reset`), which no trait would shorten.
    pub fn reset(reply: &mut [u8]) -> Step<ReaderState>
        ensures { Gives step_of reader_reset result reply.old reply.new }
    {
        work::left(ReaderState::reset(), Answer::Done, reply)
    }

    // Begins an authentication; the reply is the step 0 command.
    pub fn begin(self, begin: Begin<'_>, reply: &mut [u8]) -> Step<ReaderState>
        ensures { Gives step_of (begin_of self.state (lent_begin begin.entry) (length reply.old))
            result reply.old reply.new }
    {
        let r = self.state;
        let Begin {
            method,
            options,
            keyid,
            number,
            book,
        } = begin;
        let key = book::find(book, keyid);
        let shown = ShownBegin {
            method,
            options,
            number,
            book: book::sound(book),
            known: key.is_some(),
            room: reply.len(),
        };
        match verdicts::reader::begin(r, shown) {
            Err(refused) => work::refuse(r, refused, reply),
            Ok(()) => {
                // Without a key it is refused by 5: the empty one is never read.
                let key = key.unwrap_or(b"");
                let o = authentication::reader::begin(method, options, keyid, number, key);
                work::say(o, reply)
            }
        }
    }

    // The tag's authentication response; the reply is the step 1 command, or nothing where the session is open.
    pub fn replied(self, payload: &[u8], count: usize, reply: &mut [u8]) -> Step<ReaderState>
        ensures { Gives step_of (replied_of self.state payload.now count (length reply.old))
            result reply.old reply.new }
    {
        let r = self.state;
        let shown = rules::reader::reply_shown(payload, count, reply.len());
        match verdicts::reader::replied(r, shown) {
            Err(refused) => work::refuse(r, refused, reply),
            Ok(()) => {
                let o = authentication::reader::answer(r, shown.status, payload);
                work::say(o, reply)
            }
        }
    }

    // Sends data, comm or secure; the reply is the message.
    pub fn send(self, message: Message<'_>, reply: &mut [u8]) -> Step<ReaderState>
        ensures { Gives step_of (sending_of self.state (lent_message message.entry) (length reply.old))
            result reply.old reply.new }
    {
        let r = self.state;
        match verdicts::reader::send(r, message, reply.len()) {
            Err(refused) => work::refuse(r, refused, reply),
            Ok(()) => work::send(
                r,
                message.kind == rules::SECURE,
                message.payload,
                message.count,
                reply,
            ),
        }
    }

    // Takes a message of the tag's in, comm or secure; the reply is its data.
    pub fn receive(self, message: Message<'_>, reply: &mut [u8]) -> Step<ReaderState>
        ensures { Gives step_of (receiving_of self.state (lent_message message.entry) (length reply.old))
            result reply.old reply.new }
    {
        let r = self.state;
        match verdicts::reader::receive(r, message, reply.len()) {
            Err(refused) => work::refuse(r, refused, reply),
            Ok(()) => work::receive(
                r,
                message.kind == rules::SECURE,
                message.payload,
                message.count,
                reply,
            ),
        }
    }
}
