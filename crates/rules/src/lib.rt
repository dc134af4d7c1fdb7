// The rules of tag and reader (document 01, "Tag machine", "Reader machine", "Replies and refusals"), on public parts alone: the
// one order of refusals, and what each call is refused for. No public function has a `requires`.
#![tactic(auto)]

mod calls;
mod order;
pub mod reader;
pub mod tag;

ghost use Rattle.std.specs.Prelude.{◌≡◌};
ghost use Rattle.rules.specs.Answers.{number_of, if_sound};
ghost use Rattle.rules.specs.Calls.{lent_message, message_shown};

pub use calls::{Begin, Command, Message};
use payloads::Fields;

// The kinds that the rules name, and the methods: bytes, as in what a call is given.
pub const AUTHENTICATION: u8 = 0;

pub const COMM: u8 = 1;

pub const SECURE: u8 = 2;

pub const KEY_UPDATE: u8 = 3;

pub const COMM_RESPONSE: u8 = 4;

pub const SECURE_RESPONSE: u8 = 5;

pub const TA: u8 = 0;

pub const IA: u8 = 1;

pub const MA: u8 = 2;

// What a call answers (document 01's table, in the order of its numbers).
#[derive(Clone, Copy, PartialEq, Eq)]
pub enum Answer {
    Done,
    BadBook,
    SmallBuffer,
    WrongKind,
    Unsupported,
    UnknownKey,
    WrongLength,
    Closed,
    BadState,
    NoWork,
    Mismatch,
    BadArgument,
}

// ---- the order

// The checks that keep the state, each true where it refuses, in their order.
#[derive(Clone, Copy, Default, PartialEq, Eq)]
pub struct Keeping {
    pub buffer: bool,
    pub argument: bool,
    pub book: bool,
    pub error: bool,
    pub work: bool,
}

// The checks that close it, which stand behind those.
#[derive(Clone, Copy, Default, PartialEq, Eq)]
pub struct Closing {
    pub kind: bool,
    pub length: bool,
    pub step: bool,
    pub key: bool,
    pub support: bool,
}

// A refusal: what is answered, and whether it closes the state or keeps it. A flag and no two variants, which would both hold an
// answer for their readers to take out.
#[derive(Clone, Copy, PartialEq, Eq)]
pub struct Refused {
    pub closes: bool,
    pub answer: Answer,
}

// What the checks say: go on, or be refused.
pub type Verdict = Result<(), Refused>;

// What a stored state that is not sound is answered stands before all other checks.
#[tactic(auto, unfolding(crate::specs::Answers::if_sound))]
pub fn if_sound(sound: bool, v: Verdict) -> Verdict
    ensures { result ≡ if_sound sound v }
{
    if sound {
        v
    } else {
        Err(order::keep(Answer::BadState))
    }
}

// ---- the tag

// What a command shows of itself. `known` says that there is a key and leaves it out: the rules see no secret.
#[derive(Clone, Copy)]
pub struct Shown {
    pub kind: u8,
    pub count: usize,
    pub beyond: bool,
    pub features: u8,
    pub number: u64,
    pub room: usize,
    pub fields: Fields,
    pub zeros: bool,
    pub book: bool,
    pub known: bool,
}

// What a command does where nothing refuses it: step 0, step 1, a message. An enum and no closure: it is decided here by public parts,
// and done where the secrets are.
#[derive(Clone, Copy, PartialEq, Eq)]
pub enum Work {
    Start,
    Prove,
    Receive,
}

// ---- the reader

// What begin shows of itself.
#[derive(Clone, Copy, PartialEq, Eq)]
pub struct ShownBegin {
    pub method: u8,
    pub options: u8,
    pub number: u64,
    pub book: bool,
    pub known: bool,
    pub room: usize,
}

// What an authentication response shows of itself. Its status is one bit, a byte as it came.
#[derive(Clone, Copy)]
pub struct ShownReply {
    pub count: usize,
    pub beyond: bool,
    pub features: u8,
    pub status: u8,
    pub room: usize,
}

// What a response does where nothing refuses it: TA's comparison, the step 1 command, a failure, IA's status, MA's comparison. An enum
// as `Work` is.
#[derive(Clone, Copy, PartialEq, Eq)]
pub enum ReplyWork {
    Compare,
    Answer,
    Fail,
    Accept,
    Confirm,
}

// ---- both

// What a message shows of itself, to its sender or to its receiver.
#[derive(Clone, Copy, PartialEq, Eq)]
pub struct ShownMessage {
    pub kind: u8,
    pub count: usize,
    pub beyond: bool,
    pub room: usize,
}

pub fn message_shown(message: Message<'_>, room: usize) -> ShownMessage
    ensures { result ≡ message_shown (lent_message message.entry) room }
{
    ShownMessage {
        kind: message.kind,
        count: message.count,
        beyond: payloads::beyond(message.payload, message.count),
        room,
    }
}

impl From<Answer> for u8 {
    ghost from_gives = { λ answer n. n ≡ number_of answer };

    fn from(answer: Answer) -> u8 {
        answer as u8
    }
}
