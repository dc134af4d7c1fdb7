// The work of a call that is decided, the same at tag and reader. MACs and data choose no branch here but through the verdict of a
// whole comparison.
ghost use Rattle.std.specs.Prelude.{◌≡◌, cond, ◌+◌, ◌*◌, ◌≤◌, length, take};
ghost use Rattle.bits.specs.Bytes.{bits_of_bytes};
ghost use Rattle.grain.specs.Stored.{width_of};
ghost use Rattle.rules.specs.Results.{Gives, refused_by};
ghost use Rattle.states.specs.Sessions.{stored_width};
ghost use Rattle.states.specs.declared.doors.State.{State};
ghost use Rattle.states.specs.States.{face_of, secrets_of, with_session};
ghost use Rattle.states.specs.TagStates.{closed_tag};
ghost use Rattle.states.specs.ReaderStates.{closed_reader};
ghost use Rattle.machines.specs.Messages.{sent, received};
ghost use Rattle.suite.specs.Steps.{step_of, outcome_of};

use crate::{Machine, Step};
use authentication::Outcome;
use faces::{Face, PublicParts, ReaderFace};
use rules::{Answer, Refused};
use states::{ReaderState, State, TagState, session};

// What closing leaves of a state: of the tag's its name and flags, of the reader's nothing, so that the reader's own door takes none.
pub(crate) trait Closes: PublicParts {
    ghost closed: { State Self → State Self };

    fn closed(state: State<Self>) -> State<Self>
        ensures { result ≡ closed state };
}

impl Closes for Face {
    ghost closed = { closed_tag };

    fn closed(state: TagState) -> TagState
        ensures { result ≡ closed_tag state }
    {
        state.closed()
    }
}

impl Closes for ReaderFace {
    ghost closed = { λ r. closed_reader };

    fn closed(_state: ReaderState) -> ReaderState
        ensures { result ≡ closed_reader }
    {
        ReaderState::closed()
    }
}

// ---- answers

// An answer with no bits.
pub(crate) fn left<S: Copy>(state: S, answer: Answer, reply: &mut [u8]) -> Step<S>
    ensures { Gives step_of (refused_by state answer) result reply.old reply.new }
{
    bits::clear(reply);
    let next = Machine { state };
    Step {
        next,
        answer,
        bits: 0,
    }
}

// A refused call: the state, closed or kept, and the answer. A match on the verdict stands before it in each call: what is done behind
// an `Ok` differs, and a function that lends a closure the reply area on would be no shorter.
pub(crate) fn refuse<F: Closes>(
    state: State<F>,
    refused: Refused,
    reply: &mut [u8],
) -> Step<State<F>>
    ensures { Gives step_of (refused_by (cond refused.closes (F.closed state) state) refused.answer) result reply.old reply.new }
{
    let state = if refused.closes {
        F::closed(state)
    } else {
        state
    };
    left(state, refused.answer, reply)
}

// An authentication's reply is written.
pub(crate) fn say<S: Copy>(o: Outcome<S>, reply: &mut [u8]) -> Step<S>
    ensures { Gives step_of (outcome_of o) result reply.old reply.new }
{
    let bits = payloads::write(o.reply, reply);
    Step {
        next: Machine { state: o.next },
        answer: o.answer,
        bits,
    }
}

// ---- messages, by their bits and no `Message`: its kind is spent on `secure`, and a command's payload comes here too

// Sends the first `count` bits of `data`; the reply is the message.
pub(crate) fn send<F: PublicParts>(
    state: State<F>,
    secure: bool,
    data: &[u8],
    count: usize,
    reply: &mut [u8],
) -> Step<State<F>>
    requires { (265 ≤ length reply.old) × ((count ≤ 2048) × (count ≤ 8 * length «data».now)) }
    ensures { Gives step_of (sent (with_session state) (stored_width (F.width (face_of state))) secure (take count (bits_of_bytes «data».now)) (secrets_of state))
        result reply.old reply.new }
{
    let width = session::stored_width(state.face().width());
    let w = width.bits();
    bits::show(reply, data, count);
    let x = session::send(state.session(), width, secure, reply, count);
    bits::put(reply, count + 8, w, x.acc);
    Step {
        next: Machine {
            state: state.with_session(x),
        },
        answer: Answer::Done,
        bits: count + 8 + w,
    }
}

// Takes a message of `count` bits in. The reply is its data, and is cleared where its MAC is wrong: the comparison's verdict is
// looked at this one time.
pub(crate) fn receive<F: Closes>(
    state: State<F>,
    secure: bool,
    payload: &[u8],
    count: usize,
    reply: &mut [u8],
) -> Step<State<F>>
    requires { (265 ≤ length reply.old) × ((8 + width_of (stored_width (F.width (face_of state))) ≤ count) × ((count ≤ 2120) × (count ≤ 8 * length payload.now))) }
    ensures { Gives step_of (received (with_session state) (F.closed state) (stored_width (F.width (face_of state))) secure count (bits_of_bytes payload.now) (secrets_of state))
        result reply.old reply.new }
{
    let width = session::stored_width(state.face().width());
    let w = width.bits();
    let n = payloads::data_bits(w, count);
    bits::show(reply, payload, n);
    let x = session::receive(state.session(), width, secure, reply, n);
    let mac = bits::field(payload, n + 8, w);
    if x.acc != mac {
        return left(F::closed(state), Answer::Mismatch, reply);
    }
    Step {
        next: Machine {
            state: state.with_session(x),
        },
        answer: Answer::Done,
        bits: n,
    }
}
