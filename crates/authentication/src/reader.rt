// The reader's begin, and what it does with an authentication response.
ghost use Rattle.std.specs.Prelude.{◌≡◌, eqb};
ghost use Rattle.bits.specs.Bytes.{bits_of_bytes, field_of};
ghost use Rattle.payloads.specs.declared.Payload.TheVariants.{Nothing};
ghost use Rattle.rules.specs.ReaderRules.{reply_work};
ghost use Rattle.rules.specs.Results.{differed};
ghost use Rattle.states.specs.ReaderStates.{reader_face_of, closed_reader};
ghost use Rattle.machines.specs.ReaderWork.{begin_options, begun_by, answer_session, matched, compare_of, answer_of, accept_of, confirm_of, answered_by};
ghost use Rattle.authentication.specs.Outcomes.{handed};

use crate::Outcome;
use grain::Session;
use payloads::Payload;
use rules::ReplyWork;
use states::{ReaderState, session};

// The step 0 command, and the reader that has sent it. The five are `begun_by`'s: of what begin is given the book is spent, and the
// key is new.
pub fn begin(method: u8, options: u8, keyid: u8, number: u64, key: &[u8]) -> Outcome<ReaderState>
    ensures { result ≡ handed (begun_by method options keyid number key.now) }
{
    let next = ReaderState::begun(method, options, keyid, number, session::key_in(key));
    let reply = Payload::StepZero {
        method,
        options: begin_options(method, options),
        keyid,
        number,
    };
    Outcome::reached(next, reply)
}

fn begin_options(method: u8, options: u8) -> u8
    ensures { result ≡ begin_options method options }
{
    if method == rules::TA { options } else { 0 }
}

// What a response that passed all checks does, by the state and the response's first bit.
pub fn answer(r: ReaderState, status: u8, payload: &[u8]) -> Outcome<ReaderState>
    ensures { result ≡ handed (answered_by (reply_work (reader_face_of r) status) r (bits_of_bytes payload.now)) }
{
    let face = r.face();
    match rules::reader::reply_work(face, status) {
        ReplyWork::Compare => compare(r, payload),
        ReplyWork::Answer => prove(r, payload),
        ReplyWork::Fail => failed(),
        ReplyWork::Accept => accept(r),
        ReplyWork::Confirm => confirm(r, payload),
    }
}

// The session that the tag's number starts.
fn answer_session(r: ReaderState, payload: &[u8]) -> Session
    ensures { result ≡ answer_session r (bits_of_bytes payload.now) }
{
    let face = r.face();
    let key = r.session().engine.b;
    let tag = bits::field(payload, 8, 48);
    let e = session::begin(key, face.method, face.number, tag);
    e.fill(session::chosen_width(face.options))
}

fn failed() -> Outcome<ReaderState>
    ensures { result ≡ handed (differed closed_reader Nothing) }
{
    Outcome::differed(ReaderState::closed(), Payload::Nothing)
}

// The reader that the comparison of 64 keystream bits leaves, with those at `at` in a response: `next` where they are the same.
#[tactic(auto, unfolding(machines::specs::ReaderWork::matched))]
fn compared(word: u64, payload: &[u8], at: usize, next: ReaderState) -> Outcome<ReaderState>
    ensures { result ≡ handed (matched (eqb word (field_of at 64 (bits_of_bytes payload.now))) next) }
{
    let given = bits::field(payload, at, 64);
    if word == given {
        return Outcome::reached(next, Payload::Nothing);
    }
    failed()
}

fn compare(r: ReaderState, payload: &[u8]) -> Outcome<ReaderState>
    ensures { result ≡ handed (compare_of r (bits_of_bytes payload.now)) }
{
    let x = answer_session(r, payload);
    let ks = x.engine.keystream();
    let next = r.filled(true, session::with_engine(x, ks.engine));
    compared(ks.word, payload, 56, next)
}

// The step 1 command.
fn prove(r: ReaderState, payload: &[u8]) -> Outcome<ReaderState>
    ensures { result ≡ handed (answer_of r (bits_of_bytes payload.now)) }
{
    let face = r.face();
    let x = answer_session(r, payload);
    let ks = x.engine.keystream();
    let next = r.filled(false, session::with_engine(x, ks.engine));
    let reply = Payload::StepOne {
        method: face.method,
        options: face.options,
        keyid: face.keyid,
        keystream: ks.word,
    };
    Outcome::reached(next, reply)
}

fn accept(r: ReaderState) -> Outcome<ReaderState>
    ensures { result ≡ handed (accept_of r) }
{
    let next = r.opened(r.session());
    Outcome::reached(next, Payload::Nothing)
}

fn confirm(r: ReaderState, payload: &[u8]) -> Outcome<ReaderState>
    ensures { result ≡ handed (confirm_of r (bits_of_bytes payload.now)) }
{
    let x = r.session();
    let ks = x.engine.keystream();
    let next = r.opened(session::with_engine(x, ks.engine));
    compared(ks.word, payload, 1, next)
}
