// The tag's two steps.
ghost use Rattle.std.specs.Prelude.{◌≡◌};
ghost use Rattle.machines.specs.TagWork.{ta_started, challenged, started_by, start_of, failed, interrogator_proved, mutually_proved, proved_by, prove_of};
ghost use Rattle.states.specs.Sessions.{chosen_width, filled_session};
ghost use Rattle.authentication.specs.Outcomes.{handed};

use crate::Outcome;
use grain::{Engine, Method, Session};
use payloads::Payload;
use rules::Shown;
use states::{TagState, session};

// ---- step 0

// The step 0 command's work, by what the call shows, the key of its KeyID, and its payload.
pub fn start(p: Shown, key: &[u8], payload: &[u8]) -> Outcome<TagState>
    ensures { result ≡ handed (start_of p key.now payload.now) }
{
    let reader = bits::field(payload, 16, 48);
    let engine = session::begin(session::key_in(key), p.fields.method, reader, p.number);
    started(p, engine)
}

#[tactic(auto, unfolding(machines::specs::TagWork::started_by))]
fn started(p: Shown, e: Engine) -> Outcome<TagState>
    ensures { result ≡ handed (started_by p.fields.method p.fields.keyid p.fields.options p.features p.number e) }
{
    match p.fields.method {
        rules::TA => ta_started(p, e),
        rules::IA => challenge(false, p, e),
        _ => challenge(true, p, e),
    }
}

fn ta_started(p: Shown, e: Engine) -> Outcome<TagState>
    ensures { result ≡ handed (ta_started p.fields.keyid p.fields.options p.features p.number (filled_session (chosen_width p.fields.options) e)) }
{
    let fields = p.fields;
    let x = e.fill(session::chosen_width(fields.options));
    let ks = x.engine.keystream();
    let next = TagState::opened(
        Method::Ta,
        fields.keyid,
        fields.options,
        session::with_engine(x, ks.engine),
    );
    let reply = Payload::TagProof {
        features: p.features,
        number: p.number,
        keystream: ks.word,
    };
    Outcome::reached(next, reply)
}

// Of MA where `both`, and else of IA: a flag and no `Method`, as `challenged`, `failed_tag` and `begun_tag` have it.
fn challenge(both: bool, p: Shown, e: Engine) -> Outcome<TagState>
    ensures { result ≡ handed (challenged both p.fields.keyid p.features p.number e) }
{
    let next = TagState::begun(both, p.fields.keyid, e);
    let reply = Payload::TagChallenge {
        features: p.features,
        number: p.number,
    };
    Outcome::reached(next, reply)
}

// ---- step 1

// The step 1 command's work: the reader's 64 keystream bits are compared.
pub fn prove(t: TagState, p: Shown, payload: &[u8]) -> Outcome<TagState>
    ensures { result ≡ handed (prove_of t p payload.now) }
{
    let given = bits::field(payload, 16, 64);
    let face = t.face();
    let both = faces::tag::mutually(face);
    let options = p.fields.options;
    let x = t.session().engine.fill(session::chosen_width(options));
    let ks = x.engine.keystream();
    proved(both, ks.word == given, face.keyid, options, ks.engine, x)
}

// The comparison's work. Its parts are parameters, as `proved_by`, `mutually_proved` and `interrogator_proved` have them.
fn proved(
    both: bool,
    same: bool,
    keyid: u8,
    options: u8,
    e: Engine,
    x: Session,
) -> Outcome<TagState>
    ensures { result ≡ handed (proved_by both same keyid options e x) }
{
    if same {
        if both {
            return mutually_proved(keyid, options, e, x);
        }
        return interrogator_proved(keyid, options, e, x);
    }
    fail(both)
}

fn mutually_proved(keyid: u8, options: u8, e: Engine, x: Session) -> Outcome<TagState>
    ensures { result ≡ handed (mutually_proved keyid options e x) }
{
    let ks = e.keystream();
    let next = TagState::opened(
        Method::Ma,
        keyid,
        options,
        session::with_engine(x, ks.engine),
    );
    Outcome::reached(next, Payload::MutualProof(ks.word))
}

fn interrogator_proved(keyid: u8, options: u8, e: Engine, x: Session) -> Outcome<TagState>
    ensures { result ≡ handed (interrogator_proved keyid options e x) }
{
    let next = TagState::opened(Method::Ia, keyid, options, session::with_engine(x, e));
    Outcome::reached(next, Payload::Status(0))
}

fn fail(both: bool) -> Outcome<TagState>
    ensures { result ≡ handed (failed both) }
{
    Outcome::differed(TagState::failed(both), Payload::Status(1))
}
