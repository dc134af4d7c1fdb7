// The reader's stored state.
ghost use Rattle.std.specs.Prelude.{◌≡◌};
ghost use Rattle.states.specs.ReaderStates.{empty_reader_face, reset_reader, closed_reader, begun_reader, filled_reader, opened_reader};

use crate::{State, session};
use faces::{ReaderFace, Stage};
use grain::{Engine, Register, Session};

pub type ReaderState = State<ReaderFace>;

impl ReaderState {
    #[tactic(auto, unfolding(crate::specs::ReaderStates::reset_reader))]
    pub fn reset() -> ReaderState
        ensures { result ≡ reset_reader }
    {
        let face = empty(Stage::Idle);
        State::of(face, Session::default())
    }

    #[tactic(auto, unfolding(crate::specs::ReaderStates::closed_reader))]
    pub fn closed() -> ReaderState
        ensures { result ≡ closed_reader }
    {
        let face = empty(Stage::Closed);
        State::of(face, Session::default())
    }

    #[tactic(auto, unfolding(crate::specs::ReaderStates::begun_reader))]
    pub fn begun(method: u8, options: u8, keyid: u8, number: u64, key: Register) -> ReaderState
        ensures { result ≡ begun_reader method options keyid number key }
    {
        let face = ReaderFace {
            stage: Stage::Step0Sent,
            method,
            options,
            keyid,
            number,
            width: 0,
        };
        let engine = Engine {
            b: key,
            ..Engine::default()
        };
        let session = session::unfilled(engine);
        State::of(face, session)
    }

    // The response to step 0 has filled the session: open, or else step 1 sent, by a flag as in `filled_reader`.
    #[tactic(auto, unfolding(crate::specs::ReaderStates::filled_reader))]
    pub fn filled(self, opens: bool, session: Session) -> ReaderState
        ensures { result ≡ filled_reader opens self session }
    {
        let f = self.face();
        let stage = if opens { Stage::Open } else { Stage::Step1Sent };
        let width = payloads::mac_bits(f.options);
        let face = ReaderFace { stage, width, ..f };
        State::of(face, session)
    }

    // The response to step 1 opens it.
    #[tactic(auto, unfolding(crate::specs::ReaderStates::opened_reader))]
    pub fn opened(self, session: Session) -> ReaderState
        ensures { result ≡ opened_reader self session }
    {
        let stage = Stage::Open;
        let face = ReaderFace {
            stage,
            ..self.face()
        };
        State::of(face, session)
    }
}

// Nothing but the stage; by hand, as a stage has no default.
fn empty(stage: Stage) -> ReaderFace
    ensures { result ≡ empty_reader_face stage }
{
    ReaderFace {
        stage,
        method: 0,
        options: 0,
        keyid: 0,
        number: 0,
        width: 0,
    }
}
