// The tag's stored state.
ghost use Rattle.std.specs.Prelude.{◌≡◌};
ghost use Rattle.states.specs.TagStates.{bare_face, open_face, open_by, reset_tag, closed_tag, failed_tag, begun_tag, open_tag};

use crate::{State, session};
use faces::{Face, Name};
use grain::{Engine, Method, Session};

pub type TagState = State<Face>;

impl TagState {
    #[tactic(auto, unfolding(crate::specs::TagStates::reset_tag))]
    pub fn reset() -> TagState
        ensures { result ≡ reset_tag }
    {
        let face = bare(Name::CsReset, false, false, false, false);
        State::of(face, Session::default())
    }

    #[tactic(auto, unfolding(crate::specs::TagStates::closed_tag))]
    pub fn closed(self) -> TagState
        ensures { result ≡ closed_tag self }
    {
        let f = self.face();
        let face = bare(f.name, f.init, f.ta, f.ia, true);
        State::of(face, Session::default())
    }

    // After a failed comparison in step 1, of MA or else of IA: a flag here and in `begun`, as `failed_tag` and `begun_tag` have it.
    #[tactic(auto, unfolding(crate::specs::TagStates::failed_tag))]
    pub fn failed(both: bool) -> TagState
        ensures { result ≡ failed_tag both }
    {
        let name = if both { Name::Ma2 } else { Name::Ia2 };
        let face = bare(name, true, false, false, true);
        State::of(face, Session::default())
    }

    // After step 0 of MA, or else of IA.
    #[tactic(auto, unfolding(crate::specs::TagStates::begun_tag))]
    pub fn begun(both: bool, keyid: u8, engine: Engine) -> TagState
        ensures { result ≡ begun_tag both keyid engine }
    {
        let name = if both { Name::Ma1 } else { Name::Ia1 };
        let face = Face {
            keyid,
            ..bare(name, true, false, false, false)
        };
        let session = session::unfilled(engine);
        State::of(face, session)
    }

    // Once a method's authentication is done.
    #[tactic(auto, unfolding(crate::specs::TagStates::open_tag))]
    pub fn opened(method: Method, keyid: u8, options: u8, session: Session) -> TagState
        ensures { result ≡ open_tag method keyid options session }
    {
        let face = open_by(method, keyid, options);
        State::of(face, session)
    }
}

// ---- faces

// Everything zero but name and flags; by hand, as a name has no default.
fn bare(name: Name, init: bool, ta: bool, ia: bool, error: bool) -> Face
    ensures { result ≡ bare_face name init ta ia error }
{
    Face {
        name,
        init,
        ta,
        ia,
        error,
        keyid: 0,
        options: 0,
        width: 0,
    }
}

fn open_by(method: Method, keyid: u8, options: u8) -> Face
    ensures { result ≡ open_by method keyid options }
{
    match method {
        Method::Ta => open_face(Name::Ta1, true, false, keyid, options),
        Method::Ia => open_face(Name::Ia2, false, true, keyid, options),
        Method::Ma => open_face(Name::Ma2, true, true, keyid, options),
    }
}

fn open_face(name: Name, ta: bool, ia: bool, keyid: u8, options: u8) -> Face
    ensures { result ≡ open_face name ta ia keyid options }
{
    Face {
        keyid,
        options,
        width: payloads::mac_bits(options),
        ..bare(name, true, ta, ia, false)
    }
}
