// A stored state of either machine.
ghost use Rattle.std.specs.Prelude.{◌≡◌};
ghost use Rattle.states.specs.States.{face_of, secrets_of, stored_of, sound_by, with_session};

use crate::session;
use faces::PublicParts;
use grain::Session;

// What a verdict may look at, and what it may not.
#[derive(Clone, Copy)]
pub struct State<F> {
    face: F,
    session: Session,
}

impl<F: PublicParts> State<F> {
    // A state of any parts: a call answers 8 where they are against the rules.
    #[tactic(auto, unfolding(crate::specs::States::stored_of))]
    pub fn of(face: F, session: Session) -> State<F>
        ensures { result ≡ stored_of face session }
    {
        State { face, session }
    }

    // Its public parts.
    #[tactic(auto, unfolding(crate::specs::States::face_of))]
    pub fn face(self) -> F
        ensures { result ≡ face_of self }
    {
        self.face
    }

    // Its secret parts.
    #[tactic(auto, unfolding(crate::specs::States::secrets_of))]
    pub fn session(self) -> Session
        ensures { result ≡ secrets_of self }
    {
        self.session
    }

    // Whether it is one that no call answers with 8.
    #[tactic(auto, unfolding(crate::specs::States::face_of, crate::specs::States::secrets_of))]
    pub fn sound(self) -> bool
        ensures { result ≡ sound_by F.fits F.bare F.width self }
    {
        let face = self.face;
        let public = face.fits();
        let secret = session::fits(face.bare(), face.width(), self.session);
        public & secret
    }

    #[tactic(auto, unfolding(crate::specs::States::with_session, crate::specs::States::stored_of, crate::specs::States::face_of))]
    pub fn with_session(self, session: Session) -> State<F>
        ensures { result ≡ with_session self session }
    {
        State { session, ..self }
    }
}
