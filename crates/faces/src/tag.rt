// The tag's table of states, and what it asks of a face.
ghost use Rattle.std.specs.Prelude.{◌≡◌, true, false, not, ◌&&◌};
ghost use Rattle.faces.specs.TagFaces.{row_of, mutually, flags_fit, width_wanted, bare, face_fits, error_type};

use crate::{Face, Name, PublicParts, Row};

// The table of states.
pub fn row_of(name: Name) -> Row
    ensures { result ≡ row_of name }
{
    match name {
        Name::CsReset => Row {
            method: 3,
            bits: 64,
            ..Row::default()
        },
        Name::Ta1 => opened(true, false),
        Name::Ia1 => proving(1),
        Name::Ia2 => opened(false, true),
        Name::Ma1 => proving(2),
        Name::Ma2 => opened(true, true),
    }
}

// A state that waits for its method's step 1 takes nothing else, as CS-Reset takes nothing but step 0.
fn proving(method: u8) -> Row
    ensures { result ≡ record { init = true; ta = false; ia = false; fails = false; filled = false; method = method; step = 1; bits = 80; comm = false; idle = false; secure = false; responds = false } }
{
    Row {
        init: true,
        method,
        step: 1,
        bits: 80,
        ..Row::default()
    }
}

// Once open: a proved interrogator may command, a proved tag responds, and where both are, messages may be secure.
fn opened(ta: bool, ia: bool) -> Row
    ensures { result ≡ record { init = true; ta = ta; ia = ia; fails = ia; filled = true; method = 3; step = 3; bits = 0; comm = ia; idle = not ia; secure = ta && ia; responds = ta } }
{
    Row {
        init: true,
        ta,
        ia,
        fails: ia,
        filled: true,
        method: 3,
        step: 3,
        comm: ia,
        idle: !ia,
        secure: ta & ia,
        responds: ta,
        ..Row::default()
    }
}

// ---- the stored state

impl PublicParts for Face {
    ghost fits = { face_fits };

    ghost bare = { bare };

    ghost width = { λ f. f.width };

    fn fits(self) -> bool {
        let row = row_of(self.name);
        let flags = flags_fit(row, self);
        let want = width_wanted(row, self.error, self.options);
        let options = (self.options < 4) & (row.filled | (self.options == 0));
        let zeros = (self.keyid == 0) & (self.options == 0);
        flags & (self.width == want) & options & (!self.bare() | zeros)
    }

    // Nothing beside name and flags.
    fn bare(self) -> bool {
        let row = row_of(self.name);
        (row.step == 0) | self.error
    }

    fn width(self) -> u8 {
        self.width
    }
}

fn flags_fit(row: Row, f: Face) -> bool
    ensures { result ≡ flags_fit row f }
{
    (f.init == row.init)
        & (((f.ta == row.ta) & (f.ia == row.ia)) | (row.fails & f.error & !f.ta & !f.ia))
}

fn width_wanted(row: Row, error: bool, options: u8) -> u8
    ensures { result ≡ width_wanted row error options }
{
    crate::width_where(row.filled & !error, options)
}

// Whether the step 1 that a state waits for is MA's.
pub fn mutually(f: Face) -> bool
    ensures { result ≡ mutually f }
{
    let row = row_of(f.name);
    row.method == 2
}

// The error type of Annex B's table: 1, 2 or 3; 0 where there is no error. The table's number itself, of which demand 1 speaks and
// which C takes.
#[tactic(auto, unfolding(crate::specs::TagFaces::error_type))]
pub fn error_type(f: Face) -> u8
    ensures { result ≡ error_type f }
{
    let row = row_of(f.name);
    if !f.error {
        0
    } else if row.step == 0 {
        1
    } else if row.fails & !f.ta & !f.ia {
        2
    } else {
        3
    }
}
