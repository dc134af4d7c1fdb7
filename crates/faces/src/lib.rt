// The faces of tag and reader (document 01, "Tag machine", "Reader machine"): the public parts of a stored state, the tables of
// states, and what the public parts must be. No public function has a `requires`.
#![tactic(auto)]

pub mod reader;
pub mod tag;

ghost use Rattle.std.specs.Prelude.{◌≡◌, Bool, cond, ℕ};
ghost use Rattle.payloads.specs.Payloads.{mac_bits};
ghost use Rattle.faces.specs.TagFaces.{name_number, name_numbered};
ghost use Rattle.faces.specs.ReaderFaces.{stage_number, stage_numbered};

// ---- both

// The public parts of a stored state: all that a verdict may look at.
pub trait PublicParts: Copy {
    ghost fits: { Self → Bool };

    ghost bare: { Self → Bool };

    ghost width: { Self → ℕ };

    // Whether they are those of some state; the secret parts are not asked here.
    fn fits(self) -> bool
        ensures { result ≡ fits self };

    // Whether a state may hold nothing beside what names it.
    fn bare(self) -> bool
        ensures { result ≡ bare self };

    // The bits that accumulator and register have: 0 where they are not filled.
    fn width(self) -> u8
        ensures { result ≡ width self };
}

// The width that the public parts of a state ask for: where accumulator and register are filled, as options bit 0 says.
fn width_where(filled: bool, options: u8) -> u8
    ensures { result ≡ cond filled (mac_bits options) 0 }
{
    if filled {
        payloads::mac_bits(options)
    } else {
        0
    }
}

// ---- the tag

// Its states, in the order of their numbers.
#[derive(Clone, Copy, PartialEq, Eq)]
pub enum Name {
    CsReset,
    Ta1,
    Ia1,
    Ia2,
    Ma1,
    Ma2,
}

// The public parts of its stored state: all that a verdict may look at. Options and width are bytes as stored, which may be any: a
// call answers 8 of those against the rules (`demand1_tag`).
#[derive(Clone, Copy, PartialEq, Eq)]
pub struct Face {
    pub name: Name,
    pub init: bool,
    pub ta: bool,
    pub ia: bool,
    pub error: bool,
    pub keyid: u8,
    pub options: u8,
    pub width: u8,
}

// A row of document 01's table of states; `specs/TagFaces.antt` says what each column is. Method and step are numbers, as the bits
// of a command are that they are held against, and 3 is that of none: a command's two bits can be 3, too, but where a state waits for
// no authentication `bits` is 0, and the command is refused before, by its kind.
#[derive(Clone, Copy, Default, PartialEq, Eq)]
pub struct Row {
    pub init: bool,
    pub ta: bool,
    pub ia: bool,
    pub fails: bool,
    pub filled: bool,
    pub method: u8,
    pub step: u8,
    pub bits: usize,
    pub comm: bool,
    pub idle: bool,
    pub secure: bool,
    pub responds: bool,
}

// ---- the reader

// Its states, in the order of their numbers.
#[derive(Clone, Copy, PartialEq, Eq)]
pub enum Stage {
    Idle,
    Step0Sent,
    Step1Sent,
    Open,
    Closed,
}

// The public parts of its stored state: all that a verdict may look at. Method, options and width are bytes as stored, which may be
// any: a call answers 8 of those against the rules (`demand1_reader`).
#[derive(Clone, Copy, PartialEq, Eq)]
pub struct ReaderFace {
    pub stage: Stage,
    pub method: u8,
    pub options: u8,
    pub keyid: u8,
    pub number: u64,
    pub width: u8,
}

// Where a stage stands: all false where it is closed. Flags beside the enum, as the definitions of `rules` and `promises` cite
// `stage_row` and its columns (`reply_work`, `may_talk`, `lacks`, `held_by`).
#[derive(Clone, Copy, Default, PartialEq, Eq)]
pub struct StageRow {
    pub idle: bool,
    pub asked: bool,
    pub proving: bool,
    pub opened: bool,
}

// ---- the numbers of both; written out, as no derive gives a `From` or a `TryFrom` what `from_gives` and `try_from_gives` say

impl From<Name> for u8 {
    ghost from_gives = { λ name n. n ≡ name_number name };

    fn from(name: Name) -> u8 {
        name as u8
    }
}

impl From<Stage> for u8 {
    ghost from_gives = { λ stage n. n ≡ stage_number stage };

    fn from(stage: Stage) -> u8 {
        stage as u8
    }
}

// A byte that is no state's number.
#[derive(Clone, Copy, PartialEq, Eq)]
pub struct Unnumbered;

impl TryFrom<u8> for Name {
    type Error = Unnumbered;

    ghost try_from_gives = { λ n r. r ≡ name_numbered n };

    fn try_from(n: u8) -> Result<Name, Unnumbered> {
        match n {
            0 => Ok(Name::CsReset),
            1 => Ok(Name::Ta1),
            2 => Ok(Name::Ia1),
            3 => Ok(Name::Ia2),
            4 => Ok(Name::Ma1),
            5 => Ok(Name::Ma2),
            _ => Err(Unnumbered),
        }
    }
}

impl TryFrom<u8> for Stage {
    type Error = Unnumbered;

    ghost try_from_gives = { λ n r. r ≡ stage_numbered n };

    fn try_from(n: u8) -> Result<Stage, Unnumbered> {
        match n {
            0 => Ok(Stage::Idle),
            1 => Ok(Stage::Step0Sent),
            2 => Ok(Stage::Step1Sent),
            3 => Ok(Stage::Open),
            4 => Ok(Stage::Closed),
            _ => Err(Unnumbered),
        }
    }
}
