// What the tag's table of states asks, and what a call is refused for.
ghost use Rattle.std.specs.Prelude.{◌≡◌, false};
ghost use Rattle.std.specs.Option.{option_copied};
ghost use Rattle.rules.specs.TagRules.{found_under, kind_wanted, step_wanted, key_fits, options_supported, wrong_length, command_keeping, command_closing, command_verdict, command_work, response_verdict};

use crate::{
    AUTHENTICATION, COMM, COMM_RESPONSE, Closing, KEY_UPDATE, Keeping, SECURE, SECURE_RESPONSE,
    Shown, ShownMessage, Verdict, Work, order,
};
use bits::AREA_BYTES;
use faces::{Face, Row};
use payloads::{DATA_BITS, NUMBER_LIMIT};

// ---- a command

// The key under a command's KeyID, as a part of the book. Under the other kinds the KeyID's place has data, which is not searched
// for.
#[tactic(auto, unfolding(crate::specs::TagRules::found_under))]
pub fn key_under(kind: u8, keyid: u8, book: &[u8]) -> Option<&[u8]>
    ensures { option_copied result ≡ found_under kind keyid book.now }
{
    if kind == AUTHENTICATION {
        book::find(book, keyid)
    } else {
        None
    }
}

#[tactic(auto, unfolding(crate::specs::TagRules::command_verdict))]
pub fn command_verdict(f: Face, p: Shown) -> Verdict
    ensures { result ≡ command_verdict f p }
{
    let row = faces::tag::row_of(f.name);
    let keeping = command_keeping(row, f, p);
    let closing = command_closing(row, f, p);
    order::verdict(keeping, closing)
}

// A row beside its face, as `judged_by` in `promises` hands both to any rule.
fn command_keeping(row: Row, f: Face, p: Shown) -> Keeping
    ensures { result ≡ command_keeping row f p }
{
    Keeping {
        buffer: p.room < AREA_BYTES,
        argument: p.beyond | (NUMBER_LIMIT <= p.number) | (KEY_UPDATE < p.kind),
        book: !p.book,
        error: f.error,
        work: row.idle & (p.kind == COMM),
    }
}

// A call of its own: into its caller a compiler takes a test of a message's data along, to choose between two values that are the
// same (`tests/secrets` finds it).
#[inline(never)]
fn command_closing(row: Row, f: Face, p: Shown) -> Closing
    ensures { result ≡ command_closing row f p }
{
    let auth = p.kind == AUTHENTICATION;
    let kind = kind_wanted(row, f.options, p.kind);
    let length = wrong_length(row, f.width, p);
    let step = step_wanted(row, p.fields.method, p.fields.step);
    let key = key_fits(row, f.keyid, p);
    let support = options_supported(row, p);
    Closing {
        kind: !kind,
        length,
        step: auth & !step,
        key: auth & !key,
        support: auth & !support,
    }
}

fn kind_wanted(row: Row, options: u8, kind: u8) -> bool
    ensures { result ≡ kind_wanted row options kind }
{
    match kind {
        AUTHENTICATION => 0 < row.bits,
        COMM => row.comm,
        SECURE => row.secure & payloads::secure(options),
        _ => false,
    }
}

fn wrong_length(row: Row, width: u8, p: Shown) -> bool
    ensures { result ≡ wrong_length row width p }
{
    if p.kind == AUTHENTICATION {
        p.count != row.bits
    } else {
        !(payloads::length_fits(width, p.count) & p.zeros)
    }
}

// By `&` and `|` here and in the two tests below: where a message comes, the fields' places hold data, which chooses no branch. 3
// is no method's.
fn step_wanted(row: Row, method: u8, step: u8) -> bool
    ensures { result ≡ step_wanted row method step }
{
    let fresh = row.step == 0;
    (step == row.step) & ((fresh & (method != 3)) | (!fresh & (method == row.method)))
}

fn key_fits(row: Row, stored: u8, p: Shown) -> bool
    ensures { result ≡ key_fits row stored p }
{
    let fresh = row.step == 0;
    (fresh & p.known) | (!fresh & (p.fields.keyid == stored))
}

fn options_supported(row: Row, p: Shown) -> bool
    ensures { result ≡ options_supported row p }
{
    let fresh = row.step == 0;
    let options = p.fields.options;
    let start = payloads::start_supported(p.features, p.fields.method, options);
    let later = payloads::supported(p.features, options);
    (fresh & start) | (!fresh & later)
}

// What is done where nothing is refused.
#[tactic(auto, unfolding(crate::specs::TagRules::command_work))]
pub fn command_work(f: Face, kind: u8) -> Work
    ensures { result ≡ command_work f kind }
{
    let row = faces::tag::row_of(f.name);
    if kind != AUTHENTICATION {
        Work::Receive
    } else if row.step == 0 {
        Work::Start
    } else {
        Work::Prove
    }
}

// ---- a response

#[tactic(auto, unfolding(crate::specs::TagRules::response_verdict))]
pub fn response_verdict(f: Face, p: ShownMessage) -> Verdict
    ensures { result ≡ response_verdict f p }
{
    let row = faces::tag::row_of(f.name);
    let secure = payloads::secure(f.options);
    let keeping = Keeping {
        buffer: p.room < AREA_BYTES,
        argument: p.beyond
            | !matches!(p.kind, COMM_RESPONSE | SECURE_RESPONSE)
            | (DATA_BITS < p.count),
        error: f.error,
        work: !row.responds,
        ..Keeping::default()
    };
    let closing = Closing {
        kind: (p.kind == SECURE_RESPONSE) & !(row.secure & secure),
        ..Closing::default()
    };
    order::verdict(keeping, closing)
}
