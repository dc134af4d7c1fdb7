// What the reader's stages ask, and what a call is refused for.
ghost use Rattle.std.specs.Prelude.{◌≡◌};
ghost use Rattle.rules.specs.ReaderRules.{begin_verdict, reply_shown, reply_length, reply_closing, reply_verdict, reply_work, may_talk, send_closing, send_verdict, receive_verdict};

use crate::{
    COMM, Closing, IA, Keeping, MA, ReplyWork, SECURE, ShownBegin, ShownMessage, ShownReply, TA,
    Verdict, order,
};
use bits::AREA_BYTES;
use faces::{ReaderFace, StageRow};
use payloads::{DATA_BITS, NUMBER_LIMIT};

// ---- begin

#[tactic(auto, unfolding(crate::specs::ReaderRules::begin_verdict))]
pub fn begin_verdict(f: ReaderFace, p: ShownBegin) -> Verdict
    ensures { result ≡ begin_verdict f p }
{
    let row = faces::reader::stage_row(f.stage);
    let keeping = Keeping {
        buffer: p.room < AREA_BYTES,
        argument: NUMBER_LIMIT <= p.number,
        book: !p.book,
        work: !row.idle,
        ..Keeping::default()
    };
    let closing = Closing {
        key: !p.known,
        support: (MA < p.method) | (4 <= p.options),
        ..Closing::default()
    };
    order::kept(order::verdict(keeping, closing))
}

// ---- the authentication response

pub fn reply_shown(payload: &[u8], count: usize, room: usize) -> ShownReply
    ensures { result ≡ reply_shown payload.now count room }
{
    let beyond = payloads::beyond(payload, count);
    let features = payloads::features(payload);
    let status = payloads::status(payload);
    ShownReply {
        count,
        beyond,
        features,
        status,
        room,
    }
}

#[tactic(auto, unfolding(crate::specs::ReaderRules::reply_verdict))]
pub fn reply_verdict(f: ReaderFace, p: ShownReply) -> Verdict
    ensures { result ≡ reply_verdict f p }
{
    let row = faces::reader::stage_row(f.stage);
    let keeping = Keeping {
        buffer: p.room < AREA_BYTES,
        argument: p.beyond,
        work: !(row.asked | row.proving),
        ..Keeping::default()
    };
    let closing = reply_closing(row, f, p);
    order::verdict(keeping, closing)
}

fn reply_closing(row: StageRow, f: ReaderFace, p: ShownReply) -> Closing
    ensures { result ≡ reply_closing row f p }
{
    let length = reply_length(row, f.method, p.count, p.status);
    let own = payloads::offered(p.features, f.method);
    let chosen = payloads::supported(p.features, f.options);
    Closing {
        length: !length,
        support: row.asked & !(own & chosen),
        ..Closing::default()
    }
}

fn reply_length(row: StageRow, method: u8, count: usize, status: u8) -> bool
    ensures { result ≡ reply_length row method count status }
{
    let first = ((method == TA) & (count == 120)) | ((method != TA) & (count == 56));
    let confirmed = ((count == 1) & (status == 1)) | ((count == 65) & (status == 0));
    let second = ((method == IA) & (count == 1)) | ((method != IA) & confirmed);
    (row.asked & first) | (row.proving & second)
}

// What is done where nothing is refused.
#[tactic(auto, unfolding(crate::specs::ReaderRules::reply_work))]
pub fn reply_work(f: ReaderFace, status: u8) -> ReplyWork
    ensures { result ≡ reply_work f status }
{
    let row = faces::reader::stage_row(f.stage);
    if row.asked {
        if f.method == TA {
            return ReplyWork::Compare;
        }
        return ReplyWork::Answer;
    }
    if status == 1 {
        return ReplyWork::Fail;
    }
    if f.method == IA {
        return ReplyWork::Accept;
    }
    ReplyWork::Confirm
}

// ---- messages

#[tactic(auto, unfolding(crate::specs::ReaderRules::send_verdict))]
pub fn send_verdict(f: ReaderFace, p: ShownMessage) -> Verdict
    ensures { result ≡ send_verdict f p }
{
    let row = faces::reader::stage_row(f.stage);
    let may = may_talk(row, f, TA, p.kind);
    let keeping = Keeping {
        buffer: p.room < AREA_BYTES,
        argument: p.beyond | !matches!(p.kind, COMM | SECURE) | (DATA_BITS < p.count),
        work: !may,
        ..Keeping::default()
    };
    order::verdict(keeping, send_closing())
}

// Nothing that is to be sent closes, as `send_closing` says.
fn send_closing() -> Closing
    ensures { result ≡ send_closing }
{
    Closing::default()
}

#[tactic(auto, unfolding(crate::specs::ReaderRules::receive_verdict))]
pub fn receive_verdict(f: ReaderFace, p: ShownMessage, zeros: bool) -> Verdict
    ensures { result ≡ receive_verdict f p zeros }
{
    let row = faces::reader::stage_row(f.stage);
    let may = may_talk(row, f, IA, p.kind);
    let fits = payloads::length_fits(f.width, p.count);
    let keeping = Keeping {
        buffer: p.room < AREA_BYTES,
        argument: p.beyond | !matches!(p.kind, COMM | SECURE),
        work: !may,
        ..Keeping::default()
    };
    let closing = Closing {
        length: !(fits & zeros),
        ..Closing::default()
    };
    order::verdict(keeping, closing)
}

// Whether a message of this kind may go: `silent` is the method that has no messages this way.
fn may_talk(row: StageRow, f: ReaderFace, silent: u8, kind: u8) -> bool
    ensures { result ≡ may_talk row f silent kind }
{
    let enabled = payloads::secure(f.options);
    row.opened & (f.method != silent) & ((kind != SECURE) | ((f.method == MA) & enabled))
}
