// The reader's verdicts.
#![tactic(auto, unfolding(states::specs::ReaderStates::reader_sound))]

ghost use Rattle.std.specs.Prelude.{◌≡◌};
ghost use Rattle.rules.specs.Calls.{lent_message};
ghost use Rattle.machines.specs.ReaderWork.{begin_judged, reply_judged, send_judged, receive_judged};

use rules::{Message, ShownBegin, ShownReply, Verdict};
use states::ReaderState;

pub fn begin(r: ReaderState, p: ShownBegin) -> Verdict
    ensures { result ≡ begin_judged r p }
{
    rules::if_sound(r.sound(), rules::reader::begin_verdict(r.face(), p))
}

pub fn replied(r: ReaderState, p: ShownReply) -> Verdict
    ensures { result ≡ reply_judged r p }
{
    rules::if_sound(r.sound(), rules::reader::reply_verdict(r.face(), p))
}

pub fn send(r: ReaderState, message: Message<'_>, room: usize) -> Verdict
    ensures { result ≡ send_judged r (lent_message message.entry) room }
{
    let shown = rules::message_shown(message, room);
    rules::if_sound(r.sound(), rules::reader::send_verdict(r.face(), shown))
}

pub fn receive(r: ReaderState, message: Message<'_>, room: usize) -> Verdict
    ensures { result ≡ receive_judged r (lent_message message.entry) room }
{
    let face = r.face();
    let shown = rules::message_shown(message, room);
    let zeros = payloads::zeros(face.width, message.payload, message.count);
    rules::if_sound(
        r.sound(),
        rules::reader::receive_verdict(face, shown, zeros),
    )
}
