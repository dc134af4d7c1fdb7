// The tag's verdicts.
#![tactic(auto, unfolding(states::specs::TagStates::sound_of))]

ghost use Rattle.std.specs.Prelude.{◌≡◌};
ghost use Rattle.rules.specs.Calls.{lent_message};
ghost use Rattle.machines.specs.TagWork.{command_judged, response_judged};

use rules::{Message, Shown, Verdict};
use states::TagState;

pub fn command(t: TagState, p: Shown) -> Verdict
    ensures { result ≡ command_judged t p }
{
    rules::if_sound(t.sound(), rules::tag::command_verdict(t.face(), p))
}

pub fn response(t: TagState, message: Message<'_>, room: usize) -> Verdict
    ensures { result ≡ response_judged t (lent_message message.entry) room }
{
    let shown = rules::message_shown(message, room);
    rules::if_sound(t.sound(), rules::tag::response_verdict(t.face(), shown))
}
