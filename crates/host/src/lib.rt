// What a host asks of a tag: the call that each kind of frame is (document 01, "Host frames"). No public function has a
// `requires`: every kind gets an answer.
#![tactic(auto)]

ghost use Rattle.std.specs.Prelude.{length};
ghost use Rattle.rules.specs.Calls.{lent_command};
ghost use Rattle.rules.specs.Results.{Gives};
ghost use Rattle.suite.specs.Steps.{step_of};
ghost use Rattle.host.specs.Kinds.{ran_of};

use states::TagState;
use suite::{Command, Message, Step, Tag};

// Runs a frame, given as a command of whatever kind; features, key book and number are the tag's, and only a command looks at them.
// No frame has a kind above 6: such a kind goes to the command, which refuses each above 3 and keeps the tag as it is.
#[tactic(auto, unfolding(crate::specs::Kinds::ran_of))]
pub fn run(tag: Tag, command: Command<'_>, reply: &mut [u8]) -> Step<TagState>
    ensures { Gives step_of (ran_of tag.state (lent_command command.entry) (length reply.old))
        result reply.old reply.new }
{
    let message = Message {
        kind: command.kind,
        payload: command.payload,
        count: command.count,
    };
    match command.kind {
        rules::COMM_RESPONSE | rules::SECURE_RESPONSE => tag.response(message, reply),
        6 => Tag::reset(reply),
        _ => tag.command(command, reply),
    }
}
