// A tag's command: its verdict, and its work.
ghost use Rattle.std.specs.Prelude.{◌≡◌, true, length, Ok};
ghost use Rattle.payloads.specs.Payloads.{beyond_of};
ghost use Rattle.rules.specs.Results.{Gives};
ghost use Rattle.rules.specs.TagRules.{command_verdict, command_work};
ghost use Rattle.states.specs.TagStates.{face_of, sound_of};
ghost use Rattle.machines.specs.TagWork.{worked_of, carried_of};
ghost use Rattle.suite.specs.Steps.{step_of};

use crate::{Step, work};
use authentication::tag;
use rules::{Shown, Work};
use states::TagState;

// A command, by what it shows, its key and its payload.
pub(crate) fn carry(
    t: TagState,
    p: Shown,
    key: &[u8],
    payload: &[u8],
    reply: &mut [u8],
) -> Step<TagState>
    requires { (p.beyond ≡ beyond_of payload.now p.count) × (p.room ≡ length reply.old) }
    ensures { Gives step_of (carried_of t p key.now payload.now) result reply.old reply.new }
{
    match verdicts::tag::command(t, p) {
        Err(refused) => work::refuse(t, refused, reply),
        Ok(()) => worked(t, p, key, payload, reply),
    }
}

fn worked(t: TagState, p: Shown, key: &[u8], payload: &[u8], reply: &mut [u8]) -> Step<TagState>
    requires { (sound_of t ≡ true) × ((p.beyond ≡ beyond_of payload.now p.count) × ((p.room ≡ length reply.old) × (command_verdict (face_of t) p ≡ Ok tt))) }
    ensures { Gives step_of (worked_of (command_work (face_of t) p.kind) t p key.now payload.now) result reply.old reply.new }
{
    let face = t.face();
    match rules::tag::command_work(face, p.kind) {
        Work::Start => work::say(tag::start(p, key, payload), reply),
        Work::Prove => work::say(tag::prove(t, p, payload), reply),
        Work::Receive => work::receive(t, p.kind == rules::SECURE, payload, p.count, reply),
    }
}
