// What both blocks are made of: bytes, numbers of eight bytes, and head and session.
ghost use Rattle.std.specs.Prelude.{◌≡◌, ◌++◌, ◌+◌, ◌≤◌, ◌<◌, eqb, ltb, length};
ghost use Rattle.std.proofs.lemmas.List.Edits.{sets};
ghost use Rattle.blocks.specs.Blocks.{byte_at, number_at, number_bytes, session_in, session_bytes};

use grain::{Engine, Register, Session};
use std::array;

// ---- bytes

pub(crate) fn flag(block: &[u8], i: usize) -> bool
    ensures { result ≡ eqb (byte_at i block.now) 1 }
{
    bits::byte_at(block, i) == 1
}

pub(crate) fn small(block: &[u8], i: usize, limit: u8) -> bool
    ensures { result ≡ ltb (byte_at i block.now) limit }
{
    bits::byte_at(block, i) < limit
}

// ---- numbers

// The number of eight bytes from `at` on; past the end they are zeros.
#[tactic(auto, using(crate::proofs::Numbers::number_read))]
pub(crate) fn number(block: &[u8], at: usize) -> u64
    requires { at < 64 }
    ensures { result ≡ number_at at block.now }
{
    u64::from_be_bytes(array::from_fn(|k| bits::byte_at(block, at + k)))
}

#[tactic(auto, using(crate::proofs::Numbers::number_put, crate::proofs::Numbers::run_copied))]
pub(crate) fn put_number(block: &mut [u8], at: usize, x: u64)
    requires { at + 8 ≤ length block.old }
    ensures { block.new ≡ sets block.old at (number_bytes x) }
{
    block[at..at + 8].copy_from_slice(&x.to_be_bytes());
}

// ---- the session

#[tactic(auto, unfolding(crate::specs::Blocks::session_in))]
pub(crate) fn session(block: &[u8]) -> Session
    ensures { result ≡ session_in block.now }
{
    let b = Register {
        first: number(block, 8),
        last: number(block, 16),
    };
    let s = Register {
        first: number(block, 24),
        last: number(block, 32),
    };
    let engine = Engine { b, s };
    Session {
        engine,
        acc: number(block, 40),
        reg: number(block, 48),
    }
}

// What both blocks begin with: the eight bytes of the head, and the session.
#[tactic(auto, using(crate::proofs::Numbers::front_put), unfolding(crate::specs::Blocks::session_bytes))]
pub(crate) fn put_front(block: &mut [u8], head: [u8; 8], session: Session)
    requires { 56 ≤ length block.old }
    ensures { block.new ≡ sets block.old 0 (head ++ session_bytes session) }
{
    let engine = session.engine;
    let b = engine.b;
    let s = engine.s;
    block[..8].copy_from_slice(&head);
    put_number(block, 8, b.first);
    put_number(block, 16, b.last);
    put_number(block, 24, s.first);
    put_number(block, 32, s.last);
    put_number(block, 40, session.acc);
    put_number(block, 48, session.reg);
}
