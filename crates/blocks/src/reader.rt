// The reader's block.
ghost use Rattle.std.specs.Prelude.{◌≡◌, refl};
ghost use Rattle.blocks.specs.Blocks.{stage_of, reader_blocks};
ghost use Rattle.blocks.specs.Sizes.{reader_sized};

use crate::{Block, parts};
use faces::{ReaderFace, Stage};
use states::ReaderState;

impl Block for ReaderState {
    ghost blocks = { reader_blocks };

    ghost BYTES = { 64 };

    // The head, the session, and the reader's number.
    const BYTES: usize = 64;

    fn spells(block: &[u8]) -> bool {
        (block.len() == Self::BYTES)
            & parts::small(block, 0, 5)
            & parts::small(block, 5, 1)
            & parts::small(block, 6, 1)
            & parts::small(block, 7, 1)
    }

    #[tactic(auto, unfolding(crate::specs::Blocks::reader_in))]
    fn read(block: &[u8]) -> ReaderState {
        let stage = stage(bits::byte_at(block, 0));
        let session = parts::session(block);
        let face = ReaderFace {
            stage,
            method: bits::byte_at(block, 1),
            options: bits::byte_at(block, 2),
            keyid: bits::byte_at(block, 3),
            number: parts::number(block, 56),
            width: bits::byte_at(block, 4),
        };
        ReaderState::of(face, session)
    }

    fn store(self, block: &mut [u8]) {
        if block.len() != Self::BYTES {
            return;
        }
        let face = self.face();
        let stage = face.stage;
        let head = [
            u8::from(stage),
            face.method,
            face.options,
            face.keyid,
            face.width,
            0,
            0,
            0,
        ];
        parts::put_front(block, head, self.session());
        parts::put_number(block, 56, face.number);
    }

    ghost long = { refl };

    ghost sized = { reader_sized };
}

// Some stage of every byte, as `stage_of` says, since `read` answers every block.
#[tactic(auto, unfolding(crate::specs::Blocks::stage_of))]
fn stage(n: u8) -> Stage
    ensures { result ≡ stage_of n }
{
    Stage::try_from(n).unwrap_or(Stage::Closed)
}
