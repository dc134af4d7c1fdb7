// The tag's block.
ghost use Rattle.std.specs.Prelude.{◌≡◌, refl};
ghost use Rattle.blocks.specs.Blocks.{name_of, tag_blocks};
ghost use Rattle.blocks.specs.Sizes.{tag_sized};

use crate::{Block, parts};
use faces::{Face, Name};
use states::TagState;

impl Block for TagState {
    ghost blocks = { tag_blocks };

    ghost BYTES = { 56 };

    // The head, and the session.
    const BYTES: usize = 56;

    fn spells(block: &[u8]) -> bool {
        (block.len() == Self::BYTES)
            & parts::small(block, 0, 6)
            & parts::small(block, 1, 2)
            & parts::small(block, 2, 2)
            & parts::small(block, 3, 2)
            & parts::small(block, 4, 2)
    }

    #[tactic(auto, unfolding(crate::specs::Blocks::tag_in))]
    fn read(block: &[u8]) -> TagState {
        let name = name(bits::byte_at(block, 0));
        let session = parts::session(block);
        let face = Face {
            name,
            init: parts::flag(block, 1),
            ta: parts::flag(block, 2),
            ia: parts::flag(block, 3),
            error: parts::flag(block, 4),
            keyid: bits::byte_at(block, 5),
            options: bits::byte_at(block, 6),
            width: bits::byte_at(block, 7),
        };
        TagState::of(face, session)
    }

    fn store(self, block: &mut [u8]) {
        if block.len() != Self::BYTES {
            return;
        }
        let face = self.face();
        let name = face.name;
        let head = [
            u8::from(name),
            face.init as u8,
            face.ta as u8,
            face.ia as u8,
            face.error as u8,
            face.keyid,
            face.options,
            face.width,
        ];
        parts::put_front(block, head, self.session());
    }

    ghost long = { refl };

    ghost sized = { tag_sized };
}

// Some name of every byte, as `name_of` says, since `read` answers every block.
#[tactic(auto, unfolding(crate::specs::Blocks::name_of))]
fn name(n: u8) -> Name
    ensures { result ≡ name_of n }
{
    Name::try_from(n).unwrap_or(Name::Ma2)
}
