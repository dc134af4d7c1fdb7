// A machine's state as the bytes of a lent block: eight bytes, then numbers of eight bytes each, the highest byte first. The
// session's six numbers come first in both blocks. No public function has a `requires`: a block that is none is kept as it is.
#![tactic(auto)]

ghost use Rattle.std.specs.Prelude.{◌≡◌, ℕ, List, true, length};
ghost use Rattle.blocks.specs.Blocks.{Blocks, stored_in, spelled_in};

mod parts;
mod reader;
mod tag;

// A machine's state, and the block that holds it.
pub trait Block: Copy {
    // How it is stored, as bytes.
    ghost blocks: { Blocks Self };

    // A block's length.
    ghost BYTES: { ℕ };

    const BYTES: usize;

    // Whether a block spells a state. A state that it spells may still be against the rules. Beside `spelled`, as it and `read` answer
    // every block, and are promised by themselves (`spells-tag`, `read-tag` in `determined`, and those of the reader).
    fn spells(block: &[u8]) -> bool
        ensures { result ≡ blocks.spells block.now };

    // The state that a block spells; of a block that spells none, some state.
    fn read(block: &[u8]) -> Self
        ensures { result ≡ blocks.state_in block.now };

    // Stores a state; a block of another length is kept. Each impl asks for the length itself: a method that fills a block of the
    // right one would be a public function with a `requires`.
    fn store(self, block: &mut [u8])
        ensures { block.new ≡ stored_in blocks.bytes (blocks.block_of self) block.old };

    // The state that a block spells, if it spells one.
    fn spelled(block: &[u8]) -> Option<Self>
        ensures { result ≡ spelled_in blocks block.now }
    {
        if Self::spells(block) {
            Some(Self::read(block))
        } else {
            None
        }
    }

    ghost long: { BYTES ≡ blocks.bytes };

    ghost sized: { (block : List ℕ) → blocks.spells block ≡ true → length block ≡ blocks.bytes };
}
