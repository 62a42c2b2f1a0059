//! Who is told of a capture's blocks.

use pcapng::Block;

/// Who is told of the blocks of a capture, one after the other, as soon as their bytes are there.
pub trait Listen {
    ghost use Rattle.pcapng.specs.Sections.{Told};
    ghost use Rattle.pcapng.specs.Reads.{told};

    ghost heard: { Self → Told → Self → Type 0 };

    /// Hears what a block says.
    fn hear(&mut self, block: &Block)
        ensures { heard self.old (told block.now) self.new };
}
