//! Laws of captures that come in pieces. Each law is the contract of a function that does nothing.

ghost use Rattle.std.specs.Prelude.{◌≡◌, List, None, ℕ};
ghost use Rattle.capture_feed.specs.Stages.{coming, counted, told};
ghost use Rattle.pcapng.specs.First.{IsFirst};
ghost use Rattle.pcapng.specs.Sections.{Section, Told};

/// A block that is read as a whole is what comes next, and the capture goes on with the bytes after it.
/// So what `pcapng`'s laws say of what is printed, and of what a writer of classic captures spells,
/// holds of a feed.
pub fn first_block_comes()
    ensures { (s new : Section) (bytes rest : List ℕ) (t : Told) (blocks : ℕ)
        → IsFirst s bytes t new rest
        → coming (record { stage = record { section = s; passing = None }; blocks = blocks }) bytes
        ≡ told t
        (record { stage = record { section = new; passing = None }; blocks = counted blocks }) rest }
{}
