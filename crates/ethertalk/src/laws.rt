//! Laws of frames. Each law is the contract of a function that does nothing.

ghost use Rattle.std.specs.Prelude.{◌≡◌, ◌++◌, ◌≤◌, List, length, ℕ};
ghost use Rattle.at_base.specs.Reading.{read};
ghost use Rattle.at_base.specs.Spelling.{bytes_of};
ghost use Rattle.ethertalk.specs.Frames.{FitsFrame, Framed, faults, frame};

/// A frame that is written is read back, whatever padding follows it, and has at most 1,514 bytes.
pub fn written_is_read()
    ensures same { (f : Framed) (padding : List ℕ) → FitsFrame f
        → read faults frame (bytes_of frame f ++ padding) ≡ Ok (f, padding) }
    ensures few { (f : Framed) → FitsFrame f → length (bytes_of frame f) ≤ 1514 }
{}
