//! Which bytes a text in TOML may begin with.

use file_entries::{Judge, may_begin_text};
use std::alloc::Global;

/// Characters of each length, the first and the last ones among them.
const CHARACTERS: &str = "é€😀\u{80}\u{7FF}\u{800}\u{FFFF}\u{10000}\u{10FFFF}";

/// Bytes, and whether a text may begin with them.
const BYTES: [(&[u8], bool); 17] = [
    (b"", true),
    (b"\t\r\n ~", true),
    (b"\xE2\x82", true),
    (b"\xED\x9F\xBF\xEE\x80\x80", true),
    (b"\xF4\x8F\xBF\xBF", true),
    (b"\x00", false),
    (b"a\x0B", false),
    (b"\x1F", false),
    (b"\x7F", false),
    (b"\x80", false),
    (b"\xC0\x80", false),
    (b"\xC1", false),
    (b"\xE0\x9F", false),
    (b"\xED\xA0", false),
    (b"\xF0\x8F", false),
    (b"\xF4\x90", false),
    (b"\xF5", false),
];

/// The pieces of a text, and what the judge says of each.
const PIECES: [(&[u8], bool); 4] = [
    (b"ticks = \"\xE2", true),
    (b"\x82", true),
    (b"\"", false),
    (b"more", false),
];

/// Whether bytes are judged by their kind, and a text piece by piece.
pub(super) fn bytes_are_judged() -> bool {
    for (bytes, want) in BYTES {
        if may_begin_text(bytes) != want {
            return false;
        }
    }
    let mut judge = Judge::new();
    for (piece, want) in PIECES {
        if judge.take(piece) != want {
            return false;
        }
    }
    may_begin_text(CHARACTERS.as_bytes())
}

/// Texts that TOML takes, which the judge must let through.
const TAKEN: [&str; 4] = [
    "a = \"\t\u{80}\u{9F}\u{FEFF}\u{10FFFF}\"\r\n",
    "# \u{A0}~\n'é€😀' = 1",
    "\u{FEFF}a = 1",
    "",
];

/// Whether the judge lets a text through, if TOML takes it.
fn is_let_through(alloc: Global, text: &[u8]) -> bool {
    toml::table_from_slice(alloc, text).is_err() || may_begin_text(text)
}

/// Whether what TOML takes is let through: the texts above, and each control byte in a remark and in
/// a quoted text.
pub(super) fn what_toml_takes_is_let_through(alloc: Global) -> bool {
    for text in TAKEN {
        if !is_let_through(alloc, text.as_bytes()) {
            return false;
        }
    }
    for control in 0..32u8 {
        let quoted = [b'a', b'=', b'"', control, b'"'];
        if !is_let_through(alloc, &[b'#', control]) || !is_let_through(alloc, &quoted) {
            return false;
        }
    }
    true
}
