//! Judges whether bytes can begin a text in TOML, as they come.

ghost use Rattle.std.specs.Prelude.{◌≡◌, ◌++◌, List, ℕ, false, fold};
ghost use Rattle.at_base.specs.Range.{is_between};
ghost use Rattle.file_entries.specs.Texts as spec;
ghost use Rattle.file_entries.specs.Texts.{after_bytes, is_open, may_begin};

/// What may follow the bytes so far.
#[derive(Clone, Copy, Debug, PartialEq, Eq)]
pub enum Next {
    /// Any character.
    Any,
    /// The last byte of a character.
    Tail,
    /// The last two bytes of a character.
    TailTwo,
    /// The last three bytes of a character.
    TailThree,
    /// The last two bytes of a character that began with E0.
    TailE0,
    /// The last two bytes of a character that began with ED.
    TailED,
    /// The last three bytes of a character that began with F0.
    TailF0,
    /// The last three bytes of a character that began with F4.
    TailF4,
    /// Nothing: no text in TOML begins so.
    Nothing,
}

/// A judge of the bytes of a text.
#[derive(Clone, Copy, Debug)]
pub struct Judge {
    /// What may follow the bytes so far.
    pub next: Next,
}

/// Whether the byte is within these bounds.
fn is_within(low: u8, high: u8, byte: u8) -> bool
    ensures { result ≡ is_between low high byte }
{
    low <= byte && byte <= high
}

/// Whether the byte is a printable character of ASCII, a tab or the end of a line.
fn is_plain(byte: u8) -> bool
    ensures { result ≡ spec.is_plain byte }
{
    is_within(0x20, 0x7E, byte) || byte == b'\t' || byte == b'\n' || byte == b'\r'
}

/// What may follow the first byte of a character.
fn after_first(byte: u8) -> Next
    ensures { result ≡ spec.after_first byte }
{
    if is_plain(byte) {
        Next::Any
    } else if is_within(0xC2, 0xDF, byte) {
        Next::Tail
    } else if byte == 0xE0 {
        Next::TailE0
    } else if byte == 0xED {
        Next::TailED
    } else if is_within(0xE1, 0xEF, byte) {
        Next::TailTwo
    } else if byte == 0xF0 {
        Next::TailF0
    } else if is_within(0xF1, 0xF3, byte) {
        Next::TailThree
    } else if byte == 0xF4 {
        Next::TailF4
    } else {
        Next::Nothing
    }
}

/// The given state if the byte is within these bounds, and else that nothing may follow.
fn within(low: u8, high: u8, byte: u8, next: Next) -> Next
    ensures { result ≡ spec.within low high byte next }
{
    if is_within(low, high, byte) {
        next
    } else {
        Next::Nothing
    }
}

/// What may follow a byte, by what might stand there.
fn step(next: Next, byte: u8) -> Next
    ensures { result ≡ spec.step next byte }
{
    match next {
        Next::Any => after_first(byte),
        Next::Tail => within(0x80, 0xBF, byte, Next::Any),
        Next::TailTwo => within(0x80, 0xBF, byte, Next::Tail),
        Next::TailThree => within(0x80, 0xBF, byte, Next::TailTwo),
        Next::TailE0 => within(0xA0, 0xBF, byte, Next::Tail),
        Next::TailED => within(0x80, 0x9F, byte, Next::Tail),
        Next::TailF0 => within(0x90, 0xBF, byte, Next::TailTwo),
        Next::TailF4 => within(0x80, 0x8F, byte, Next::TailTwo),
        Next::Nothing => Next::Nothing,
    }
}

/// What may follow these bytes.
fn after_piece(next: Next, piece: &[u8]) -> Next
    ensures { result ≡ after_bytes next piece.now }
{
    piece.iter().fold(next, |next, byte| step(next, *byte))
}

impl Judge {
    /// A judge of a text of which nothing has come.
    pub fn new() -> Judge
        ensures { result.next ≡ Next.Any }
    {
        Judge { next: Next::Any }
    }

    /// Takes the next bytes. Returns whether a text in TOML may begin with all bytes so far.
    pub fn take(&mut self, piece: &[u8]) -> bool
        ensures next { self.new.next ≡ after_bytes self.old.next piece.now }
        ensures open { result ≡ is_open self.new.next }
    {
        self.next = after_piece(self.next, piece);
        !matches!(self.next, Next::Nothing)
    }
}

/// Whether a text in TOML may begin with these bytes.
pub fn may_begin_text(bytes: &[u8]) -> bool
    ensures { result ≡ may_begin bytes.now }
{
    Judge::new().take(bytes)
}

/// No text that begins with bytes that none may begin with is TOML.
pub fn stays_false()
    ensures { (bytes more : List ℕ) → may_begin bytes ≡ false → may_begin (bytes ++ more) ≡ false }
{}
