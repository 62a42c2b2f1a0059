//! The commands of a script, and their words.

/// A word of a command.
#[derive(Clone, Copy)]
pub(crate) struct Word {
    /// Its name in the manual page.
    pub name: &'static str,
    /// A word that is right.
    pub sample: &'static str,
    /// What it has to be.
    pub must: &'static str,
}

/// A command.
#[derive(Clone, Copy, Debug, PartialEq, Eq)]
pub(crate) enum Command {
    Send,
    Request,
    Take,
    Drain,
}

const NODE: Word = Word {
    name: "NODE",
    sample: "1.1",
    must: "the address of a node, as 10.7",
};

const VIA: Word = Word {
    name: "VIA",
    sample: "-",
    must: "the address of a router, as 10.1, or - for the node's own",
};

const SEND: [Word; 8] = [
    NODE,
    VIA,
    Word {
        name: "SOURCE-SOCKET",
        sample: "1",
        must: "a number from 0 to 255",
    },
    Word {
        name: "TARGET",
        sample: "1.1",
        must: "an address, as 30.5",
    },
    Word {
        name: "SOCKET",
        sample: "1",
        must: "a number from 0 to 255",
    },
    Word {
        name: "TYPE",
        sample: "1",
        must: "a number from 0 to 255",
    },
    Word {
        name: "SUM",
        sample: "0",
        must: "1 for a checksum, or 0 for none",
    },
    Word {
        name: "HEX",
        sample: "-",
        must: "data in pairs of hexadecimal digits, or - for none",
    },
];

const REQUEST: [Word; 4] = [
    NODE,
    VIA,
    Word {
        name: "ID",
        sample: "1",
        must: "a number from 0 to 255",
    },
    Word {
        name: "OBJECT:TYPE@ZONE",
        sample: "a:b@c",
        must: "a name, as lab:LaserWriter@Blue: an object and a type of 1 to 32 bytes, a zone of at \
            most 32",
    },
];

const TAKE: [Word; 2] = [
    Word {
        name: "STAMP",
        sample: "1",
        must: "the stamp of a frame, a number",
    },
    Word {
        name: "STATION",
        sample: "1.1",
        must: "the address of a station, as 10.1",
    },
];

const DRAIN: [Word; 1] = [Word {
    name: "MAX",
    sample: "1",
    must: "the greatest number of frames to take",
}];

impl Command {
    /// The command with this name.
    pub(crate) fn named(word: &[u8]) -> Option<Command> {
        match word {
            b"send" => Some(Command::Send),
            b"request" => Some(Command::Request),
            b"take" => Some(Command::Take),
            b"drain" => Some(Command::Drain),
            _ => None,
        }
    }

    /// Its name.
    pub(crate) fn name(self) -> &'static str {
        match self {
            Command::Send => "send",
            Command::Request => "request",
            Command::Take => "take",
            Command::Drain => "drain",
        }
    }

    /// Its words, in order.
    pub(crate) fn words(self) -> &'static [Word] {
        match self {
            Command::Send => &SEND,
            Command::Request => &REQUEST,
            Command::Take => &TAKE,
            Command::Drain => &DRAIN,
        }
    }
}
