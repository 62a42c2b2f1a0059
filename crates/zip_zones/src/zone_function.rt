//! The requests for zone lists, which are sent as ATP requests.

ghost use Rattle.std.specs.Prelude.{◌≡◌};
ghost use Rattle.zip_zones.specs.Answers as spec;
ghost use Rattle.zip_zones.specs.Answers.{asked_page};

/// The zones that a node asks for.
///
/// Inside AppleTalk, the chapter on ZIP.
#[derive(Clone, Copy, Debug, PartialEq, Eq)]
pub enum ZoneFunction {
    /// The default zone of the node's cable.
    GetMyZone,
    /// The zones of the internet.
    GetZoneList,
    /// The zones of the node's cable.
    GetLocalZones,
}

impl ZoneFunction {
    /// The number in the first user byte of a request.
    pub fn number(self) -> u8
        ensures { result ≡ spec.number self }
    {
        match self {
            ZoneFunction::GetMyZone => 7,
            ZoneFunction::GetZoneList => 8,
            ZoneFunction::GetLocalZones => 9,
        }
    }

    /// The function and the index of the first name, from 1, in a request's user bytes; `None` if
    /// the first byte isn't one of the three functions. The second byte is ignored.
    pub fn asked(user: &[u8; 4]) -> Option<(ZoneFunction, u16)>
        ensures { result ≡ asked_page user.now }
    {
        let function = match user[0] {
            7 => ZoneFunction::GetMyZone,
            8 => ZoneFunction::GetZoneList,
            9 => ZoneFunction::GetLocalZones,
            _ => return None,
        };
        Some((function, u16::from_be_bytes([user[2], user[3]])))
    }
}
