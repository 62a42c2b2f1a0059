//! The order of bytes, and the fields of blocks in it.

ghost use Rattle.std.specs.Prelude.{◌≡◌, IfOk, length};
ghost use Rattle.std.specs.Int.{w16, w32, w64};
ghost use Rattle.at_base.specs.Reading.{Gives, bytes_at};
ghost use Rattle.pcapng.specs.Orders.{number_in, number_of};
ghost use Rattle.pcapng.specs.declared.fault.Fault.TheVariants.{Cut};

use crate::fault::Fault;

/// The order of the bytes of a section's numbers.
#[derive(Clone, Copy, Debug, PartialEq, Eq)]
pub enum Order {
    /// The highest byte first.
    Big,
    /// The lowest byte first.
    Little,
}

/// So many bytes, and those after them. Error: `Cut`.
pub(crate) fn run_of(bytes: &[u8], len: usize) -> Result<(&[u8], &[u8]), Fault>
    ensures gives { Gives (λ x. (x.0.now, x.1.now)) result (bytes_at Cut len bytes.now) }
    ensures len { IfOk result (λ x. length x.0.now ≡ len) }
{
    if bytes.len() < len {
        return Err(Fault::Cut);
    }
    Ok(bytes.split_at(len))
}

impl Order {
    fn two_in(self, front: &[u8]) -> u16
        requires { length front.now ≡ 2 }
        ensures { result ≡ number_in self w16 front.now }
    {
        let bytes = [front[0], front[1]];
        match self {
            Order::Big => u16::from_be_bytes(bytes),
            Order::Little => u16::from_le_bytes(bytes),
        }
    }

    /// The number that four bytes are.
    pub fn four_in(self, front: &[u8]) -> u32
        requires { length front.now ≡ 4 }
        ensures { result ≡ number_in self w32 front.now }
    {
        let bytes = [front[0], front[1], front[2], front[3]];
        match self {
            Order::Big => u32::from_be_bytes(bytes),
            Order::Little => u32::from_le_bytes(bytes),
        }
    }

    pub(crate) fn eight_in(self, front: &[u8]) -> u64
        requires { length front.now ≡ 8 }
        ensures { result ≡ number_in self w64 front.now }
    {
        let bytes = [
            front[0], front[1], front[2], front[3], front[4], front[5], front[6], front[7],
        ];
        match self {
            Order::Big => u64::from_be_bytes(bytes),
            Order::Little => u64::from_le_bytes(bytes),
        }
    }

    /// A number of two bytes, and the bytes after it. Error: `Cut`.
    pub(crate) fn two(self, bytes: &[u8]) -> Result<(u16, &[u8]), Fault>
        ensures { Gives (λ x. (x.0, x.1.now)) result (number_of self w16 bytes.now) }
    {
        let (front, rest) = run_of(bytes, 2)?;
        Ok((self.two_in(front), rest))
    }

    /// A number of four bytes, and the bytes after it. Error: `Cut`.
    pub(crate) fn four(self, bytes: &[u8]) -> Result<(u32, &[u8]), Fault>
        ensures { Gives (λ x. (x.0, x.1.now)) result (number_of self w32 bytes.now) }
    {
        let (front, rest) = run_of(bytes, 4)?;
        Ok((self.four_in(front), rest))
    }
}
