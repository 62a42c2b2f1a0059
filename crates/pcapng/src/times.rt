//! The times of blocks.

ghost use Rattle.std.specs.Prelude.{◌≡◌, ◌+◌, ◌-◌, ◌*◌, ◌/◌, ◌^◌, ◌<◌, ◌≤◌, min};
ghost use Rattle.pcapng.specs.Times as spec;

/// So many units of ten to the power of minus `power` seconds, in microseconds.
fn decimal_micros(units: u64, power: u8) -> u128
    ensures value { result ≡ spec.decimal_micros units power }
    ensures few { result < 2 ^ 84 }
{
    if power <= 6 {
        return u128::from(units) * u128::from(10_u64.pow(6 - u32::from(power)));
    }
    let more = u32::from(power) - 6;
    if more > 19 {
        return 0;
    }
    u128::from(units / 10_u64.pow(more))
}

/// So many units of two to the power of minus `power` seconds, in microseconds.
fn binary_micros(units: u64, power: u8) -> u128
    requires { power < 128 }
    ensures value { result ≡ spec.binary_micros units power }
    ensures few { result < 2 ^ 84 }
{
    u128::from(units) * 1_000_000 / (1_u128 << power)
}

/// So many units of an interface's resolution, in microseconds.
fn micros(units: u64, resolution: u8) -> u128
    ensures value { result ≡ spec.micros units resolution }
    ensures few { result < 2 ^ 84 }
{
    if resolution < 128 {
        decimal_micros(units, resolution)
    } else {
        binary_micros(units, resolution - 128)
    }
}

/// The time with an offset in seconds, which has 64 bits and may be below zero.
fn after(time: u128, offset: u64) -> u64
    requires { time < 2 ^ 84 }
    ensures { result ≡ spec.after time offset }
{
    let seconds = u128::from(offset);
    if offset < 1 << 63 {
        return u64::try_from(time + seconds * 1_000_000).unwrap_or(u64::MAX);
    }
    let back = ((1 << 64) - seconds) * 1_000_000;
    if time < back {
        return 0;
    }
    u64::try_from(time - back).unwrap_or(u64::MAX)
}

/// The time of so many units of an interface's resolution, with its offset in seconds, which has 64
/// bits and may be below zero.
pub(crate) fn time_of(units: u64, resolution: u8, offset: u64) -> u64
    ensures { result ≡ spec.time_of units resolution offset }
{
    after(micros(units, resolution), offset)
}
