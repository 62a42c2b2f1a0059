//! The calls of a routing table, and their answers.

ghost use Rattle.std.specs.Prelude.{◌≡◌, nat_le};
ghost use Rattle.std.specs.List.{list_all};

use crate::random::Random;
use at_base::{Addr, Error, Range};
use rtmp::{Change, RouteTable, Row, State};
use std::alloc::Global;

/// A call of a routing table.
#[derive(Drop)]
pub(crate) enum Call {
    Load(Vec<Row>),
    Direct(Range, u8),
    Hear(Range, u8, Addr, u8),
    Age,
    Poison(Addr),
    Copy,
    RowFor(u16),
    RowAt(usize),
}

/// What a call answers.
#[derive(Clone, Copy, Debug, PartialEq, Eq)]
pub(crate) enum Answer {
    Done,
    Changed(Change),
    Found(Option<Row>),
}

/// One of 60 ranges that are apart, so that the same range comes again, or any range below 320 or
/// below 5,000, which overlaps some of them.
fn range(random: &mut Random) -> Result<Range, Error> {
    if random.below(4) > 0 {
        let number = random.word(60);
        let start = number.saturating_mul(5).saturating_add(1);
        return Range::new(start, start.saturating_add(number % 4));
    }
    let bound = if random.below(3) == 0 { 5_000 } else { 320 };
    let start = random.word(bound).saturating_add(1);
    Range::new(start, start.saturating_add(random.word(5)))
}

/// One of a few routers, or none.
fn router(random: &mut Random) -> Addr {
    match random.below(5) {
        0 => Addr::NONE,
        n => Addr {
            net: (n % 2) as u16,
            node: (n % 256) as u8,
        },
    }
}

fn state(random: &mut Random) -> State {
    match random.below(4) {
        0 => State::Good,
        1 => State::Suspect,
        2 => State::Bad,
        _ => State::Last,
    }
}

/// Rows whose ranges rise, but for one list in six.
fn rows(alloc: Global, random: &mut Random) -> Result<Vec<Row>, Error> {
    let mut rows = Vec::new(alloc);
    let mut start = 1u16;
    let many = if random.below(4) == 0 { 203 } else { 30 };
    let fault = if random.below(6) == 0 {
        random.below(30)
    } else {
        1_000
    };
    for index in 0..random.below(many) {
        let step = match index == fault {
            true => 0,
            false => random.word(4).saturating_add(1),
        };
        let end = start.saturating_add(step % 3);
        rows.push(Row {
            range: Range::new(start, end)?,
            distance: random.byte(32),
            port: random.byte(4),
            next: router(random),
            state: state(random),
        })?;
        start = end.saturating_add(step);
    }
    Ok(rows)
}

/// The next call.
pub(crate) fn next(alloc: Global, random: &mut Random) -> Result<Call, Error> {
    Ok(match random.below(40) {
        0 => Call::Load(rows(alloc, random)?),
        1 | 2 => Call::Direct(range(random)?, random.byte(4)),
        3 | 4 => Call::Age,
        5 | 6 | 7 => Call::Poison(router(random)),
        8 => Call::Copy,
        9 | 10 | 11 | 12 => Call::RowFor(random.word(310)),
        13 | 14 => Call::RowAt(random.below(210) as usize),
        _ => Call::Hear(
            range(random)?,
            random.byte(17),
            router(random),
            random.byte(2),
        ),
    })
}

fn are_near(rows: &[Row]) -> bool
    ensures { result ≡ list_all (λ r. nat_le r.distance 31) rows.now }
{
    rows.iter().all(|row| row.distance <= 31)
}

/// Loads rows, unless one is too far.
fn load<T: RouteTable>(table: &mut T, rows: &[Row]) -> Result<(), Error> {
    if !are_near(rows) {
        return Ok(());
    }
    table.load(rows)
}

/// Carries out a call.
pub(crate) fn act<T: RouteTable>(table: &mut T, call: &Call) -> Result<Answer, Error> {
    match call {
        Call::Load(rows) => load(table, rows.as_slice())?,
        Call::Direct(range, port) => table.direct(*range, *port)?,
        Call::Hear(range, distance, source, port) => {
            let change = table.hear(*range, *distance, *source, *port)?;
            return Ok(Answer::Changed(change));
        }
        Call::Age => table.age(),
        Call::Poison(next) => table.poison(*next),
        Call::Copy => *table = table.copy()?,
        Call::RowFor(net) => return Ok(Answer::Found(table.row_for(*net))),
        Call::RowAt(index) => return Ok(Answer::Found(table.row(*index))),
    }
    Ok(Answer::Done)
}
