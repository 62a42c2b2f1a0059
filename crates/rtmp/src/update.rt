//! Updates of all rows of a table. None of them changes a range.

ghost use Rattle.std.specs.Prelude.{◌≡◌, map};
ghost use Rattle.rtmp.specs.Routes as spec;
ghost use Rattle.rtmp.specs.Routes.{aged_row};
ghost use Rattle.rtmp.specs.Updates.{updated};

use crate::row::Row;
use crate::state::State;
use at_base::Addr;

/// An update of each row of a table.
#[derive(Clone, Copy, Debug)]
pub(crate) enum Update {
    /// The row ages.
    Age,
    /// The row becomes bad if it goes through this router.
    Poison(Addr),
}

/// The next state.
fn older(state: State) -> State
    ensures { result ≡ spec.older state }
{
    match state {
        State::Good => State::Suspect,
        State::Suspect => State::Bad,
        State::Bad | State::Last => State::Last,
    }
}

/// Whether the row is removed by the next aging.
pub(crate) fn is_over(row: &Row) -> bool
    ensures { result ≡ spec.is_over row.now }
{
    !row.is_direct() && matches!(row.state, State::Last)
}

/// The row with the next state; a direct row is unchanged.
fn aged(row: &Row) -> Row
    ensures { result ≡ aged_row row.now }
{
    let mut row = *row;
    if !row.is_direct() {
        row.state = older(row.state);
    }
    row
}

/// The row after the update.
pub(crate) fn updated_row(update: &Update, row: &Row) -> Row
    ensures { result ≡ updated update.now row.now }
{
    let mut after = *row;
    match update {
        Update::Age => after = aged(row),
        Update::Poison(next) => {
            if !row.is_direct() && row.next == *next {
                after.state = State::Bad;
            }
        }
    }
    after
}

fn update_slice(rows: &mut [Row], update: &Update)
    ensures { rows.new ≡ map (updated update.now) rows.old }
{
    for row in rows.iter_mut() {
        *row = updated_row(update, row);
    }
}

/// Updates each row.
pub(crate) fn update_all(rows: &mut Vec<Row>, update: &Update)
    ensures { rows.new.items ≡ map (updated update.now) rows.old.items }
{
    update_slice(rows.as_mut_slice(), update);
}
