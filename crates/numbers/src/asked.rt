// The sizes asked of the rooms, from the lists as given: s monomials in the cells xs and, behind them, t in ys. All listed count, repeated and
// divided ones too.
ghost use Rattle.std.specs.Prelude.{◌≡◌, max, false, []};
ghost use Rattle.laws.specs.Room.{cells_asked, coefficients_asked};
ghost use Rattle.numbers.specs.RoomsParts.{rooms_answer};
ghost use Rattle.numbers.specs.BothLists.{all};

use crate::extent::TwoLists;
use monomials::refusal::{MAX_COUNT, MAX_WIDTH, Refusal};

// The exponent cells asked, and the coefficients asked of either room.
#[derive(Clone, Copy)]
pub(crate) struct Sizes {
    pub(crate) cells: usize,
    pub(crate) coefficients: usize,
}

// The sizes asked, of coefficients at least `least`.
fn asked(lists: &TwoLists, least: usize) -> Sizes
    ensures { (result.cells ≡ cells_asked lists.now.n (all lists.now)) × (result.coefficients ≡ max (coefficients_asked (all lists.now)) least) }
{
    let extent = lists.extent();
    let m = lists.s + lists.t;
    Sizes {
        cells: m * lists.n * (m + extent.pairs),
        coefficients: least.max(extent.degree + 1),
    }
}

// The checks of a call on the two lists: `large` says that a given coefficient is too large, and the last three are the lengths of the rooms.
// Not of `TwoLists`, which says what these checks find out.
pub(crate) fn checked(
    n: usize,
    s: usize,
    xs: &[u16],
    t: usize,
    ys: &[u16],
    large: bool,
    least: usize,
    room: usize,
    first: usize,
    second: usize,
) -> Result<Sizes, Refusal>
    ensures { result ≡ rooms_answer n s xs.now t ys.now large least room first second }
{
    if MAX_WIDTH < n {
        return Err(Refusal::Width);
    }
    if MAX_COUNT < s {
        return Err(Refusal::Count);
    }
    if MAX_COUNT - s < t {
        return Err(Refusal::Count);
    }
    if xs.len() != s * n {
        return Err(Refusal::Cells);
    }
    if ys.len() != t * n {
        return Err(Refusal::Cells);
    }
    if large {
        return Err(Refusal::Coefficient);
    }
    let a = asked(&TwoLists { n, s, xs, t, ys }, least);
    if room < a.cells {
        return Err(Refusal::CellRoom);
    }
    if first < a.coefficients {
        return Err(Refusal::CoefficientRoom);
    }
    if second < a.coefficients {
        return Err(Refusal::CoefficientRoom);
    }
    Ok(a)
}

// The checks of a call on one list. Not of `CheckedList`, which says that the list has passed them.
pub(crate) fn checked_list(
    n: usize,
    s: usize,
    cells: &[u16],
    room: usize,
    first: usize,
    second: usize,
) -> Result<Sizes, Refusal>
    ensures { result ≡ rooms_answer n s cells.now 0 [] false 0 room first second }
{
    checked(n, s, cells, 0, &cells[0..0], false, 0, room, first, second)
}
