// The rows of an input.
ghost use Rattle.std.specs.Prelude.{◌≡◌, ◌*◌, ◌≤◌, MatchResult, Ok};
ghost use Rattle.listing.specs.Cutting.{pieces, unread};
ghost use Rattle.listing.specs.Fields.{row_of};
ghost use Rattle.listing.specs.Lines.{LineTold, row_of_line, rows_of};
ghost use Rattle.listing.specs.Rows.{RowPut, kept};

use crate::header::Header;
use crate::line::Line;
use crate::pieces::Pieces;
use crate::readings::Readings;
use crate::unread::Unread;
use std::alloc::Global;

// The first row has this number among the lines.
const FIRST: u32 = 2;

// The readings of all rows, which are all that is left of the lines. Want of memory is told only once all rows are in form.
pub(crate) fn read_rows(
    heap: Global,
    mut lines: Pieces<'_>,
    header: Header,
) -> Result<Vec<u16>, Unread>
    requires mark { lines.mark ≡ 10 }
    requires ny { header.ny ≤ 256 }
    requires nz { header.nz ≤ 256 }
    ensures { MatchResult result (λ readings. rows_of (header.ny * header.nz) header.nx 2 (unread lines.entry) ≡ Ok readings.items) (LineTold (rows_of (header.ny * header.nz) header.nx 2 (unread lines.entry))) }
{
    let mut readings = Readings::new(heap);
    let rows = header.ny * header.nz;
    for row in 0..rows {
        let number = row + FIRST;
        let Some(line) = lines.ended() else {
            return Err(Unread::Line(number));
        };
        let Some(()) = push_row(&mut readings, line, header.nx) else {
            return Err(Unread::Line(number));
        };
    }
    if !lines.rest().is_empty() {
        return Err(Unread::Line(rows + FIRST));
    }
    match readings.into_list() {
        Some(list) => Ok(list),
        None => Err(Unread::Memory),
    }
}

// Puts the readings of a line at the end; none where it is no row of just nx.
#[tactic(auto, unfolding(crate::specs::Lines::row_of_line))]
fn push_row(readings: &mut Readings, line: &[u8], nx: u32) -> Option<()>
    ensures { RowPut (row_of_line nx line.now) result (kept readings.old) (kept readings.new) }
{
    match Line::of(line)? {
        Line::Row { rest, .. } => push_fields(readings, rest, nx),
        Line::Header { .. } => None,
    }
}

// Puts the readings of just nx fields at the end; none where they are no such fields.
fn push_fields(readings: &mut Readings, rest: &[u8], nx: u32) -> Option<()>
    ensures { RowPut (row_of nx (pieces 44 rest.now)) result (kept readings.old) (kept readings.new) }
{
    let mut fields = Pieces::new(rest, b',');
    for _ in 0..nx {
        readings.push(fields.number()?);
    }
    match fields.next() {
        None => Some(()),
        Some(_) => None,
    }
}
