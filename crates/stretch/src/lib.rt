// A stretch of a lent owner table: the cells under one prefix of axis coordinates.
// A stretch is pinned by its place too: the block and the byte at which the part begins, against those of the lent table. Equal entries
// elsewhere would not do: the caller asked for these cells of its own table, not for their values.
#![tactic(auto)]

ghost use Rattle.std.specs.Prelude.{◌≡◌, length};
ghost use Rattle.stretch_judged.specs.Stretch.{stretch_answer, stretch_of, StretchBegins};

use answers::{Cell, Refusal};
use rules::Position;
use stretch_judged::Stretch;

// Where a stretch of the table lies: the cells under the coordinates of all axes up to and with the
// asked one. No coordinate past it is looked at.
pub fn locate_stretch(
    table: &[u32],
    lengths: [u64; 8],
    axis: u64,
    coordinates: [u64; 8],
) -> Result<Stretch, Refusal>
    ensures { result ≡ stretch_answer lengths axis coordinates (length table.now) }
{
    if axis > card::LAST_AXIS {
        return Err(Refusal::Axis);
    }
    if !admission::space_fits(lengths) {
        return Err(Refusal::Space);
    }
    let number = match copies::locate(&lengths, &coordinates, axis + 1) {
        Position::At(number) => number,
        Position::Past(outside) => {
            return Err(Refusal::CellOutside { axis: outside });
        }
    };
    let cells = card_products::product(lengths, 8);
    if (table.len() as u64) < cells {
        return Err(Refusal::TooShort { needed: cells });
    }
    // each prefix has equally many cells under it
    let length = cells / card_products::product(lengths, axis + 1);
    Ok(Stretch {
        first: Cell(number * length),
        length,
    })
}

// The stretch of the table itself, not a copy: it begins at its first cell, four bytes a cell into the
// table. Refused, it is empty, at the table's start.
pub fn stretch(table: &[u32], lengths: [u64; 8], axis: u64, coordinates: [u64; 8]) -> &[u32]
    ensures result_value { result.now ≡ stretch_of (stretch_answer lengths axis coordinates (length table.now)) table.now }
    ensures stretch_begins { StretchBegins (stretch_answer lengths axis coordinates (length table.now)) table.entry.ref_ptr result.ref_ptr }
{
    let located = locate_stretch(table, lengths, axis, coordinates);
    match located {
        Ok(found) => {
            let start = found.first.0 as usize;
            let end = start + found.length as usize;
            &table[start..end]
        }
        Err(_) => &table[0..0],
    }
}
