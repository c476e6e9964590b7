// Lines of a sheet, and what is done with each.
ghost use Rattle.std.specs.Prelude.{◌≡◌, ◌+◌, ◌≤◌, drop};
ghost use Rattle.numbers.specs.Sizes.{ours, row_ceiling};
ghost use Rattle.text.specs.Fields.{text_at};
ghost use Rattle.sheet.specs.Lines.{row_mark, root_mark, row_line_at, root_line_at, line_at, by_mark};
ghost use Rattle.sheet.specs.Reading.{step_of};
ghost use Rattle.sheet.specs.Inner.{line_of, step_for};

use crate::keywords::keyword_at;
use numbers::{LineNumber, Refusal};
use recipe::Row;
use table::Room;

// What a line holds: a row, or a procedure's root.
#[derive(Clone, Copy)]
pub enum Line {
    Row(Row),
    Root(u16),
}

// The row line at this place, after its mark, and the place after it.
#[tactic(auto, using(crate::proofs::LineLaws::by_fields, crate::proofs::KeywordLaws::kind_small), unfolding(crate::specs::Lines::row_line_at))]
fn row_at(bytes: &[u8], at: usize) -> Option<(Line, usize)>
    ensures { line_of bytes.now result ≡ row_line_at (drop at bytes.now) }
{
    let (kind, after_kind) = keyword_at(bytes, at)?;
    let (x, after_x) = text::number_at(bytes, after_kind, b'\t')?;
    let (y, next) = text::number_at(bytes, after_x, b'\n')?;
    let row = Row {
        kind: kind as u8,
        x,
        y,
    };
    Some((Line::Row(row), next))
}

// The procedure line at this place, after its mark, and the place after it.
#[tactic(auto, using(crate::proofs::LineLaws::by_fields), unfolding(crate::specs::Lines::root_line_at))]
fn root_at(bytes: &[u8], at: usize) -> Option<(Line, usize)>
    ensures { line_of bytes.now result ≡ root_line_at (drop at bytes.now) }
{
    let (root, next) = text::number_at(bytes, at, b'\n')?;
    Some((Line::Root(root), next))
}

// The line at this place, by its mark, and the place after it. A mark has no number: what `text_at` asks for is not used.
#[tactic(auto, using(crate::proofs::LineLaws::by_fields))]
fn line_at(bytes: &[u8], at: usize) -> Option<(Line, usize)>
    ensures { let s = drop at bytes.now in
        line_of bytes.now result ≡ by_mark (text_at row_mark 0 s) (text_at root_mark 0 s) }
{
    if let Some((_, next)) = text::text_at(bytes, at, b"R\t", 0) {
        return row_at(bytes, next);
    }
    let (_, next) = text::text_at(bytes, at, b"P\t", 0)?;
    root_at(bytes, next)
}

// The line at this place, and the place after it, where so much is kept already: a row or a root to keep, or none where the sheet ends.
// Each line before it is kept, so what is kept makes its number.
#[tactic(auto, using(crate::proofs::LineLaws::by_line), unfolding(crate::specs::Reading::step_of))]
pub(crate) fn step_at(
    bytes: &[u8],
    at: usize,
    kept: Room,
    room: Room,
) -> Result<Option<(Line, usize)>, Refusal>
    requires { kept.rows + kept.roots ≤ row_ceiling + ours.procs }
    ensures { step_for bytes.now result
        ≡ step_of room.rows room.roots kept.rows kept.roots (line_at (drop at bytes.now)) }
{
    if bytes.len() <= at {
        return Ok(None);
    }
    let place = LineNumber((kept.rows + kept.roots) as u32);
    let Some((line, next)) = line_at(bytes, at) else {
        return Err(Refusal::WrongForm(place));
    };
    match line {
        Line::Row(_) => {
            if 0 < kept.roots {
                return Err(Refusal::WrongForm(place));
            }
            if room.rows <= kept.rows {
                return Err(Refusal::NoRoom(place));
            }
        }
        Line::Root(_) => {
            if room.roots <= kept.roots {
                return Err(Refusal::NoRoom(place));
            }
        }
    }
    Ok(Some((line, next)))
}
