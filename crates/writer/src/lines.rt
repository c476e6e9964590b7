// The lines of a sheet, told to a sink.
ghost use Rattle.std.specs.Prelude.{◌≡◌, ◌*◌, ◌≤◌, ◌<◌, length};
ghost use mathlib.Core.List.{◌∷◌, [], ◌++◌, flat_map};
ghost use Rattle.numbers.specs.Sizes.{ours, row_ceiling};
ghost use Rattle.text.specs.Bytes.{tab};
ghost use Rattle.recipe.specs.Tables.{rows, lists_of};
ghost use Rattle.sheet.specs.Form.{keyword, spelled_row, spelled_root};
ghost use Rattle.writer.specs.Sheets.{row_at, sheet_of};
ghost use Rattle.writer.specs.Inner.{row_lines, IsWritable};

use numbers::RowNumber;
use recipe::{Kind, Row, Table};
use text::{Count, Front, Sink};

// Tells a kind's keyword and the tab behind it. Each arm tells its own: a keyword that was found first is put by a loop, which takes up to
// a fifth more time for a whole sheet.
fn keyword<S: Sink>(out: &mut S, kind: u8)
    ensures { S.takes out.old (keyword kind ++ (tab ∷ [])) out.new }
{
    match Kind::try_from(kind) {
        Ok(Kind::Skip) => out.text(b"skip", b'\t'),
        Ok(Kind::Step) => out.text(b"step", b'\t'),
        Ok(Kind::Seq) => out.text(b"seq", b'\t'),
        Ok(Kind::Loop) => out.text(b"loop", b'\t'),
        Ok(Kind::Async) => out.text(b"async", b'\t'),
        Ok(Kind::Finish) => out.text(b"finish", b'\t'),
        Ok(Kind::Call) => out.text(b"call", b'\t'),
        Err(_) => out.text(b"", b'\t'),
    }
}

// A sink that takes keywords too, each kind of sink in the way that costs it least.
pub(crate) trait RowSink: Sink {
    // Takes a kind's keyword, and the tab behind it.
    fn keyword(&mut self, kind: u8)
        ensures { Self.takes self.old (keyword kind ++ (tab ∷ [])) self.new };
}

impl RowSink for Count {
    // Counted alone, which makes it a look-up: a jump by the kind is guessed wrong where the kinds have no order.
    fn keyword(&mut self, kind: u8) {
        let mut alone = Count(0);
        keyword(&mut alone, kind);
        self.0 = self.0.wrapping_add(alone.0);
    }
}

impl RowSink for Front<'_> {
    fn keyword(&mut self, kind: u8) {
        keyword(self, kind);
    }
}

// Tells a row's line.
fn row_line<S: RowSink>(out: &mut S, row: Row)
    ensures { S.takes out.old (spelled_row row) out.new }
{
    out.text(b"R", b'\t');
    out.keyword(row.kind);
    out.number(usize::from(row.x), b'\t');
    out.number(usize::from(row.y), b'\n');
}

// Tells a procedure's line.
fn root_line<S: Sink>(out: &mut S, root: RowNumber)
    ensures { S.takes out.old (spelled_root root.0) out.new }
{
    out.text(b"P", b'\t');
    out.number(usize::from(root.0), b'\n');
}

// A table that the writer's judge admits.
#[derive(Clone, Copy)]
pub(crate) struct Writable<'a> {
    pub(crate) table: Table<'a>,
    ghost admitted: { IsWritable ours (lists_of table) },
}

impl Writable<'_> {
    // The row with this number.
    fn row(&self, i: usize) -> Row
        requires { i < rows (lists_of self.now.table) }
        ensures { result ≡ row_at (lists_of self.now.table) i }
    {
        Row {
            kind: self.table.kinds[i],
            x: self.table.xs[i],
            y: self.table.ys[i],
        }
    }

    // Tells the lines of all rows. By number, since a zip of the three columns would say once more what `row` says.
    fn rows<S: RowSink>(&self, out: &mut S)
        ensures { S.takes out.old (row_lines (lists_of self.now.table)) out.new }
    {
        for i in 0..self.table.kinds.len() {
            row_line(out, self.row(i));
        }
    }

    // Tells the lines of all procedures.
    fn roots<S: Sink>(&self, out: &mut S)
        ensures { S.takes out.old (flat_map spelled_root (lists_of self.now.table).roots) out.new }
    {
        for &root in self.table.roots {
            root_line(out, RowNumber(root));
        }
    }

    // Tells the table's sheet.
    pub(crate) fn tell<S: RowSink>(&self, out: &mut S)
        ensures { S.takes out.old (sheet_of (lists_of self.now.table)) out.new }
    {
        self.rows(out);
        self.roots(out);
    }
}
