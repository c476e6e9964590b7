// The lowest room: row, procedure and line numbers kept apart, the ceilings by size, the numbered refusals, and definitions of general use.
#![tactic(auto)]

ghost use Rattle.std.specs.Prelude.{◌≡◌, min, position};
ghost use Rattle.std.specs.Ordering.{partial_gt};
ghost use Rattle.numbers.specs.Refusals.{refusal_number, refusal_place};

// The number of a row. It is no procedure number and no label.
#[derive(Clone, Copy)]
pub struct RowNumber(pub u16);

impl RowNumber {
    // A table has at most this many rows.
    pub const CEILING: usize = 1024;
}

// The number of a procedure. Procedure 0 is main.
#[derive(Clone, Copy)]
pub struct ProcNumber(pub u16);

impl ProcNumber {
    // A table has at most this many procedures.
    pub const CEILING: usize = 64;
}

// The number of a sheet's line, counted from 0.
#[derive(Clone, Copy)]
pub struct LineNumber(pub u32);

// The number of bytes of a sheet.
#[derive(Clone, Copy)]
pub struct SheetSize(pub usize);

impl SheetSize {
    // A sheet has at most this many bytes.
    pub const CEILING: usize = 65536;
}

// A matrix of label pairs has this many words.
pub const MATRIX_WORDS: usize = 64;

// Every reply that refuses, with the place that it names.
#[derive(Clone, Copy)]
pub enum Refusal {
    // No rows or procedures where there must be some, too many of them, or slices that differ in length.
    Sizes,
    // The lent matrix has too few words.
    ShortMatrix,
    // The row's kind is none of the seven.
    UnknownKind(RowNumber),
    // An operand of the row breaks the rule of its kind.
    WrongOperand(RowNumber),
    // The procedure's root is not a row.
    NoSuchRow(ProcNumber),
    // The row is used more than once.
    UsedAgain(RowNumber),
    // The row is used by nobody.
    Unused(RowNumber),
    // The sheet has too many bytes.
    LongSheet,
    // The line breaks the sheet's form.
    WrongForm(LineNumber),
    // The line is one row or procedure more than there is room for.
    NoRoom(LineNumber),
    // The lent bytes are too few for what is to stand there.
    ShortBytes,
    // An operand of the row is above what a field of a sheet can hold.
    LongOperand(RowNumber),
    // The procedure's root is above it.
    LongRoot(ProcNumber),
}

impl Refusal {
    // The number under which the reply is published.
    pub fn number(self) -> u32
        ensures { result ≡ refusal_number self }
    {
        match self {
            Refusal::Sizes => 1,
            Refusal::ShortMatrix => 2,
            Refusal::UnknownKind(_) => 3,
            Refusal::WrongOperand(_) => 4,
            Refusal::NoSuchRow(_) => 5,
            Refusal::UsedAgain(_) => 6,
            Refusal::Unused(_) => 7,
            Refusal::LongSheet => 11,
            Refusal::WrongForm(_) => 12,
            Refusal::NoRoom(_) => 13,
            Refusal::ShortBytes => 14,
            Refusal::LongOperand(_) => 15,
            Refusal::LongRoot(_) => 15,
        }
    }

    // The place that the reply names, and 0 where it names none: C is told a number, so it is no Option.
    pub fn place(self) -> u32
        ensures { result ≡ refusal_place self }
    {
        match self {
            Refusal::UnknownKind(row) => row.0 as u32,
            Refusal::WrongOperand(row) => row.0 as u32,
            Refusal::NoSuchRow(proc) => proc.0 as u32,
            Refusal::UsedAgain(row) => row.0 as u32,
            Refusal::Unused(row) => row.0 as u32,
            Refusal::WrongForm(line) => line.0,
            Refusal::NoRoom(line) => line.0,
            Refusal::LongOperand(row) => row.0 as u32,
            Refusal::LongRoot(proc) => proc.0 as u32,
            Refusal::Sizes => 0,
            Refusal::ShortMatrix => 0,
            Refusal::LongSheet => 0,
            Refusal::ShortBytes => 0,
        }
    }
}

// The smaller of two numbers.
pub fn least(a: usize, b: usize) -> usize
    ensures { result ≡ min a b }
{
    a.min(b)
}

// The lowest place of a number above this one, where there is one.
pub fn first_above<T: Copy + PartialOrd>(numbers: &[T], most: T) -> Option<usize>
    ensures { result ≡ position (λ x. partial_gt T.partial_cmp x most) numbers.now }
{
    numbers.iter().position(|x| *x > most)
}
