// The program: a sheet from standard input and its answer on standard output, or the sheets of all files named, each answer under its name.
#![tactic(auto)]

ghost use Rattle.std.specs.Prelude.{◌≡◌, ◌-◌, ◌≤◌, IfSome, length, take};
ghost use Rattle.numbers.specs.Sizes.{ours};
ghost use Rattle.listing.specs.Listing.{longest_listing};
ghost use Rattle.answer.specs.Answer.{answer_to};
ghost use Rattle.io.specs.Counts.{IsPrefixLen};

use numbers::SheetSize;
use std::env::{Env, FillError};
use std::fs::File;
use std::io::Read;

// Room for the longest sheet, and for one byte more, by which a longer one is known.
const SHEET_ROOM: usize = SheetSize::CEILING + 1;

// One more piece of a file, behind what is there already. A read that fails is no end of the file.
fn more<R: Read>(file: &mut R, buffer: &mut [u8], done: usize) -> Option<usize>
    requires { done ≤ length buffer.old }
    ensures { IfSome result (λ n. n ≤ length buffer.old - done) }
{
    file.read(&mut buffer[done..]).ok()
}

// Reads until the file ends or the buffer is full, and hands back how many bytes there are; none where a read fails. The buffer is of fixed
// size, since there is no heap, so the number of bytes stands beside it; a turn goes on by as many as it read, so no range fits.
fn take_in<R: Read>(file: &mut R, buffer: &mut [u8]) -> Option<usize>
    ensures { IfSome result (λ n. n ≤ length buffer.old) }
{
    let mut done = 0;
    while done < buffer.len() {
        let n = more(file, buffer, done)?;
        if n == 0 {
            break;
        }
        done += n;
    }
    Some(done)
}

// Reads the file of a name, and closes it before anything is written.
fn take_file(rt: &HostRuntime, name: &[u8], buffer: &mut [u8]) -> Option<usize>
    ensures { IfSome result (λ n. n ≤ length buffer.old) }
{
    let path = str::from_utf8(name).ok()?;
    let mut file = File::open(rt, path).ok()?;
    take_in(&mut file, buffer)
}

// Tells on standard error what failed, and of which file.
fn tell(rt: &HostRuntime, what: &[u8], which: &[u8]) {
    let errors = rt.stderr();
    let _ = errors.write_all(b"report: ");
    let _ = errors.write_all(what);
    let _ = errors.write_all(which);
    let _ = errors.write_all(b"\n");
}

// Writes to standard output, and says whether it could; a failure is told.
fn put(rt: &HostRuntime, bytes: &[u8]) -> bool {
    let written = rt.stdout().write_all(bytes).is_ok();
    if !written {
        tell(rt, b"cannot write to ", b"standard output");
    }
    written
}

// The answer to a sheet, at the front of the bytes, and its length. So much room is never too little.
fn answered(sheet: &[u8], bytes: &mut [u8]) -> usize
    requires { longest_listing ≤ length bytes.old }
    ensures { (take result bytes.new ≡ answer_to ours sheet.now) × IsPrefixLen result bytes.new }
{
    answer::answer(sheet, bytes).unwrap_or(0)
}

// Prints the answer to a sheet, and says whether it could.
fn report(rt: &HostRuntime, sheet: &[u8]) -> bool {
    let mut bytes = [0; listing::LONGEST];
    let n = answered(sheet, &mut bytes);
    put(rt, &bytes[..n])
}

// Prints a name on a line of its own and below it the answer to its sheet, and says whether it could.
fn report_named(rt: &HostRuntime, name: &[u8], sheet: &[u8]) -> bool {
    put(rt, name) && put(rt, b"\n") && report(rt, sheet)
}

// Answers the sheet on standard input.
fn answer_input(rt: &HostRuntime) {
    let mut sheet = [0; SHEET_ROOM];
    match take_in(&mut rt.stdin(), &mut sheet) {
        None => tell(rt, b"cannot read ", b"standard input"),
        Some(n) => {
            report(rt, &sheet[..n]);
        }
    }
}

// Answers the sheet in the file of a name, and says whether to go on: a file that cannot be read is told and keeps no other from its answer.
fn answer_file(rt: &HostRuntime, name: &[u8]) -> bool {
    let mut sheet = [0; SHEET_ROOM];
    match take_file(rt, name, &mut sheet) {
        None => {
            tell(rt, b"cannot read ", name);
            true
        }
        Some(n) => report_named(rt, name, &sheet[..n]),
    }
}

// The name that an argument gives, at the front of the bytes, and its length. One that does not fit fills them: too long for a path, it opens nothing.
// One that is not there is empty and opens nothing, so that it is told as any other; an Option would only be made empty again.
fn name_of(rt: &HostRuntime, argument: usize, bytes: &mut [u8]) -> usize
    ensures { IsPrefixLen result bytes.new }
{
    match rt.arg(argument, bytes) {
        Ok(n) => n,
        Err(FillError::TooLong) => bytes.len(),
        Err(FillError::NotPresent) => 0,
    }
}

// Answers the sheet in the file that an argument names, and says whether to go on.
fn answer_argument(rt: &HostRuntime, argument: usize) -> bool {
    let mut bytes = io::buffer();
    let n = name_of(rt, argument, &mut bytes);
    answer_file(rt, &bytes[..n])
}

// Answers the sheets in the files that the arguments name, in their order; argument 0 is the program's own name. It is a `while`, whose
// measure refuses a program that stays at one name; a `for` has none.
fn answer_arguments(rt: &HostRuntime, count: usize) {
    let mut argument = 1;
    while argument < count {
        if !answer_argument(rt, argument) {
            return;
        }
        argument += 1;
    }
}

// How many arguments there are, argument 0 among them.
fn argument_count(rt: &HostRuntime) -> usize {
    for argument in 0..usize::MAX {
        match rt.arg(argument, &mut []) {
            Err(FillError::NotPresent) => return argument,
            Err(FillError::TooLong) | Ok(_) => {}
        }
    }
    usize::MAX
}

fn main(rt: HostRuntime) {
    let count = argument_count(&rt);
    if count > 1 {
        answer_arguments(&rt, count);
    } else {
        answer_input(&rt);
    }
}
