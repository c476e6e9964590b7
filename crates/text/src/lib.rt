// Texts as bytes: the fields of a line, read at a place of some bytes and put at a place of lent bytes.
// Bytes and place go side by side, as the contracts of the public functions have them; above, a sink's `Front` carries both.
#![tactic(auto)]

ghost use Rattle.std.specs.Prelude.{◌≡◌, ◌∷◌, [], ◌++◌, ◌+◌, ◌*◌, ◌^◌, ◌≤◌, ◌<◌, length, drop};
ghost use Rattle.text.specs.Bytes.{digit};
ghost use Rattle.text.specs.Numbers.{spelled};
ghost use Rattle.text.specs.Fields.{text_at, digits_at, digits_after, number_at};
ghost use Rattle.text.specs.Inner.{token_at, Put, field_of, Ahead};

pub use sink::{Count, Front, Sink};

mod sink;

// Reads a fixed text at a place of the bytes: the number n and the place behind the text, where it stands there.
pub fn text_at(bytes: &[u8], at: usize, text: &[u8], n: u16) -> Option<(u16, usize)>
    ensures { result ≡ token_at (text_at text.now n) bytes.now at }
{
    let here = bytes.get(at..).unwrap_or(&[]);
    if here.starts_with(text) {
        Some((n, at + text.len()))
    } else {
        None
    }
}

// The number that begins with the digits of another and goes on with these bytes, by at most so many digits, up to a byte, and how many bytes that takes.
fn digits_at(bytes: &[u8], stop: u8, most: u8, first: u16) -> Option<(u16, usize)>
    requires { (first + 1) * 10 ^ most ≤ 10000 }
    ensures field { field_of bytes.now result ≡ digits_at stop most first bytes.now }
    ensures within { Ahead bytes.now 0 result }
{
    let mut n = first;
    for (i, b) in bytes.iter().enumerate() {
        if *b == stop {
            return Some((n, i + 1));
        }
        if i == most as usize || !b.is_ascii_digit() {
            return None;
        }
        n = 10 * n + u16::from(*b - b'0');
    }
    None
}

// How many digits may follow a number's first.
fn digits_after(b: u8) -> u8
    ensures { result ≡ digits_after b }
{
    if b == b'0' { 0 } else { 3 }
}

// Reads a number at a place of the bytes, up to the byte that ends its field: the number and the place behind that byte.
pub fn number_at(bytes: &[u8], at: usize, stop: u8) -> Option<(u16, usize)>
    ensures { result ≡ token_at (number_at stop) bytes.now at }
{
    let (b, rest) = bytes.get(at..)?.split_first()?;
    if !b.is_ascii_digit() {
        return None;
    }
    let (n, taken) = digits_at(rest, stop, digits_after(*b), u16::from(*b - b'0'))?;
    Some((n, at + 1 + taken))
}

// How many digits a number is spelled with.
pub fn digits(n: usize) -> usize
    ensures spelt { result ≡ length (spelled n) }
    ensures few { result ≤ 20 }
{
    if n < 10 { 1 } else { digits(n / 10) + 1 }
}

// Puts a byte at a place of the lent bytes, and hands back the next place.
pub fn put_byte(bytes: &mut [u8], at: usize, byte: u8) -> usize
    ensures { Put bytes.old at (byte ∷ []) bytes.new result }
{
    if bytes.len() <= at {
        return at;
    }
    bytes[at] = byte;
    at + 1
}

// Puts a digit from 0 to 9.
fn put_digit(bytes: &mut [u8], at: usize, d: usize) -> usize
    requires { d < 10 }
    ensures { Put bytes.old at (digit d ∷ []) bytes.new result }
{
    put_byte(bytes, at, b'0' + d as u8)
}

// Puts a number's digits, the highest first.
fn put_digits(bytes: &mut [u8], at: usize, n: usize) -> usize
    ensures { Put bytes.old at (spelled n) bytes.new result }
{
    if n < 10 {
        put_digit(bytes, at, n)
    } else {
        let next = put_digits(bytes, at, n / 10);
        put_digit(bytes, next, n % 10)
    }
}

// Puts the digits of a number below a hundred.
fn put_pair(bytes: &mut [u8], at: usize, n: usize) -> usize
    requires { n < 100 }
    ensures { Put bytes.old at (spelled n) bytes.new result }
{
    if n < 10 {
        return put_digit(bytes, at, n);
    }
    let second = put_digit(bytes, at, n / 10);
    put_digit(bytes, second, n % 10)
}

// Puts a number's digits. Up to three are put straight: most numbers of a sheet have no more, and the recursion costs a call for each.
fn put_short(bytes: &mut [u8], at: usize, n: usize) -> usize
    ensures { Put bytes.old at (spelled n) bytes.new result }
{
    if n < 100 {
        return put_pair(bytes, at, n);
    }
    if n < 1000 {
        let third = put_pair(bytes, at, n / 10);
        return put_digit(bytes, third, n % 10);
    }
    put_digits(bytes, at, n)
}

// Puts a number and the byte that ends its field, and hands back the next place. A `Display` would need a writer over the lent bytes with this contract.
pub fn put_number(bytes: &mut [u8], at: usize, n: usize, end: u8) -> usize
    ensures { Put bytes.old at (spelled n ++ (end ∷ [])) bytes.new result }
{
    let next = put_short(bytes, at, n);
    put_byte(bytes, next, end)
}

// Puts bytes, one by one.
fn put_bytes(bytes: &mut [u8], at: usize, text: &[u8]) -> usize
    ensures { Put bytes.old at text.now bytes.new result }
{
    let mut next = at;
    for b in text {
        next = put_byte(bytes, next, *b);
    }
    next
}

// Puts a text and the byte that ends its field, and hands back the next place.
pub fn put_text(bytes: &mut [u8], at: usize, text: &[u8], end: u8) -> usize
    ensures { Put bytes.old at (text.now ++ (end ∷ [])) bytes.new result }
{
    let next = put_bytes(bytes, at, text);
    put_byte(bytes, next, end)
}
