// Bytes made printable, and counts.

ghost use Rattle.std.specs.Prelude.{◌≡◌, ◌<◌, false, Some};
ghost use Rattle.std.specs.Fmt.{WritesOnOk, digit_glyph};
ghost use Rattle.std.specs.Str.{IsAscii};
ghost use Rattle.command_line.specs.Printed.{plain, escape, escaped, quoted, cut, counted};

use std::{fmt, str};

// A byte that stands for itself.
fn is_plain(b: u8) -> bool
    ensures { result ≡ plain b }
{
    matches!(b, b' '..=b'~') && !matches!(b, b'"' | b'\\')
}

// ASCII as text.
fn text(ascii: &[u8]) -> &str
    requires { IsAscii ascii.now }
    ensures { result.now ≡ ascii.now }
{
    str::from_utf8(ascii).unwrap()
}

// A number below 16 as a digit: by the number formatter an escape takes twice the instructions.
fn hex_digit(d: u8) -> u8
    requires { d < 16 }
    ensures { result ≡ digit_glyph false d }
{
    if d < 10 { b'0' + d } else { b'a' - 10 + d }
}

// Any other byte.
#[tactic(auto, using(crate::proofs::Plain::escape_hex))]
fn write_escape<W: fmt::Write>(f: &mut fmt::Formatter<W>, b: u8) -> fmt::Result
    requires { plain b ≡ false }
    ensures { WritesOnOk W.write_str_gives f.old result (escape b) f.new }
{
    match b {
        b'\r' => f.write_str("\\r"),
        b'\n' => f.write_str("\\n"),
        b'"' => f.write_str("\\\""),
        b'\\' => f.write_str("\\\\"),
        _ => f.write_str(text(&[b'\\', b'x', hex_digit(b / 16), hex_digit(b % 16)])),
    }
}

// Bytes of which those that do not print are escaped, and so are quotes and backslashes.
#[derive(Clone, Copy)]
pub struct Escaped<'a>(pub &'a [u8]);

impl fmt::Display for Escaped<'_> {
    ghost output = { λ x. Some (escaped x.0.now) };

    fn fmt<W: fmt::Write>(&self, f: &mut fmt::Formatter<W>) -> fmt::Result {
        let Escaped(bytes) = *self;
        // Plain bytes side by side are written together: a write for each takes four times the instructions.
        let mut start = 0;
        for (at, b) in bytes.iter().enumerate() {
            if !is_plain(*b) {
                f.write_str(text(&bytes[start..at]))?;
                write_escape(f, *b)?;
                start = at + 1;
            }
        }
        f.write_str(text(&bytes[start..]))
    }
}

// The same in quotes.
#[derive(Clone, Copy)]
pub struct Quoted<'a>(pub &'a [u8]);

impl fmt::Display for Quoted<'_> {
    ghost output = { λ x. Some (quoted x.0.now) };

    fn fmt<W: fmt::Write>(&self, f: &mut fmt::Formatter<W>) -> fmt::Result {
        let bytes = Escaped(self.0);
        write!(f, "\"{bytes}\"")
    }
}

// In quotes, the first 60 where there are more.
#[derive(Clone, Copy)]
pub struct Cut<'a>(pub &'a [u8]);

impl fmt::Display for Cut<'_> {
    ghost output = { λ x. Some (cut x.0.now) };

    fn fmt<W: fmt::Write>(&self, f: &mut fmt::Formatter<W>) -> fmt::Result {
        let Cut(bytes) = *self;
        if bytes.len() <= 60 {
            return write!(f, "{}", Quoted(bytes));
        }
        let (front, _) = bytes.split_at(60);
        let front = Quoted(front);
        let length = bytes.len();
        write!(f, "{front}... ({length} bytes)")
    }
}

// A number and what is counted: `1 byte`, `2 bytes`.
#[derive(Clone, Copy)]
pub struct Counted<'a>(pub usize, pub &'a str);

impl fmt::Display for Counted<'_> {
    ghost output = { λ x. Some (counted x.0 x.1.now) };

    fn fmt<W: fmt::Write>(&self, f: &mut fmt::Formatter<W>) -> fmt::Result {
        let Counted(count, what) = *self;
        let plural = if count == 1 { "" } else { "s" };
        write!(f, "{count} {what}{plural}")
    }
}
