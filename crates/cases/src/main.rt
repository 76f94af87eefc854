//! Answers lines of readings on standard input: `RULE WORDS HEX` in, `ANSWER TAKEN NODES WANTED WORD WORD ..` out. docs/TESTS.md says what
//! a line is and where those in `stdin` come from; `rows` has them as text.

#![tactic(auto)]

use reader::Answer;
use std::alloc::AllocError;
use std::io::{self, BufRead, BufReader, BufWriter, Read, Stdin, Stdout, Write};
use std::{fmt, str};

// The most bytes of a line.
const LONGEST: usize = 131_104;

// The most bytes that a line asks to read.
const MOST: usize = 65_536;

// The most words of a table.
const WORDS: usize = 262_144;

// What of the input and of the output is held at once.
const BUFFER: usize = 16_384;

// What a table's words are before a reading.
const MARK: u32 = 2_863_311_530;

// ----- a line -----

// A number of 32 bits; `parse` takes a sign too.
fn number(text: &str) -> Option<u32> {
    if text.starts_with('+') {
        return None;
    }
    text.parse().ok()
}

// Two digits' byte.
fn byte_of(high: u8, low: u8) -> Option<u8> {
    let high = char::from(high).to_digit(16)?;
    let low = char::from(low).to_digit(16)?;
    u8::try_from(16 * high + low).ok()
}

// The bytes that hexadecimal digits stand for; `-` for none.
fn bytes_of(hex: &[u8], bytes: &mut Vec<u8>) -> Option<()> {
    bytes.clear();
    if hex.is_empty() || 2 * MOST < hex.len() {
        return None;
    }
    if let [b'-'] = hex {
        return Some(());
    }
    for pair in hex.chunks(2) {
        let [high, low] = pair else {
            return None;
        };
        bytes.push(byte_of(*high, *low)?).ok()?;
    }
    Some(())
}

// What a line asks for.
#[derive(Clone, Copy)]
struct Asked {
    rule: u32,
    words: usize,
}

// The bytes to read are put into a buffer.
fn parse(line: &[u8], bytes: &mut Vec<u8>) -> Option<Asked> {
    if LONGEST < line.len() {
        return None;
    }
    let line = str::from_utf8(line).ok()?;
    let (rule, rest) = line.split_once(' ')?;
    let (words, hex) = rest.split_once(' ')?;
    let asked = Asked {
        rule: number(rule)?,
        words: number(words)? as usize,
    };
    bytes_of(hex.as_bytes(), bytes)?;
    Some(asked)
}

// ----- a reading -----

// An answer, and the table that it left.
#[derive(Clone, Copy)]
struct Reading<'a> {
    answer: Answer,
    table: &'a [u32],
}

// The answer's numbers, the nodes' words, and whether another word changed.
impl fmt::Display for Reading<'_> {
    fn fmt<W: fmt::Write>(&self, f: &mut fmt::Formatter<W>) -> fmt::Result {
        let mut written = 0;
        match self.answer {
            Answer::Accepted { taken, nodes } => {
                written = nodes.saturating_mul(4);
                write!(f, "0 {taken} {nodes} 0")?;
            }
            Answer::Unfinished { wanted } => write!(f, "1 0 0 {wanted}")?,
            Answer::NotTheGrammar => f.write_str("2 0 0 0")?,
            Answer::TooDeep => f.write_str("3 0 0 0")?,
            Answer::NoRoom { nodes } => write!(f, "4 0 {nodes} 0")?,
            Answer::UnknownRule => f.write_str("5 0 0 0")?,
            Answer::TooLong => f.write_str("6 0 0 0")?,
        }
        let (words, others) = self.table.split_at(written.min(self.table.len()));
        for word in words {
            write!(f, " {word}")?;
        }
        if others.iter().any(|word| *word != MARK) {
            f.write_str(" touched")?;
        }
        Ok(())
    }
}

// ----- lines -----

// A reader that is not read again behind its end. A read that fails is its end too.
#[derive(Drop)]
struct Fused<R> {
    reader: R,
    ended: bool,
}

impl<R: Read> Read for Fused<R> {
    fn read(&mut self, bytes: &mut [u8]) -> io::Result<usize> {
        if self.ended {
            return Ok(0);
        }
        let count = self.reader.read(bytes).unwrap_or(0);
        self.ended = count == 0;
        Ok(count)
    }
}

// What each line needs. It is made once, at its largest: memory is wanting at the start or not at all.
#[derive(Drop)]
struct Room {
    line: Vec<u8>,
    bytes: Vec<u8>,
    table: Vec<u32>,
}

impl Room {
    // The line that is held; a line that asks for no reading is bad. Each answer is written at once.
    fn answer<W: Write>(&mut self, out: &mut W) -> io::Result<()> {
        let asked = parse(self.line.as_slice(), &mut self.bytes);
        let bytes = self.bytes.as_slice();
        if let Some(Asked { rule, words }) = asked
            && let Some(table) = self.table.as_mut_slice().get_mut(..words)
        {
            table.fill(MARK);
            let answer = reader::read(rule, bytes, table);
            writeln!(out, "{}", Reading { answer, table })?;
        } else {
            writeln!(out, "bad line")?;
        }
        out.flush()
    }

    // The next line without its end, if there is one; of one that is too long no more is held than shows that. Of a
    // `Fused` reader no read fails, so an error is a want of memory.
    fn take_line<R: BufRead>(&mut self, input: &mut R) -> Result<bool, AllocError> {
        self.line.clear();
        let mut start = input.by_ref().take(LONGEST as u64 + 1);
        if start.read_until(b'\n', &mut self.line).is_err() {
            return Err(AllocError);
        }
        if self.line.is_empty() {
            return Ok(false);
        }
        if self.line.as_slice().last() == Some(&b'\n') {
            self.line.pop();
        } else if LONGEST < self.line.len() {
            let _ = input.skip_until(b'\n');
        }
        Ok(true)
    }
}

// Standard input. It fails for want of memory alone, and so does output.
fn buffered_input(rt: &HostRuntime) -> Result<BufReader<Fused<Stdin>>, AllocError> {
    let stdin = Fused {
        reader: rt.stdin(),
        ended: false,
    };
    BufReader::with_capacity(rt.alloc(), BUFFER, stdin).map_err(|_| AllocError)
}

// Standard output, with nothing held.
fn buffered_output(rt: &HostRuntime) -> Result<BufWriter<Stdout>, AllocError> {
    BufWriter::with_capacity(rt.alloc(), BUFFER, rt.stdout()).map_err(|_| AllocError)
}

// Answers each line of standard input. Nothing says that the input ends, and a loop has to: its turns are counted. A write that fails is let
// be: what is left of its answer is let go, so that it does not stand before the next.
fn main(rt: HostRuntime) -> Result<(), AllocError> {
    let alloc = rt.alloc();
    let mut input = buffered_input(&rt)?;
    let mut out = buffered_output(&rt)?;
    let mut room = Room {
        line: Vec::with_capacity(alloc, LONGEST + 1)?,
        bytes: Vec::with_capacity(alloc, MOST)?,
        table: vec![in alloc; MARK; WORDS]?,
    };
    for _ in 0..u64::MAX {
        if !room.take_line(&mut input)? {
            break;
        }
        if room.answer(&mut out).is_err() {
            let _ = out.into_parts();
            out = buffered_output(&rt)?;
        }
    }
    Ok(())
}
