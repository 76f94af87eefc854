//! Lists the parts of messages, for someone who collects attached files: each FILE holds one item `BODYSTRUCTURE (..)`.
//!
//! Every part that has bytes of its own is listed, with or without a name, in order: a file that came without a name or
//! with an odd one must not be lost, and which parts to fetch is for the reader of the list to say. A multipart is not
//! listed: it has only its parts. A line has the part's number as FETCH takes it (`BODY[2.1]`), its type, its size, then
//! what the content type names it, its disposition and what that names it. Names are as the server sent them, RFC 2231's
//! `filename*` undecoded: bytes that do not print are escaped, so that a line of the list stays a line. Where a FILE is
//! not accepted, its line says the answer, and the next FILE is read.

#![tactic(auto)]

mod item;
mod parts;

use command_line::{Command, Escaped, InWords, Status};
use parts::Parts;
use reader::Answer;
use std::fmt;
use std::process::ExitCode;

// `BODYSTRUCTURE` of docs/RULES.md.
const RULE: u32 = 25;

// What is written of a FILE.
#[derive(Clone, Copy)]
struct Report<'a> {
    path: &'a [u8],
    answer: Answer,
    bytes: &'a [u8],
    table: &'a [u32],
}

impl fmt::Display for Report<'_> {
    fn fmt<W: fmt::Write>(&self, f: &mut fmt::Formatter<W>) -> fmt::Result {
        let path = Escaped(self.path);
        let answer = InWords {
            answer: self.answer,
            room: self.table.len() / 4,
        };
        writeln!(f, "{path}: {answer}")?;
        let Answer::Accepted { nodes, .. } = self.answer else {
            return Ok(());
        };
        let parts = Parts {
            bytes: self.bytes,
            table: self.table,
            nodes,
        };
        write!(f, "{parts}")
    }
}

// The exit status is returned, here and below.
fn list_file(command: Command<'_>, path: &[u8], table: &mut [u32]) -> Status {
    let Some(bytes) = command.read_file(path) else {
        return Status::NoReading;
    };
    let answer = reader::read(RULE, bytes.as_slice(), table);
    let report = Report {
        path,
        answer,
        bytes: bytes.as_slice(),
        table,
    };
    command.print(report, command_line::status_of(answer))
}

fn list_argument(command: Command<'_>, i: usize, table: &mut [u32]) -> Status {
    match command.path_argument(i) {
        Some(path) => list_file(command, path.as_slice(), table),
        None => Status::NoReading,
    }
}

// The highest status of the files.
fn answer(command: Command<'_>) -> Status {
    let count = command.argument_count();
    if count < 2 {
        command.complain("wrong usage; attachments FILE ..; attachments --help says more");
        return Status::NoReading;
    }
    let Some(mut table) = command.new_table() else {
        return Status::NoReading;
    };
    let mut status = Status::Accepted;
    for i in 1..count {
        let more = list_argument(command, i, table.as_mut_slice());
        status = status.max(more);
    }
    status
}

fn main(rt: HostRuntime) -> ExitCode {
    let command = Command {
        rt: &rt,
        name: "attachments",
    };
    ExitCode::from(answer(command))
}
