//! Reads pieces of responses, each by a rule and from a file or standard input, and shows the answers and the nodes as trees.
//! docs/COMMANDS.md says how it is used; the script `read` at the repository's root runs it.

#![tactic(auto)]

mod fields;
mod tree;

use command_line::{Command, Counted, Escaped, InWords, Quoted, Status};
use reader::Answer;
use std::fmt;
use std::io::ErrorKind;
use std::process::ExitCode;
use tree::Tree;

// ----- a reading -----

// What is written of a reading.
#[derive(Clone, Copy)]
struct Report<'a> {
    // the file's name, where several are read
    heading: Option<&'a [u8]>,
    answer: Answer,
    bytes: &'a [u8],
    table: &'a [u32],
}

impl fmt::Display for Report<'_> {
    fn fmt<W: fmt::Write>(&self, f: &mut fmt::Formatter<W>) -> fmt::Result {
        if let Some(path) = self.heading {
            write!(f, "{}: ", Escaped(path))?;
        }
        let answer = InWords {
            answer: self.answer,
            room: self.table.len() / 4,
        };
        writeln!(f, "{answer}")?;
        let Answer::Accepted { taken, nodes } = self.answer else {
            return Ok(());
        };
        if taken < self.bytes.len() {
            let rest = Counted(self.bytes.len() - taken, "byte");
            writeln!(f, "{rest} after that")?;
        }
        let tree = Tree {
            bytes: self.bytes,
            table: self.table,
            nodes,
        };
        write!(f, "{tree}")
    }
}

// What is read by a rule, with the file's name before the answer or without.
#[derive(Clone, Copy)]
struct Asked {
    rule: u32,
    with_heading: bool,
}

impl Asked {
    // The exit status is returned, here and below.
    fn read_file(self, command: Command<'_>, path: &[u8], table: &mut [u32]) -> Status {
        let Some(bytes) = command.read_file(path) else {
            return Status::NoReading;
        };
        let answer = reader::read(self.rule, bytes.as_slice(), table);
        let report = Report {
            heading: self.with_heading.then_some(path),
            answer,
            bytes: bytes.as_slice(),
            table,
        };
        command.print(report, command_line::status_of(answer))
    }
}

// ----- what is asked -----

fn complain_of_rule(command: Command<'_>, word: &[u8]) {
    let word = Quoted(word);
    command.complain(format_args!("unknown rule {word}; read --help lists the rules"));
}

// The rule that an argument asks for; where there is none a line on standard error says so.
fn rule_at(command: Command<'_>, i: usize) -> Option<u32> {
    let word = match command.argument(i) {
        Ok(word) => word,
        Err(error) if error.kind() == ErrorKind::OutOfMemory => {
            command.complain("out of memory");
            return None;
        }
        Err(_) => {
            complain_of_rule(command, b"");
            return None;
        }
    };
    let rule = command_line::rule_asked(word.as_slice()).filter(|rule| (1..=25).contains(rule));
    if rule.is_none() {
        complain_of_rule(command, word.as_slice());
    }
    rule
}

// RULE alone.
fn read_input(command: Command<'_>, table: &mut [u32]) -> Status {
    let Some(rule) = rule_at(command, 1) else {
        return Status::NoReading;
    };
    let asked = Asked {
        rule,
        with_heading: false,
    };
    asked.read_file(command, b"-", table)
}

// RULE FILE, by the numbers of these arguments.
fn read_pair(
    command: Command<'_>,
    rule: usize,
    file: usize,
    with_heading: bool,
    table: &mut [u32],
) -> Status {
    let Some(rule) = rule_at(command, rule) else {
        return Status::NoReading;
    };
    let Some(path) = command.path_argument(file) else {
        return Status::NoReading;
    };
    let asked = Asked { rule, with_heading };
    asked.read_file(command, path.as_slice(), table)
}

// The highest status of the pairs among so many arguments.
fn read_pairs(command: Command<'_>, count: usize, table: &mut [u32]) -> Status {
    let several = 3 < count;
    let mut status = Status::Accepted;
    for pair in 1..=count / 2 {
        let more = read_pair(command, 2 * pair - 1, 2 * pair, several, table);
        status = status.max(more);
    }
    status
}

fn answer(command: Command<'_>) -> Status {
    let count = command.argument_count();
    if count < 2 || 2 < count && count % 2 == 0 {
        command.complain(
            "wrong usage; read RULE [FILE], or RULE FILE RULE FILE ..; read --help says more",
        );
        return Status::NoReading;
    }
    let Some(mut table) = command.new_table() else {
        return Status::NoReading;
    };
    if count == 2 {
        return read_input(command, table.as_mut_slice());
    }
    read_pairs(command, count, table.as_mut_slice())
}

fn main(rt: HostRuntime) -> ExitCode {
    let command = Command {
        rt: &rt,
        name: "read",
    };
    ExitCode::from(answer(command))
}
