// Answers of a reading, in words and as exit statuses.

ghost use Rattle.std.specs.Prelude.{◌≡◌, Some};
ghost use Rattle.std.specs.Process.{exit_status};
ghost use Rattle.command_line.specs.Words.{status_of, code_of};
ghost use Rattle.command_line.specs.Printed.{in_words};

use crate::printable::Counted;
use reader::Answer;
use std::fmt;
use std::process::ExitCode;

// A command's exit status, the worse the greater: docs/COMMANDS.md.
#[derive(Clone, Copy, PartialEq, Eq, PartialOrd, Ord)]
pub enum Status {
    Accepted,
    Unfinished,
    Refused,
    NoReading,
    NotWritten,
}

impl From<Status> for ExitCode {
    ghost from_gives = { λ status exit. exit_status exit ≡ code_of status };

    fn from(status: Status) -> ExitCode {
        ExitCode::from(status as u8)
    }
}

// The exit status for an answer.
pub fn status_of(answer: Answer) -> Status
    ensures { result ≡ status_of answer }
{
    match answer {
        Answer::Accepted { .. } => Status::Accepted,
        Answer::Unfinished { .. } => Status::Unfinished,
        Answer::UnknownRule => Status::NoReading,
        Answer::NotTheGrammar | Answer::TooDeep | Answer::NoRoom { .. } | Answer::TooLong => {
            Status::Refused
        }
    }
}

// The answer of a reading into a table with room for so many nodes, in words and as docs/RULES.md numbers it.
#[derive(Clone, Copy)]
pub struct InWords {
    pub answer: Answer,
    pub room: usize,
}

impl fmt::Display for InWords {
    ghost output = { λ x. Some (in_words x.answer x.room) };

    fn fmt<W: fmt::Write>(&self, f: &mut fmt::Formatter<W>) -> fmt::Result {
        match self.answer {
            Answer::Accepted { taken, nodes } => {
                let bytes = Counted(taken, "byte");
                let nodes = Counted(nodes, "node");
                write!(f, "accepted: answer 0, {bytes} taken, {nodes}")
            }
            Answer::Unfinished { wanted } => {
                if wanted == 0 {
                    return f.write_str("unfinished: answer 1, more bytes are needed");
                }
                let more = Counted(wanted, "more byte");
                write!(f, "unfinished: answer 1, {more} wanted")
            }
            Answer::NotTheGrammar => f.write_str("not the grammar: answer 2"),
            Answer::TooDeep => f.write_str("too deep: answer 3"),
            Answer::NoRoom { nodes } => {
                let needed = Counted(nodes, "node");
                let room = self.room;
                write!(
                    f,
                    "no room: answer 4, {needed} needed, this command has room for {room}"
                )
            }
            Answer::UnknownRule => f.write_str("unknown rule: answer 5"),
            Answer::TooLong => f.write_str("too long: answer 6"),
        }
    }
}
