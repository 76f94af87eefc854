// A command's output: standard output by way of a buffer, and lines on standard error.

ghost use Rattle.command_line.specs.Words.{Sent};

use crate::Status;
use std::alloc::{AllocError, Global};
use std::fmt;
use std::io::{self, BufWriter, ErrorKind, Write};

// How much is gathered before it is written.
const BUFFER: usize = 65_536;

// The numbers of two of the system's errors.
const EIO: i32 = 5;

const ENOMEM: i32 = 12;

// A command that runs: the runtime, and the name that stands before its lines on standard error.
#[derive(Clone, Copy)]
pub struct Command<'a> {
    pub rt: &'a HostRuntime,
    pub name: &'a str,
}

impl Command<'_> {
    // All of a text to standard output. After a write that fails nothing more is written, so what is left of the buffer is let go.
    fn write_out<D: fmt::Display + Drop>(self, text: D) -> io::Result<()> {
        let mut out = BufWriter::with_capacity(self.rt.alloc(), BUFFER, io::writer(self.rt))?;
        let written = match write!(out, "{text}") {
            Ok(()) => out.flush(),
            Err(error) => Err(error),
        };
        let _ = out.into_parts();
        written
    }

    // The exit status once a text is written: `NotWritten` where that failed, which a line on standard error then says.
    #[tactic(auto, using(crate::specs::Words::written, crate::specs::Words::not_written))]
    pub fn print<D: fmt::Display + Drop>(self, text: D, status: Status) -> Status
        ensures { Sent status result }
    {
        match self.write_out(text) {
            Ok(()) => status,
            Err(error) => {
                self.fail("cannot write", error);
                Status::NotWritten
            }
        }
    }

    // A line on standard error; nothing is to be done where that fails.
    pub fn complain<D: fmt::Display + Drop>(self, line: D) {
        let name = self.name;
        let _ = self.rt.eprintln(format_args!("{name}: {line}"));
    }

    // A line on standard error: what failed, and why.
    pub fn fail<D: fmt::Display + Drop>(self, what: D, error: io::Error) {
        match reason_of(self.rt.alloc(), error) {
            Ok(reason) => self.complain(format_args!("{what}: {reason}")),
            Err(_) => self.complain(format_args!("{what}: {error}")),
        }
    }
}

// The text of an error without its number, `No such file or directory` of `.. (os error 2)`; one that is not the system's is EIO.
fn reason_of(alloc: Global, error: io::Error) -> Result<String, AllocError> {
    let code = match error.kind() {
        ErrorKind::OutOfMemory => ENOMEM,
        _ => error.raw_os_error().unwrap_or(EIO),
    };
    let error = io::Error::from_raw_os_error(code);
    let text = format!(in alloc; "{error}")?;
    match text.as_str().split_once(" (") {
        Some((reason, _number)) => String::from_str(alloc, reason),
        None => Ok(text),
    }
}

#[cfg(test)]
mod tests {
    use super::*;

    // There is memory for what is printed and for an error's text, which has no number: no promise can say so.
    #[test]
    fn memory_is_found(rt: HostRuntime) -> Result<(), AllocError> {
        let command = Command {
            rt: &rt,
            name: "test",
        };
        assert!(rt; command.print("", Status::Refused) == Status::Refused);
        let missing = io::Error::from_raw_os_error(2);
        command.fail("cannot open no.txt", missing);
        let reason = reason_of(rt.alloc(), missing)?;
        assert!(rt; reason.as_str() == "No such file or directory");
        Ok(())
    }
}
