// A command's arguments, and files read whole.

ghost use Rattle.std.specs.Prelude.{◌≡◌, ◌*◌, ◌≤◌, IfOk, IfSome, vec_len};

use crate::output::Command;
use crate::printable::Quoted;
use std::alloc::Global;
use std::env::{Env, FillError};
use std::fs::File;
use std::io::{self, Read};
use std::str;

// The most bytes of a FILE.
pub const LONGEST: usize = 1_048_576;

// How many nodes a command's table has room for.
pub const ROOM: usize = 196_608;

// An argument has fewer bytes than this.
pub const ARGUMENT: usize = 4_096;

// The numbers of the system's errors for what the library has none for: no such argument, a long one, and a name that is no text.
const EINVAL: i32 = 22;

const ENAMETOOLONG: i32 = 36;

const EILSEQ: i32 = 84;

// Why a FILE gives no bytes.
#[derive(Clone, Copy)]
enum Unread {
    Unopened(io::Error),
    Failed(io::Error),
    TooLong,
}

impl Command<'_> {
    // How many arguments the program was started with, its own name among them.
    pub fn argument_count(self) -> usize {
        (0..usize::MAX)
            .find(|i| matches!(self.rt.arg(*i, &mut [0u8]), Err(FillError::NotPresent)))
            .unwrap_or(usize::MAX)
    }

    // The bytes of an argument.
    pub fn argument(self, i: usize) -> io::Result<Vec<u8>>
        ensures { IfOk result (λ word. vec_len word ≤ ARGUMENT) }
    {
        let mut word = vec![in self.rt.alloc(); 0u8; ARGUMENT]?;
        match self.rt.arg(i, word.as_mut_slice()) {
            Ok(length) => {
                word.truncate(length);
                Ok(word)
            }
            Err(FillError::TooLong) => Err(io::Error::from_raw_os_error(ENAMETOOLONG)),
            Err(FillError::NotPresent) => Err(io::Error::from_raw_os_error(EINVAL)),
        }
    }

    // The same of a FILE's name; where there is none a line on standard error has said why, here and below.
    pub fn path_argument(self, i: usize) -> Option<Vec<u8>>
        ensures { IfSome result (λ path. vec_len path ≤ ARGUMENT) }
    {
        match self.argument(i) {
            Ok(path) => Some(path),
            Err(error) => {
                self.fail("cannot open FILE", error);
                None
            }
        }
    }

    // A table for a reading.
    pub fn new_table(self) -> Option<Vec<u32>>
        ensures { IfSome result (λ table. vec_len table ≡ 4 * ROOM) }
    {
        match vec![in self.rt.alloc(); 0u32; 4 * ROOM] {
            Ok(table) => Some(table),
            Err(_) => {
                self.complain("out of memory");
                None
            }
        }
    }

    // The bytes of a file by its name, or of standard input as `-`.
    pub fn read_file(self, path: &[u8]) -> Option<Vec<u8>>
        ensures { IfSome result (λ bytes. vec_len bytes ≤ LONGEST) }
    {
        match self.load_file(path) {
            Ok(bytes) => Some(bytes),
            Err(why) => {
                self.complain_of_file(path, why);
                None
            }
        }
    }

    fn load_file(self, path: &[u8]) -> Result<Vec<u8>, Unread>
        ensures { IfOk result (λ bytes. vec_len bytes ≤ LONGEST) }
    {
        let alloc = self.rt.alloc();
        if let [b'-'] = path {
            return load(alloc, self.rt.stdin());
        }
        match open(self.rt, path) {
            Ok(file) => load(alloc, file),
            Err(error) => Err(Unread::Unopened(error)),
        }
    }

    fn complain_of_file(self, path: &[u8], why: Unread) {
        let path = Quoted(path);
        match why {
            Unread::Unopened(error) => self.fail(format_args!("cannot open {path}"), error),
            Unread::Failed(error) => self.fail(format_args!("cannot read {path}"), error),
            Unread::TooLong => self.complain(format_args!(
                "too long: {path} has more than {LONGEST} bytes, which is this command's limit"
            )),
        }
    }
}

// Reads to the end, or one byte more than is allowed.
fn load<R: Read + Drop>(alloc: Global, from: R) -> Result<Vec<u8>, Unread>
    ensures { IfOk result (λ bytes. vec_len bytes ≤ LONGEST) }
{
    let mut bytes = Vec::new(alloc);
    if let Err(error) = from.take(LONGEST as u64 + 1).read_to_end(&mut bytes) {
        return Err(Unread::Failed(error));
    }
    if LONGEST < bytes.len() {
        return Err(Unread::TooLong);
    }
    Ok(bytes)
}

// Names of files are text to the library: EILSEQ where this one is not.
fn open(rt: &HostRuntime, path: &[u8]) -> io::Result<File> {
    match str::from_utf8(path) {
        Ok(name) => File::open(rt, name),
        Err(_) => Err(io::Error::from_raw_os_error(EILSEQ)),
    }
}

#[cfg(test)]
mod tests {
    use super::*;

    // There is memory for a table, for an argument and for a file: no promise can say so.
    #[test]
    fn memory_is_found(rt: HostRuntime) -> io::Result<()> {
        let command = Command {
            rt: &rt,
            name: "test",
        };
        let table = command.new_table().expect(&rt, "a table");
        assert_eq!(rt; table.len(), 4 * ROOM);
        let name = command.argument(0)?;
        let path = command.path_argument(0).expect(&rt, "the test's own name");
        assert!(rt; path.as_slice() == name.as_slice());
        let words = command
            .read_file(b"/proc/self/cmdline")
            .expect(&rt, "the words that the test was started with");
        assert!(rt; !words.is_empty());
        Ok(())
    }
}
