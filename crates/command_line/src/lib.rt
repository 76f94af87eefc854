//! What the commands share: words compared and looked up, open subtrees, bytes made printable, answers in words and as exit
//! statuses, output, and files read whole. specs/ says what each function that only computes gives, and each text that is made
//! (Words, Levels, Printed); what reaches a terminal or stands in a file no promise can say.

#![tactic(auto)]

mod answers;
mod files;
mod levels;
mod output;
mod printable;
mod words;

pub use answers::{InWords, Status, status_of};
pub use files::{ARGUMENT, LONGEST, ROOM};
pub use levels::{DEEPEST, Level, Levels, kind_of, subtree_end};
pub use output::Command;
pub use printable::{Counted, Cut, Escaped, Quoted};
pub use words::{RULES, is_parameter, rule_asked};
