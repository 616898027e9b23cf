//! What a command promises: which bytes it read and wrote, and why it stopped.
//!
//! A command's contract is one fact, `Told` of `specs/Told.antt`: what was written and the exit
//! status are what is defined for the bytes that were read. It holds whatever the source and the
//! sink do, since a fault of theirs has a status of its own. A command's parts say the same of
//! themselves (`specs/Parts.antt`), and the laws in `proofs/Laws.antt` put them together.
//!
//! The first part of most inputs is a head: the lines before the first line `%%`. `read_head` reads
//! it. Its clause is `HeadRead` (`specs/HeadRead.antt`): the answer is the head of the input's lines
//! that `specs/Head.antt` defines, as far as they were read. `read_text` reads another such text
//! after it.
#![tactic(auto)]

mod head;
mod status;
pub mod turned;

pub use head::{HeadFault, is_mark, read_head, read_text};
pub use status::Status;
pub use turned::{Turned, finish, put_text};
