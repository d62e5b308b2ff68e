//! Rows of tests: what a program is called with, and what it has to come to, as plain text that costs no proof.
//!
//! A file of rows is text. A line that is empty or begins with `#` says nothing. A line `part NAME` begins bytes that rows below may name,
//! and a line `row NAME` begins a row. These lines may stand in a row, in any order:
//!
//! ```text
//! call WORD..      a call of the program with these words, parted by blanks; '' is an empty word. Of several each has to come to the same
//! explain WORD..   a call for a sentence in place of one of the program
//! file NAME        a file that is there before the call, and its bytes
//! status N         the exit status; 0 where there is no such line
//! prints           all that is printed
//! begins           the beginning of what is printed
//! ends             the end of what is printed
//! saves            what the file t holds after the call; where there is no such line, it is as it was before
//! checked          a call `check c s t r` over what the row saves and prints says yes
//! ```
//!
//! The bytes of a part and of a file, and those printed and saved, are what the lines below say, one after the other. The first of these
//! may stand in the same line, as in `prints | usage`:
//!
//! ```text
//! | TEXT                                   the text and a line feed
//! text TEXT                                the text alone
//! hex DIGITS                               bytes as pairs of hexadecimal digits
//! zeros N                                  so many zero bytes
//! header                                   a savefile's header (pcap-savefile(5)): little-endian, microseconds, Ethernet
//! frame LEN [at MICROS] [of LEN] DIGITS    a savefile's record: a frame that is cut to its length, or filled up with zeros; its time, or 0; how
//!                                          many bytes it had when it came in, or as many
//! as NAME                                  the bytes of a part above
//! cut N                                    of all bytes so far the first N alone
//! change OLD => NEW                        another text in the first place where a text stands in the bytes so far
//! ```
//!
//! In which order to read: `rows`, `hex`, `records`, `building`, `cursor`, `reading`; then `outcomes`, `judging`.
#![tactic(auto)]

mod building;
mod cursor;
mod hex;
mod judging;
mod outcomes;
mod reading;
mod records;
mod rows;

pub use judging::{Judged, Miss, check_of, first_miss, held, status_of};
pub use outcomes::{Difference, Outcome, difference_of};
pub use reading::read_rows;
pub use rows::{Call, Cause, Fault, Kept, Printed, Row};
