// What the system says of a failure, in its own words: std adds the error's number, which is left out here.
ghost use Rattle.std.specs.Prelude.{◌≤◌, length};

use std::fmt::{self, Write as _};
use std::{io, str};

// The most bytes of the system's words that are told.
const WORDS_MOST: usize = 256;

// The text so far, as much of it as there is room for.
#[derive(Clone, Copy)]
pub struct Words {
    bytes: [u8; WORDS_MOST],
    len: usize,
}

impl fmt::Write for Words {
    fn write_str(&mut self, s: &str) -> fmt::Result {
        for b in s.as_bytes() {
            if self.len < WORDS_MOST {
                self.bytes[self.len] = *b;
                self.len += 1;
            }
        }
        Ok(())
    }
}

// Where the words end: before the last bracket that opens, or at the end.
fn words_end(text: &[u8]) -> usize
    ensures { result ≤ length text.now }
{
    match text.iter().rposition(|b| *b == b'(') {
        Some(i) if 0 < i => i - 1,
        _ => text.len(),
    }
}

// `what: ` and the system's words, on standard error.
pub fn tell_failure(rt: &impl Eprint, what: &str, error: &io::Error) -> io::Result<()> {
    let mut words = Words {
        bytes: [0u8; WORDS_MOST],
        len: 0,
    };
    write!(words, "{error}")?;
    let text = &words.bytes[..words.len.min(WORDS_MOST)];
    let end = words_end(text);
    match str::from_utf8(&text[..end]) {
        Ok(text) => eprintln!(rt; "{what}: {text}"),
        Err(_) => eprintln!(rt; "{what}: {error}"),
    }
}
