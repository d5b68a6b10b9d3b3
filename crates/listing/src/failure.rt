// Telling a failure on standard error.
use std::io;
use std::io::{Cursor, Write};

// A failure that has been told.
#[derive(Clone, Copy)]
pub(crate) struct Told;

// The system's words alone, without the number that stands after them.
fn words(text: &[u8]) -> &str {
    let text = str::from_utf8(text).unwrap_or("");
    text.split_once(" (os error ")
        .map_or(text, |(before, _)| before)
}

// In one line, made in a fixed buffer (no heap): what failed, a colon and the system's words. If that cannot be written,
// nobody is told.
pub(crate) fn tell(rt: &impl Eprint, what: &str, error: &io::Error) -> Told {
    let mut text = Cursor::new([0u8; 256]);
    let _ = write!(text, "{error}");
    let end = text.position() as usize;
    let bytes = text.into_inner();
    let _ = eprintln!(rt;
        "listing: {what}: {}",
        words(bytes.get(..end).unwrap_or(&bytes))
    );
    Told
}
