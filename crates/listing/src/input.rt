// The standard input, of which `read_exact` does not say how much came before a failure.
ghost use Rattle.std.specs.Prelude.{◌≡◌, ◌≤◌, length, take};

use std::io;
use std::io::Read;

// How many bytes stand at the start of the buffer, and the failure that ended the reading, if one did. Not a `Result`:
// the bytes that came before a failure are listed too.
#[derive(Drop)]
pub(crate) struct Input {
    pub count: usize,
    pub failure: Option<io::Error>,
}

// Reads until the buffer is full, the input ends or a read fails: a `while`, since how far a read comes is what the
// system answers. An odd byte before a failure does not count: it would be listed as the last of the input, which it
// need not be.
pub(crate) fn read(from: &mut impl Read, buf: &mut [u8]) -> Input
    ensures within { result.count ≤ length buf.new }
    ensures front { result.count ≡ length (take result.count buf.new) }
{
    let mut count = 0;
    while count < buf.len() {
        match from.read(&mut buf[count..]) {
            Ok(0) => break,
            Ok(more) => count += more,
            Err(error) => {
                return Input {
                    count: count - count % 2,
                    failure: Some(error),
                };
            }
        }
    }
    Input {
        count,
        failure: None,
    }
}
