// What the programs read.
#![tactic(auto)]

ghost use Rattle.std.specs.Prelude.{◌≡◌, ◌+◌, ◌<◌, ◌≤◌, drop, length, take, IfOk};
ghost use Rattle.std.specs.Io.KnownBytes.{Consumes, IsAtEnd};
ghost use Rattle.console.specs.Within.{Reads};

use std::io::{Error, ErrorKind, Read};
use std::rt::Files;
use std::{fs, io};

// One read, behind the first bytes of the buffer, which stay.
fn read_at<R: Read>(from: &mut R, buffer: &mut [u8], at: usize) -> io::Result<usize>
    requires { at < length buffer.old }
    ensures front { take at buffer.new ≡ take at buffer.old }
    ensures fits { IfOk result (λ n. at + n ≤ length buffer.new) }
    ensures bytes { IfOk result (λ n. Consumes (R.remaining from.old) (R.remaining from.new) (take n (drop at buffer.new))) }
    ensures end { IfOk result (λ n. n ≡ 0 → IsAtEnd (R.remaining from.new)) }
{
    from.read(&mut buffer[at..])
}

/// Reads until the input ends or the buffer is full. So many bytes then stand at the front of the buffer.
pub fn read_all<R: Read>(from: &mut R, buffer: &mut [u8]) -> io::Result<usize>
    ensures within { IfOk result (λ n. n ≤ length buffer.new) }
    ensures bytes { IfOk result (λ n. Reads n (R.remaining from.old) (R.remaining from.new) buffer.new) }
{
    let mut at = 0;
    // A read gives as many bytes as there are, so the loop goes by what is left of the buffer.
    while at < buffer.len() {
        let read = read_at(from, buffer, at)?;
        if read == 0 {
            return Ok(at);
        }
        at += read;
    }
    Ok(at)
}

/// Reads the file of this name. std opens a file by a text, so a name that is not UTF-8 is answered as one that cannot be opened.
pub fn read_file(files: &impl Files, name: &[u8], buffer: &mut [u8]) -> io::Result<usize>
    ensures { IfOk result (λ n. n ≤ length buffer.new) }
{
    let Ok(path) = str::from_utf8(name) else {
        return Err(Error::from(ErrorKind::InvalidInput));
    };
    read_all(&mut fs::open(files, path)?, buffer)
}
