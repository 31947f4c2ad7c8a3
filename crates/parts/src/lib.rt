// A stored file is a list of parts, each a length of two bytes and its bytes.
#![tactic(auto)]

ghost use Rattle.std.specs.Prelude.{◌<◌, ◌≡◌, IfOk, length};
ghost use Rattle.io.specs.Counts.{IsPrefixLen};

use std::io::{Read, Result};

// Reads until the buffer is full or the file has ended, and answers how many bytes came to its front. Here and below the one error is the
// reader's own; what came before it may stand in the buffer, which keeps its length.
fn read_full<R: Read>(file: &mut R, buffer: &mut [u8]) -> Result<usize>
    ensures ok { IfOk result (λ n. IsPrefixLen n buffer.new) }
    ensures kept { length buffer.new ≡ length buffer.old }
{
    // A while: each turn goes on by as many bytes as the reader gave.
    let mut done = 0;
    while done < buffer.len() {
        let n = file.read(&mut buffer[done..])?;
        if n == 0 {
            return Ok(done);
        }
        done += n;
    }
    Ok(done)
}

// The two bytes of a length, or of a count; none where the file has ended.
pub fn read_length<R: Read>(file: &mut R) -> Result<Option<usize>> {
    let mut head = [0u8; 2];
    if read_full(file, &mut head)? < 2 {
        return Ok(None);
    }
    Ok(Some(usize::from(u16::from_le_bytes(head))))
}

// Reads n bytes to the front of the buffer, and answers how many came: none where there is no room for them.
pub fn read_part<R: Read>(file: &mut R, buffer: &mut [u8], n: usize) -> Result<usize>
    ensures ok { IfOk result (λ k. IsPrefixLen k buffer.new) }
    ensures kept { length buffer.new ≡ length buffer.old }
{
    if buffer.len() < n {
        return Ok(0);
    }
    read_full(file, &mut buffer[..n])
}

// Reads the next part to the front of the buffer, and answers its length; 0 where there is none.
pub fn next_part<R: Read>(file: &mut R, buffer: &mut [u8]) -> Result<usize>
    ensures ok { IfOk result (λ n. IsPrefixLen n buffer.new) }
    ensures kept { length buffer.new ≡ length buffer.old }
{
    match read_length(file)? {
        Some(n) => read_part(file, buffer, n),
        None => Ok(0),
    }
}

// Whether two rows of bytes are equal.
pub fn are_equal(a: &[u8], b: &[u8]) -> bool {
    a == b
}
