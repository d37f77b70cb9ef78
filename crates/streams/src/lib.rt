// What a stream gives, read into a slice. Programs that read standard input rest on it.
#![tactic(auto)]

ghost use Rattle.std.specs.Prelude.{◌<◌, take, length, IfOk};
ghost use Rattle.std.specs.Io.{ReadsAtMost};
ghost use Rattle.std.specs.Io.KnownBytes.{Consumes, IsAtEnd};

use std::io;
use std::io::Read;

// Reads until the slice is full or the input ends; how many bytes, from the front of the slice on, were read.
pub fn read_full<R: Read>(input: &mut R, room: &mut [u8]) -> io::Result<usize>
    ensures within { ReadsAtMost result room.new }
    ensures bytes { IfOk result (λ n. Consumes (R.remaining input.old) (R.remaining input.new) (take n room.new)) }
    ensures end { IfOk result (λ n. n < length room.new → IsAtEnd (R.remaining input.new)) }
{
    let mut size: usize = 0;
    // Not a `for`: a read takes as many bytes as the input gives.
    while size < room.len() {
        let n = input.read(&mut room[size..])?;
        if n == 0 {
            break;
        }
        size += n;
    }
    Ok(size)
}
