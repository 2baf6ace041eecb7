// The program: commands from standard input, a line each, and a line for each to standard output.
#![tactic(auto)]

mod session;

ghost use Rattle.std.specs.Prelude.{◌≡◌, ◌≤◌, length, take};
ghost use Rattle.std.specs.Io.KnownBytes.{Consumes};

use std::io;
use std::io::{Read, Write};

// Room for all that 4,096 bytes of input can print: 32 bytes for each.
fn output() -> [u8; 131072]
    ensures { 131072 ≡ length result }
{
    [0; 131072]
}

// Reads until the buffer is full, the input ends or a read fails, and says how many bytes it put at its start: the
// next that the reader had.
fn read_full<R: Read>(reader: &mut R, buffer: &mut [u8]) -> usize
    ensures fits { result ≤ length buffer.new }
    ensures bytes { Consumes (R.remaining reader.old) (R.remaining reader.new) (take result buffer.new) }
{
    let mut filled = 0;
    while filled < buffer.len() {
        match reader.read(&mut buffer[filled..]) {
            Ok(0) | Err(_) => return filled,
            Ok(more) => filled += more,
        }
    }
    filled
}

fn main(rt: HostRuntime) {
    let mut input = [0u8; 4096];
    let length = read_full(&mut rt.stdin(), &mut input);
    let mut out = output();
    let end = session::run(&input[..length], &mut out);
    let _ = io::writer(&rt).write_all(&out[..end]);
}
