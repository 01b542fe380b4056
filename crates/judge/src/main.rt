// Reads a dossier from standard input and prints the line that judges it.
#![tactic(auto)]

ghost use Rattle.std.specs.Prelude.{◌≤◌, IfOk, vec_len};

use dossier::limits::MOST_INPUT_BYTES;
use std::alloc::Global;
use std::io;
use std::io::Read;

// One byte more than a dossier may have: an input that is too long is known by it, and is not read on.
const MOST: usize = MOST_INPUT_BYTES + 1;

// What comes from `input`, up to its end or up to `most` bytes.
// No contract of `take` says that it keeps to its limit, so what lay beyond it would be cut off here.
fn read_at_most<R: Read + Drop>(heap: Global, input: R, most: usize) -> io::Result<Vec<u8>>
    ensures { IfOk result (λ bytes. vec_len bytes ≤ most) }
{
    let mut bytes = Vec::new(heap);
    input.take(most as u64).read_to_end(&mut bytes)?;
    bytes.truncate(most);
    Ok(bytes)
}

fn main(rt: HostRuntime) -> io::Result<()> {
    let heap = rt.alloc();
    let input = read_at_most(heap, rt.stdin(), MOST)?;
    let line = dossier::line(heap, input.as_slice())?;
    rt.print(line)
}
