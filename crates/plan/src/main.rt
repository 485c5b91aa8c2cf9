// Reads P as one byte, then a table, and writes the table's listing for P processors, or its refusal. It keeps the table's first 4,096
// bytes, which decide the answer. With no input at all there is no table byte, and whatever P is, the answer is the table's refusal.
#![tactic(auto)]

ghost use Rattle.std.specs.Prelude.{◌≤◌, length, IfOk};

use std::io;
use std::io::{Read, Write};

// More bytes of a table decide nothing.
const TABLE: usize = 4096;

// No listing is longer, so it is never refused.
const LINES: usize = 50000;

// Reads until the bytes are full or the input ends, and answers how many there are.
fn read_full<R: Read>(input: &mut R, bytes: &mut [u8]) -> io::Result<usize>
    ensures { IfOk result (λ n. n ≤ length bytes.new) }
{
    let mut done = 0;
    while done < bytes.len() {
        let n = input.read(&mut bytes[done..])?;
        if n == 0 {
            break;
        }
        done += n;
    }
    Ok(done)
}

fn main(rt: HostRuntime) -> io::Result<()> {
    let mut input = rt.stdin();
    let mut processors = [0u8; 1];
    read_full(&mut input, &mut processors)?;
    let mut table = [0u8; TABLE];
    let n = read_full(&mut input, &mut table)?;
    let mut lines = [0u8; LINES];
    match printing::print_plan(&table[..n], u32::from(processors[0]), &mut lines) {
        Ok(count) => rt.stdout().write_all(&lines[..count]),
        Err(_) => Ok(()),
    }
}
