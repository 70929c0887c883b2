// What the programs read.
#![tactic(auto)]

ghost use Rattle.std.specs.Prelude.{◌≡◌, ◌≤◌, IfOk, length, take};
ghost use Rattle.input.specs.Kept.{kept};

mod front;

pub use front::Front;
use std::io;
use std::io::Read;

// One byte more than a plan text may have: of a longer one this much shows the fault.
pub const PLAN_ROOM: usize = 8193;

// how many bytes are asked for at a time
const CHUNK: usize = 512;

// Reads the input to its end, however long it is, and adds its bytes to the front that is kept; what was kept before stays in front,
// also where a read fails. How many bytes came is all that the standard library says of a read; that they are those of the input,
// and that 0 of them are its end, is trusted.
pub fn fill_front(input: &mut impl Read, front: &mut Front) -> io::Result<()>
    ensures { take (length (kept front.old)) (kept front.new) ≡ kept front.old }
{
    let mut chunk = [0u8; CHUNK];
    // every loop is proved to end: so many reads never come
    for _ in 0..u64::MAX {
        let count = input.read(&mut chunk)?;
        if count == 0 {
            break;
        }
        front.push(&chunk[0..count]);
    }
    Ok(())
}

// Reads the input to its end, however long it is, and keeps its first bytes: answers how many of them `text` holds.
pub fn read_front(input: &mut impl Read, text: &mut [u8; PLAN_ROOM]) -> io::Result<usize>
    ensures { IfOk result (λ n. n ≤ 8193) }
{
    let mut filled = 0;
    while filled < PLAN_ROOM {
        let more = input.read(&mut text[filled..])?;
        if more == 0 {
            return Ok(filled);
        }
        filled += more;
    }
    // there is room for no more: the rest is read and forgotten
    fill_front(input, &mut Front::new())?;
    Ok(filled)
}
