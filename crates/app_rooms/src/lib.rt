// Rooms that a stack of 8 MiB holds: an input and a record of up to 524,288 bytes, 1,024 references and comments, 32,768 qualifiers, 16,384 location rows; and an input read into one.
#![tactic(auto)]

ghost use Rattle.std.specs.Prelude.{length, ◌≡◌, ◌≤◌, IfOk};

use std::io;
use std::io::Read;

// The input, and one byte by which a longer one is known.
pub const INPUT: usize = 524289;

// Texts, or letters.
pub const TEXTS: usize = 524288;

// 14, 2, 4 and 7 numbers a row.
pub const REFERENCES: usize = 14336;

pub const COMMENTS: usize = 2048;

pub const QUALIFIERS: usize = 131072;

pub const LOCATIONS: usize = 114688;

// What is written: four times the input.
pub const OUT: usize = 2097152;

// What a record is read into, but for its features.
#[derive(Drop)]
pub struct Rooms<'a> {
    pub texts: &'a mut [u8],
    pub references: &'a mut [usize],
    pub comments: &'a mut [usize],
    pub qualifiers: &'a mut [usize],
    pub locations: &'a mut [usize],
    pub letters: &'a mut [u8],
}

// An empty room of N items. The contract says its length alone, so that a proof about a program does not write it out.
pub fn room<T: Copy, const N: usize>(empty: T) -> [T; N]
    ensures { N ≡ length result }
{
    [empty; N]
}

// Reads until the room is full or the input ends; how many bytes then stand at the room's start.
pub fn fill<R: Read>(input: &mut R, room: &mut [u8]) -> io::Result<usize>
    ensures { IfOk result (λ n. n ≤ length room.new) }
{
    let mut done = 0;
    while done < room.len() {
        let n = input.read(&mut room[done..])?;
        if n == 0 {
            break;
        }
        done += n;
    }
    Ok(done)
}
