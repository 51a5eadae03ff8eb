// The line of a file that a refusal is about, and the message that says so: `plasmids.gb: line 4012 (record 3): 7, ..`, and then the line itself.
#![tactic(auto)]

ghost use Rattle.std.specs.Prelude.{◌≡◌, ◌≤◌, length, drop};
ghost use Rattle.spec_lines.specs.Lines.{spot_of};
ghost use Rattle.spec_lines.specs.Troubles.{searched};

use app_options::Options;
use spec_lines::Spot;
use std::env::Env;
use std::io;
use std::io::Write;

// ---- the line

// The file's line that an offset lies in: the lines of the records before it are counted in.
pub fn file_line(input: &[u8], offset: usize) -> usize
    ensures { result ≡ (spot_of input.now 0 (drop offset input.now)).line }
{
    scan_spot::spot_at(input, 0, offset.min(input.len())).line
}

// Where the LOCUS line stands of the record that is read at a place.
pub fn locus_place(input: &[u8], at: usize) -> usize
    ensures upper_bound { result ≤ length input.now }
    ensures input_value { drop result input.now ≡ searched (drop at input.now) }
{
    read_preamble::search_at(input, at.min(input.len()))
}

// ---- bytes as they are shown

// A space to `~` is shown as it is, and takes a column; of the others three have a letter, after a backslash, and the rest two digits.
fn columns_of(b: u8) -> usize {
    match b {
        b' '..=b'~' => 1,
        b'\t' | b'\n' | b'\r' => 2,
        _ => 4,
    }
}

fn show_byte<W: Write>(out: &mut W, b: u8) -> io::Result<()> {
    match b {
        b' '..=b'~' => out.write_all(&[b]),
        b'\t' => out.write_all(b"\\t"),
        b'\n' => out.write_all(b"\\n"),
        b'\r' => out.write_all(b"\\r"),
        _ => write!(out, "\\x{b:02x}"),
    }
}

// In a file's name bytes above 127 stay as they are: whoever gave it can read it.
fn show_name_byte<W: Write>(out: &mut W, b: u8) -> io::Result<()> {
    if b.is_ascii() {
        show_byte(out, b)
    } else {
        out.write_all(&[b])
    }
}

// ---- the line itself

// Whether LF stands here, or CR and LF.
fn ends_line(rest: &[u8]) -> bool {
    rest.starts_with(b"\n") || rest.starts_with(b"\r\n")
}

// A line from a place on, without its end, as far as the columns go; a byte that does not fit whole is left out.
fn show_cut<W: Write>(out: &mut W, rest: &[u8], columns: usize) -> io::Result<()> {
    let mut left = columns;
    for (i, &b) in rest.iter().enumerate() {
        let n = columns_of(b);
        if ends_line(&rest[i..]) || left < n {
            break;
        }
        left -= n;
        show_byte(out, b)?;
    }
    Ok(())
}

// The line that begins at a place; where it has no byte, a word for that.
fn show_line<W: Write>(out: &mut W, input: &[u8], from: usize, columns: usize) -> io::Result<()> {
    if input.len() <= from {
        return out.write_all(b"(the end of the input)\n");
    }
    let rest = &input[from..];
    if ends_line(rest) {
        return out.write_all(b"(an empty line)\n");
    }
    show_cut(out, rest, columns)?;
    out.write_all(b"\n")
}

// ---- the message

// What is refused: the record's ordinal and the number; and how that is said.
#[derive(Clone, Copy)]
pub struct Message {
    pub ordinal: usize,
    pub number: usize,
    pub options: Options,
}

// The input's name, if it has one; one of more than 4,091 bytes is left out.
fn show_name<E: Env, W: Write>(env: &E, out: &mut W, name: usize) -> io::Result<()> {
    let mut word = [0u8; 4096];
    if name == 0 {
        return Ok(());
    }
    let Ok(n) = env.arg(name, &mut word) else {
        return Ok(());
    };
    for &b in word[..n].iter().skip(5) {
        show_name_byte(out, b)?;
    }
    out.write_all(b": ")
}

impl Message {
    // The number and its words.
    fn show_number<W: Write>(self, out: &mut W) -> io::Result<()> {
        write!(out, ": {}, ", self.number)?;
        base_numbers::tell(out, self.number)?;
        out.write_all(b"\n")
    }

    // A message about the line that begins at an offset.
    fn tell_line<E: Env, W: Write>(
        self,
        env: &E,
        out: &mut W,
        input: &[u8],
        offset: usize,
    ) -> io::Result<()> {
        let line = file_line(input, offset);
        show_name(env, out, self.options.name)?;
        write!(out, "line {line} (record {})", self.ordinal)?;
        self.show_number(out)?;
        show_line(out, input, offset, self.options.columns)
    }

    // A record was not read: the message, with the line that the answer tells, if it tells one.
    pub fn tell_unread<E: Env, W: Write>(
        self,
        env: &E,
        out: &mut W,
        input: &[u8],
        spot: Spot,
    ) -> io::Result<()> {
        if spot.line != 0 {
            return self.tell_line(env, out, input, spot.offset);
        }
        show_name(env, out, self.options.name)?;
        write!(out, "record {}", self.ordinal)?;
        self.show_number(out)
    }

    // The record that was read at a place was not written: the message, with its LOCUS line.
    pub fn tell_unwritten<E: Env, W: Write>(
        self,
        env: &E,
        out: &mut W,
        input: &[u8],
        at: usize,
    ) -> io::Result<()> {
        self.tell_line(env, out, input, locus_place(input, at))
    }
}
