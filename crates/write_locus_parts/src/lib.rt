// Parts of the LOCUS line: the molecule type, the topology and the date, each in its columns.
#![tactic(auto)]

ghost use Rattle.spec_format.specs.Bytes.{is};
ghost use Rattle.spec_format.specs.Dates.{month_name, date_text};
ghost use Rattle.spec_format.specs.Write.{padded, molecule_text, topology_text};
ghost use Rattle.base_pen.specs.Pen.{Writes};
ghost use Rattle.write_locus_parts.specs.Locus.{day_text, year_text};

use base_arith::left_of;
use base_pen::{put, put_all, put_spaces};
use spec_format::Date;
use write_field::put_padded;

const MONTHS: [u8; 36] = *b"JANFEBMARAPRMAYJUNJULAUGSEPOCTNOVDEC";

// A molecule type in seven columns.
pub fn put_molecule(out: &mut [u8], at: usize, molecule: &[u8], truncate: bool) -> usize
    ensures { Writes out.old at (padded 7 (molecule_text truncate (is molecule.now))) out.new result }
{
    if truncate {
        if 7 < molecule.len() {
            return put_spaces(out, at, 7);
        }
        return put_padded(out, at, molecule, 7);
    }
    put_padded(out, at, molecule, 7)
}

pub fn put_topology(out: &mut [u8], at: usize, circular: bool) -> usize
    ensures { Writes out.old at (padded 8 (topology_text circular)) out.new result }
{
    if circular {
        return put_all(out, at, b"circular");
    }
    put_all(out, at, b"linear  ")
}

fn put_day(out: &mut [u8], at: usize, day: u8) -> usize
    ensures { Writes out.old at (day_text day) out.new result }
{
    let a = put(out, at, b'0' + day / 10);
    let b = put(out, a, b'0' + day % 10);
    put(out, b, b'-')
}

// Three letters; none for a month that there is not.
fn put_month(out: &mut [u8], at: usize, month: u8) -> usize
    ensures { Writes out.old at (month_name month) out.new result }
{
    if 12 < month {
        return at;
    }
    let names = MONTHS;
    let from = left_of(month as usize, 1) * 3;
    put_all(out, at, &names[from..from + 3])
}

fn put_year(out: &mut [u8], at: usize, year: u16) -> usize
    ensures { Writes out.old at (year_text year) out.new result }
{
    let a = put(out, at, b'-');
    let b = put(out, a, b'0' + (year / 10 / 10 / 10) as u8);
    let c = put(out, b, b'0' + (year / 10 / 10 % 10) as u8);
    let d = put(out, c, b'0' + (year / 10 % 10) as u8);
    put(out, d, b'0' + (year % 10) as u8)
}

pub fn put_date(out: &mut [u8], at: usize, date: Date) -> usize
    ensures { Writes out.old at (date_text date) out.new result }
{
    let a = put_day(out, at, date.day);
    let b = put_month(out, a, date.month);
    put_year(out, b, date.year)
}
