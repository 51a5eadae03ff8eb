// Where a record's header begins and ends, and its second DEFINITION: found anew after a refusal.
#![tactic(auto)]

ghost use Rattle.std.specs.Prelude.{◌≤◌, length, drop};
ghost use Rattle.spec_format.specs.Header.{header_field};
ghost use Rattle.spec_format.specs.Record.{left_by};
ghost use Rattle.spec_lines.specs.Stands.{Stands};
ghost use Rattle.spec_lines.specs.Troubles.{header_begins, header_ends, to_definition, definition, second_definition};
ghost use Rattle.read_preamble.specs.Onwards.{Onwards};

use read_field_any::FieldAt;
use read_field_optional::MayEntry;
use read_locus_at::LocusAt;
use read_preamble::Onward;

// The place after the LOCUS line, or where the search for it ended.
pub fn header_begins(s: &[u8], at: usize) -> usize
    requires { at ≤ length s.now }
    ensures { Stands s.now at (header_begins (drop at s.now)) result }
{
    let found = read_preamble::search_at(s, at);
    match read_locus_at::locus_at(s, found) {
        LocusAt::Got { plan: _, next } => next,
        LocusAt::No => found,
        LocusAt::Cut => found,
    }
}

// The place after the header's fields.
pub fn header_ends(s: &[u8], at: usize) -> usize
    requires { at ≤ length s.now }
    ensures { Stands s.now at (header_ends (drop at s.now)) result }
{
    let begins = header_begins(s, at);
    let header = read_field_all::header_at(s, begins);
    header.next
}

// A field is passed that is no DEFINITION.
fn definition_turn(s: &[u8], at: usize) -> Onward
    requires { at ≤ length s.now }
    ensures { Onwards to_definition s.now at result }
{
    match read_field_any::header_field_at(s, at) {
        FieldAt::Got { field, next } => match read_field_all::definition_in(field) {
            MayEntry::Absent => Onward::To(next),
            MayEntry::Is(_) => Onward::Stop,
        },
        FieldAt::No => Onward::Stop,
        FieldAt::Cut => Onward::Stop,
    }
}

// The place of the next DEFINITION, or where the fields end.
fn next_definition(s: &[u8], at: usize) -> usize
    requires { at ≤ length s.now }
    ensures { Stands s.now at (definition (drop at s.now)) result }
{
    let mut i = at;
    loop {
        match definition_turn(s, i) {
            Onward::To(next) => {
                i = next;
            }
            Onward::Stop => return i,
        }
    }
}

// The place after a field, if one stands there.
fn past_field(s: &[u8], at: usize) -> usize
    requires { at ≤ length s.now }
    ensures { Stands s.now at (left_by (drop at s.now) (header_field (drop at s.now))) result }
{
    match read_field_any::header_field_at(s, at) {
        FieldAt::Got { field: _, next } => next,
        FieldAt::No => at,
        FieldAt::Cut => at,
    }
}

// The place of the second DEFINITION of a header that begins here.
pub fn second_definition(s: &[u8], at: usize) -> usize
    requires { at ≤ length s.now }
    ensures { Stands s.now at (second_definition (drop at s.now)) result }
{
    let first = next_definition(s, at);
    let after = past_field(s, first);
    next_definition(s, after)
}
