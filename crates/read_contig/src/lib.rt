// CONTIG (misc.rs): an entry whose text has a reading as a location (document 02, ticket 1), and how many rows that has; and number 14. Nothing is written.
#![tactic(auto)]

ghost use Rattle.std.specs.Prelude.{◌≡◌, false, ◌≤◌, length, drop};
ghost use Rattle.spec_format.specs.Bytes.{bytes};
ghost use Rattle.spec_format.specs.Readers.{optional};
ghost use Rattle.spec_format.specs.Header.{field_bytes};
ghost use Rattle.spec_format.specs.Deep.{deep_contig};
ghost use Rattle.spec_format.specs.Record.{contig};
ghost use Rattle.read_field_entry.specs.Entries.{Known};
ghost use Rattle.read_contig.specs.Contigs.{deep_gap, ContigRead};

use read_field_entry::{Entry, EntryAt};
use read_field_optional::MayEntry;
use read_location::Location;
use scan_bytes::Step;
use scan_location_bytes::Laid;

// The entry, how many rows its reading has, and the place after it; or that a seventeenth word opens in it.
#[derive(Clone, Copy)]
pub enum ContigAt {
    Got {
        entry: MayEntry,
        rows: usize,
        next: usize,
    },
    Cut,
    Deep,
}

// Whether CONTIG's text, behind the spaces at `at`, is too deep; it stands as far in as word and spaces reach.
fn deep_gap(s: &[u8], at: usize) -> bool
    requires { (at ≤ length s.now) × (length s.now ≤ 16777216) }
    ensures { result ≡ deep_gap (drop at s.now) }
{
    match scan_bytes::spaces1(s, at) {
        Step::No => false,
        Step::Cut => false,
        Step::Got(text) => {
            read_feature_location::too_deep(s, Laid::Contig(text - at + 6), true, text)
        }
    }
}

// Whether a CONTIG stands at `at` whose text so far is too deep.
fn deep_contig_at(s: &[u8], at: usize) -> bool
    requires { (at ≤ length s.now) × (length s.now ≤ 16777216) }
    ensures { result ≡ deep_contig (drop at s.now) }
{
    match scan_bytes::tag(s, at, b"CONTIG") {
        Step::No => false,
        Step::Cut => false,
        Step::Got(gap) => deep_gap(s, gap),
    }
}

// An entry is taken where its text has a reading. That is read up to the entry's end: a line with a stray CR, which is none of its lines, may follow.
fn contig_from(s: &[u8], at: usize, entry: Entry) -> ContigAt
    requires { (at ≤ length s.now) × (length s.now ≤ 16777216) × Known s.now at false (field_bytes 0 (bytes "CONTIG") false (drop at s.now)) entry }
    ensures { ContigRead s.now false (optional (drop at s.now) (contig (drop at s.now))) result }
{
    let from = entry.text;
    let to = entry.next;
    let laid = Laid::Contig(entry.columns);
    match read_location::location_at(&s[from..to], laid, true, 0, &mut [], &[], 0) {
        Location::Read { rows, same: _ } => ContigAt::Got {
            entry: MayEntry::Is(entry),
            rows,
            next: entry.next,
        },
        Location::None => ContigAt::Got {
            entry: MayEntry::Absent,
            rows: 0,
            next: at,
        },
        Location::TooDeep => ContigAt::Got {
            entry: MayEntry::Absent,
            rows: 0,
            next: at,
        },
    }
}

pub fn contig_at(s: &[u8], at: usize) -> ContigAt
    requires { (at ≤ length s.now) × (length s.now ≤ 16777216) }
    ensures { ContigRead s.now (deep_contig (drop at s.now)) (optional (drop at s.now) (contig (drop at s.now))) result }
{
    if deep_contig_at(s, at) {
        return ContigAt::Deep;
    }
    match read_field_entry::bytes_at(s, at, 0, b"CONTIG", false) {
        EntryAt::Cut => ContigAt::Cut,
        EntryAt::No => ContigAt::Got {
            entry: MayEntry::Absent,
            rows: 0,
            next: at,
        },
        EntryAt::Got(entry) => contig_from(s, at, entry),
    }
}
