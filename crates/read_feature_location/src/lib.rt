// A feature's location: a bare text that has a reading (document 02, ticket 1), found where it stands, its rows put into lent room; and number 14.
#![tactic(auto)]

ghost use Rattle.std.specs.Prelude.{◌≡◌, false, ◌≤◌, length, drop};
ghost use Rattle.spec_format.specs.Readers.{passing};
ghost use Rattle.spec_format.specs.Features.{bare};
ghost use Rattle.spec_format.specs.Location.{reading, is_deep, locates};
ghost use Rattle.spec_format.specs.Deep.{deep_feature};
ghost use Rattle.scan_location_bytes.specs.Views.{view};
ghost use Rattle.read_feature_bare.specs.Bared.{bare_text};
ghost use Rattle.read_feature_location.specs.Places.{taken_of, LocationFound, LocationPut};

use read_feature_bare::Stretch;
use read_feature_names::Kind;
use read_location::Location;
use scan_location_bytes::Laid;

// A location's length, the place after it, how many rows its reading has, and whether it is known to stand in one line.
#[derive(Clone, Copy)]
pub enum Located {
    Got {
        length: usize,
        next: usize,
        rows: usize,
        line: bool,
    },
    No,
    Cut,
}

// A text that has no reading is not taken, be it too deep.
fn taken(found: Location, length: usize, next: usize, line: bool) -> Located
    ensures { result ≡ taken_of found length next line }
{
    match found {
        Location::Read { rows, same: _ } => Located::Got {
            length,
            next,
            rows,
            line,
        },
        Location::None => Located::No,
        Location::TooDeep => Located::No,
    }
}

// Its rows are put into `out` from row `first` on; past the end of `out` nothing is put. A text in one line, as most are, is read by itself, with no look for further lines.
pub fn put_location(s: &[u8], at: usize, indent: usize, out: &mut [usize], first: usize) -> Located
    requires { (at ≤ length s.now) × (length s.now ≤ 16777216) × (first ≤ 16777216) }
    ensures { LocationPut s.now at (bare_text indent (drop at s.now)) (passing (locates false) (bare indent (drop at s.now))) out.old out.new first result }
{
    match read_feature_bare::stretch_at(s, at, indent) {
        Stretch::Line { end, next } => {
            let text = &s[at..end];
            let found = read_location::piece_at(text, false, out, &[], first);
            taken(found, end - at, next, true)
        }
        Stretch::Lines { length, next } => {
            let laid = Laid::Feature(indent);
            let found = read_location::location_at(s, laid, false, at, out, &[], first);
            taken(found, length, next, false)
        }
        Stretch::No => Located::No,
        Stretch::Cut => Located::Cut,
    }
}

// The same, and nothing is put.
pub fn location_at(s: &[u8], at: usize, indent: usize) -> Located
    requires { (at ≤ length s.now) × (length s.now ≤ 16777216) }
    ensures { LocationFound s.now at (bare_text indent (drop at s.now)) (passing (locates false) (bare indent (drop at s.now))) result }
{
    put_location(s, at, indent, &mut [], 0)
}

// Whether a seventeenth word opens in the text so far, with no fault before it.
pub fn too_deep(s: &[u8], laid: Laid, gaps: bool, at: usize) -> bool
    requires { (at ≤ length s.now) × (length s.now ≤ 16777216) }
    ensures { result ≡ is_deep (reading gaps (view laid s.now at)) }
{
    match read_location::location_at(s, laid, gaps, at, &mut [], &[], 0) {
        Location::Read { rows: _, same: _ } => false,
        Location::None => false,
        Location::TooDeep => true,
    }
}

// Whether a feature stands at `at` whose location is too deep.
pub fn deep_feature_at(s: &[u8], at: usize) -> bool
    requires { (at ≤ length s.now) × (length s.now ≤ 16777216) }
    ensures { result ≡ deep_feature (drop at s.now) }
{
    match read_feature_names::kind_at(s, at) {
        Kind::Got {
            first: _,
            end: _,
            next,
        } => too_deep(s, Laid::Feature(next - at), false, next),
        Kind::No => false,
        Kind::Cut => false,
    }
}
