// The heads of the feature table: its first line, a feature up to its location, a qualifier up to its value (feature_table.rs). Nothing is written.
#![tactic(auto)]

ghost use Rattle.std.specs.Prelude.{◌≡◌, ◌-◌, ◌≤◌, ◌<◌, length, drop};
ghost use Rattle.spec_format.specs.Bytes.{all, visible};
ghost use Rattle.spec_format.specs.Features.{features_header, qualifier_key, kind_text};
ghost use Rattle.scan_bytes.specs.Places.{part};
ghost use Rattle.scan_bytes.specs.Views.{Emptied};
ghost use Rattle.read_feature_names.specs.Headed.{header_words, header_gap, kind_gap, kind_from, feature_head, KindRead, key_slash, key_head, KeyRead};

use scan_bytes::Step;

// A feature's kind is first..end, and its location starts at `next`.
#[derive(Clone, Copy)]
pub enum Kind {
    Got {
        first: usize,
        end: usize,
        next: usize,
    },
    No,
    Cut,
}

// A qualifier's key is first..end.
#[derive(Clone, Copy)]
pub enum Key {
    Got { first: usize, end: usize },
    No,
    Cut,
}

// Whether each byte of a part is visible.
fn all_visible(s: &[u8], from: usize, to: usize) -> bool
    requires { (from ≤ to) × (to ≤ length s.now) }
    ensures { result ≡ all visible (part from to s.now) }
{
    let mut i = from;
    while i < to {
        if !scan_bytes::is_visible(s[i]) {
            return false;
        }
        i += 1;
    }
    true
}

fn kind_fits(s: &[u8], from: usize, to: usize) -> bool
    requires { (from < to) × (to ≤ length s.now) }
    ensures { result ≡ kind_text (part from to s.now) }
{
    if s[from] == b'/' {
        return false;
    }
    all_visible(s, from, to)
}

// The spaces after a kind.
fn kind_gap(s: &[u8], at: usize, first: usize, end: usize) -> Kind
    requires { (at < first) × (first < end) × (end ≤ length s.now) }
    ensures { KindRead s.now at (kind_gap (first - at) (part first end s.now) (drop end s.now)) result }
{
    match scan_bytes::spaces1(s, end) {
        Step::No => Kind::No,
        Step::Cut => Kind::Cut,
        Step::Got(next) => Kind::Got {
            first: first,
            end: end,
            next: next,
        },
    }
}

// From the kind on.
fn kind_from(s: &[u8], at: usize, first: usize) -> Kind
    requires { (at < first) × (first ≤ length s.now) }
    ensures { KindRead s.now at (kind_from (first - at) (drop first s.now)) result }
{
    match scan_bytes::until_space(s, first) {
        Step::No => Kind::No,
        Step::Cut => Kind::Cut,
        Step::Got(end) => {
            if !kind_fits(s, first, end) {
                return Kind::No;
            }
            kind_gap(s, at, first, end)
        }
    }
}

// The head of a feature: spaces, kind, spaces. All before the location is the feature's indent.
pub fn kind_at(s: &[u8], at: usize) -> Kind
    requires { at ≤ length s.now }
    ensures { KindRead s.now at (feature_head (drop at s.now)) result }
{
    match scan_bytes::spaces1(s, at) {
        Step::No => Kind::No,
        Step::Cut => Kind::Cut,
        Step::Got(first) => kind_from(s, at, first),
    }
}

// A key, up to `=` or the line's end: any that is UTF-8, there is no list of allowed keys.
fn key_text(s: &[u8], at: usize, from: usize) -> Key
    requires { (at < from) × (from ≤ length s.now) }
    ensures { KeyRead s.now at (qualifier_key (drop from s.now)) result }
{
    match scan_bytes::until_key_end(s, from) {
        Step::No => Key::No,
        Step::Cut => Key::Cut,
        Step::Got(end) => {
            if scan_utf8::utf8_ok(s, from, end) {
                return Key::Got {
                    first: from,
                    end: end,
                };
            }
            Key::No
        }
    }
}

// The `/` before a key.
fn key_slash(s: &[u8], at: usize, from: usize) -> Key
    requires { (at ≤ from) × (from ≤ length s.now) }
    ensures { KeyRead s.now at (key_slash (drop from s.now)) result }
{
    if s.len() <= from {
        return Key::Cut;
    }
    if s[from] != b'/' {
        return Key::No;
    }
    key_text(s, at, from + 1)
}

// The head of a qualifier: its indent, `/` and its key.
pub fn key_at(s: &[u8], at: usize, indent: usize) -> Key
    requires { at ≤ length s.now }
    ensures { KeyRead s.now at (key_head indent (drop at s.now)) result }
{
    match scan_bytes::indent(s, at, indent) {
        Step::No => Key::No,
        Step::Cut => Key::Cut,
        Step::Got(from) => key_slash(s, at, from),
    }
}

// The feature table's first line, from its last words on; it starts at `at`.
fn header_words(s: &[u8], at: usize, from: usize) -> Step
    requires { (at ≤ from) × (from ≤ length s.now) }
    ensures { Emptied s.now at (header_words (drop from s.now)) result }
{
    match scan_bytes::tag(s, from, b"Location/Qualifiers") {
        Step::No => Step::No,
        Step::Cut => Step::Cut,
        Step::Got(end) => scan_bytes::line_end(s, end),
    }
}

// The same from its blanks on.
fn header_gap(s: &[u8], at: usize, from: usize) -> Step
    requires { (at ≤ from) × (from ≤ length s.now) }
    ensures { Emptied s.now at (header_gap (drop from s.now)) result }
{
    match scan_bytes::blanks1(s, from) {
        Step::No => Step::No,
        Step::Cut => Step::Cut,
        Step::Got(words) => header_words(s, at, words),
    }
}

// The feature table's first line.
pub fn features_header(s: &[u8], at: usize) -> Step
    requires { at ≤ length s.now }
    ensures { Emptied s.now at (features_header (drop at s.now)) result }
{
    match scan_bytes::tag(s, at, b"FEATURES") {
        Step::No => Step::No,
        Step::Cut => Step::Cut,
        Step::Got(gap) => header_gap(s, at, gap),
    }
}
