// The qualifiers of feature_table.rs, scanned: where each one's texts stand and how long they are. Nothing is written.
#![tactic(auto)]

ghost use Rattle.std.specs.Prelude.{◌≤◌, ◌<◌, length, drop};
ghost use Rattle.spec_format.specs.Readers.{got, fit_turn, members, many0};
ghost use Rattle.spec_format.specs.Features.{qualifier};
ghost use Rattle.scan_bytes.specs.Places.{part};
ghost use Rattle.read_feature_names.specs.Headed.{with_key};
ghost use Rattle.read_feature_qualifiers.specs.Reads.{QualifierRead, QualifiersRead};

use read_feature_key_end::Tail;
use read_feature_names::Key;

// A qualifier's value: none, or one that starts at `from`, with its length and how it was read.
#[derive(Clone, Copy)]
pub enum ValueAt {
    Absent,
    With {
        from: usize,
        quoted: bool,
        length: usize,
    },
}

// A qualifier's key is first..end, `joined` where it is `translation`; `bytes` are the lengths of key and value, and `next` is the place after it.
#[derive(Clone, Copy)]
pub enum QualifierAt {
    Got {
        first: usize,
        end: usize,
        joined: bool,
        value: ValueAt,
        bytes: usize,
        next: usize,
    },
    No,
    Cut,
}

// How many qualifiers stand one after the other, the lengths of their texts, and the place after them.
#[derive(Clone, Copy)]
pub enum QualifiersAt {
    Got {
        count: usize,
        bytes: usize,
        next: usize,
    },
    Cut,
}

// The qualifier that starts at `at`, once its key is read.
fn qualifier_from(s: &[u8], at: usize, indent: usize, first: usize, end: usize) -> QualifierAt
    requires { (at < first) × (first < end) × (end ≤ length s.now) }
    ensures { QualifierRead s.now at indent (with_key indent (got (part first end s.now) (drop end s.now))) result }
{
    let joined = base_keys::translation_key(&s[first..end]);
    match read_feature_key_end::tail_at(s, end, indent, joined) {
        Tail::Absent(next) => QualifierAt::Got {
            first,
            end,
            joined,
            value: ValueAt::Absent,
            bytes: end - first,
            next,
        },
        Tail::With {
            from,
            quoted,
            length,
            next,
        } => QualifierAt::Got {
            first,
            end,
            joined,
            value: ValueAt::With {
                from,
                quoted,
                length,
            },
            bytes: end - first + length,
            next,
        },
        Tail::No => QualifierAt::No,
        Tail::Cut => QualifierAt::Cut,
    }
}

pub fn qualifier_at(s: &[u8], at: usize, indent: usize) -> QualifierAt
    requires { at ≤ length s.now }
    ensures { QualifierRead s.now at indent (qualifier indent (drop at s.now)) result }
{
    match read_feature_names::key_at(s, at, indent) {
        Key::Got { first, end } => qualifier_from(s, at, indent, first, end),
        Key::No => QualifierAt::No,
        Key::Cut => QualifierAt::Cut,
    }
}

// The qualifiers of a feature.
pub fn qualifiers_at(s: &[u8], at: usize, indent: usize) -> QualifiersAt
    requires { at ≤ length s.now }
    ensures { QualifiersRead s.now at (members (fit_turn (qualifier indent)) (drop at s.now)) (many0 (qualifier indent) (drop at s.now)) result }
{
    let mut i = at;
    let mut count = 0;
    let mut bytes = 0;
    loop {
        match qualifier_at(s, i, indent) {
            QualifierAt::Got {
                first: _,
                end: _,
                joined: _,
                value: _,
                bytes: more,
                next,
            } => {
                count += 1;
                bytes += more;
                i = next;
            }
            QualifierAt::No => {
                return QualifiersAt::Got {
                    count,
                    bytes,
                    next: i,
                };
            }
            QualifierAt::Cut => return QualifiersAt::Cut,
        }
    }
}
