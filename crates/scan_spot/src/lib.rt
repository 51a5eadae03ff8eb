// The line that a place lies in, counted from another place on, and where it begins: a walk with the line reader.
#![tactic(auto)]

ghost use Rattle.std.specs.Prelude.{◌≡◌, ◌≤◌, length, drop};
ghost use Rattle.spec_lines.specs.Lines.{spot_of};
ghost use Rattle.scan_spot.specs.Search.{first_line, Arrived, Turned};

use spec_lines::Spot;

// The line that the search has reached, and whether the place lies behind its first byte.
#[derive(Clone, Copy)]
pub struct Sought {
    pub more: bool,
    pub spot: Spot,
}

// The line that the counting begins with.
fn first_line(at: usize, place: usize) -> Sought
    ensures { result ≡ first_line at place }
{
    Sought {
        more: at < place,
        spot: Spot {
            line: 1,
            offset: at,
        },
    }
}

// The reader went past a line, which is the place's own unless an LF ends it at or before the place.
fn past_feed(s: &[u8], place: usize, sought: Sought, next: usize) -> Sought
    requires { Arrived s.now place sought.spot next }
    ensures { Turned s.now place sought.spot next result }
{
    let here = sought.spot;
    if place < next {
        return Sought {
            more: false,
            spot: here,
        };
    }
    if s[next - 1] == b'\n' {
        return Sought {
            more: next < place,
            spot: Spot {
                line: here.line + 1,
                offset: next,
            },
        };
    }
    Sought {
        more: false,
        spot: here,
    }
}

// The line that a place lies in, counted from 1 at another, and the offset of its first byte.
pub fn spot_at(s: &[u8], at: usize, place: usize) -> Spot
    requires { (at ≤ place) × (place ≤ length s.now) }
    ensures { result ≡ spot_of s.now at (drop place s.now) }
{
    let mut sought = first_line(at, place);
    let mut reader = scan_lines::reader_at(s, at);
    while sought.more {
        let next = scan_lines::next_feed(&mut reader);
        sought = past_feed(s, place, sought, next);
    }
    sought.spot
}
