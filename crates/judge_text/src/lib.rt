// The tests that numbers 11 and 13 make of a single text.
#![tactic(auto)]

ghost use Rattle.std.specs.Prelude.{ℕ, Bool, ◌≡◌, ◌+◌, ◌*◌, ◌≤◌, length};
ghost use Rattle.spec_format.specs.Bytes.{all, visible, printing, letter, but};
ghost use Rattle.spec_format.specs.WellFormed.{comma_text, kind_fine, key_fine};
ghost use Rattle.spec_format.specs.Keeping.{spaceless, lines_kept, header_kept, kind_kept, translation_kept, bare_kept, value_kept};
ghost use Rattle.spec_format.specs.Record.{most};

use base_keys::{bare_key, comma_key, translation_key};
use scan_bytes::{is_between, is_letter, is_visible};

// Whether each byte of a block passes a test. Nothing leaves the loop before the end, so that the compiler tests many bytes at once.
fn block_passes<F: Fn(u8) -> bool>(block: &[u8], test: &F) -> bool
    requires { F.IsAlwaysCallable test.now }
    ensures { (p : ℕ → Bool) → ((b : ℕ) (r : Bool) → F.post test.now b r → r ≡ p b) → result ≡ all p block.now }
{
    block.iter().fold(true, |ok, b| ok & test(*b))
}

// Whether each byte passes a test. A text that doesn't is left at the end of the block that tells, however long it is.
fn all_pass<F: Fn(u8) -> bool>(s: &[u8], test: F) -> bool
    requires { F.IsAlwaysCallable test }
    ensures { (p : ℕ → Bool) → ((b : ℕ) (r : Bool) → F.post test b r → r ≡ p b) → result ≡ all p s.now }
{
    for block in s.chunks(256) {
        if !block_passes(block, &test) {
            return false;
        }
    }
    true
}

// All bytes are 33 to 126.
fn visible_all(s: &[u8]) -> bool
    ensures { result ≡ all visible s.now }
{
    all_pass(s, is_visible)
}

// All bytes are 32 to 126.
pub fn printing_all(s: &[u8]) -> bool
    ensures { result ≡ all printing s.now }
{
    all_pass(s, |b| is_between(b' ', b'~', b))
}

pub fn letters_all(s: &[u8]) -> bool
    ensures { result ≡ all letter s.now }
{
    all_pass(s, is_letter)
}

// No byte is c.
pub fn without(s: &[u8], c: u8) -> bool
    ensures { result ≡ all (but c) s.now }
{
    all_pass(s, |b| b != c)
}

// A value that is broken at commas.
pub fn comma_fine(s: &[u8]) -> bool
    ensures { result ≡ comma_text s.now }
{
    !s.is_empty() && visible_all(s)
}

pub fn kind_fine(width: usize, kind: &[u8]) -> bool
    ensures { result ≡ kind_fine width kind.now }
{
    kind.len() <= width.saturating_sub(7)
        && !kind.is_empty()
        && visible_all(kind)
        && !kind.starts_with(b"/")
}

pub fn key_fine(width: usize, key: &[u8]) -> bool
    ensures { result ≡ key_fine width key.now }
{
    key.len() <= width.saturating_sub(25)
        && !key.is_empty()
        && visible_all(key)
        && without(key, b'=')
}

pub fn without_spaces(s: &[u8]) -> bool
    ensures { result ≡ spaceless s.now }
{
    !s.is_empty() && without(s, b' ')
}

// No CR, no LF at the end, and each line with what stands before it shorter than the width; quotes count twice where they are doubled.
#[tactic(auto, using(crate::proofs::Lines::kept))]
fn lines_kept(text: &[u8], quote: bool, width: usize, indent: usize, start: usize) -> bool
    requires back { indent ≤ start }
    requires fits { start + 2 * length text.now ≤ usize.MAX }
    ensures { result ≡ lines_kept quote width indent start text.now }
{
    let mut used = start;
    for (i, b) in text.iter().enumerate() {
        used = match *b {
            b'"' if quote => used + 2,
            b'\n' if used < width && i + 1 < text.len() => indent,
            b'\n' | b'\r' => return false,
            _ => used + 1,
        };
    }
    used < width
}

#[tactic(auto, unfolding(spec_format::specs::Keeping::header_kept))]
pub fn header_kept(width: usize, text: &[u8]) -> bool
    requires { length text.now ≤ most }
    ensures { result ≡ header_kept width text.now }
{
    lines_kept(text, false, width, 12, 12) && !text.starts_with(b" ")
}

pub fn kind_kept(kind: &[u8]) -> bool
    ensures { result ≡ kind_kept kind.now }
{
    kind.len() <= 15
}

#[tactic(auto, unfolding(spec_format::specs::Keeping::bare_kept))]
fn bare_kept(width: usize, key: &[u8], value: &[u8]) -> bool
    requires { (length key.now ≤ most) × (length value.now ≤ most) }
    ensures { result ≡ bare_kept width key.now value.now }
{
    without(value, b'\n')
        && without(value, b'\r')
        && !value.starts_with(b"\"")
        && 23 + key.len() + value.len() < width
}

fn translation_kept(value: &[u8]) -> bool
    ensures { result ≡ translation_kept value.now }
{
    visible_all(value) && without(value, b'"')
}

#[tactic(auto, unfolding(spec_format::specs::Keeping::value_kept))]
pub fn value_kept(width: usize, key: &[u8], value: &[u8]) -> bool
    requires { (length key.now ≤ most) × (length value.now ≤ most) }
    ensures { result ≡ value_kept width key.now value.now }
{
    if comma_key(key) {
        without(value, b'/') && !value.starts_with(b"\"")
    } else if bare_key(key) {
        bare_kept(width, key, value)
    } else if translation_key(key) {
        translation_kept(value)
    } else {
        lines_kept(value, true, width, 21, 24 + key.len())
    }
}
