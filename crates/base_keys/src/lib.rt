// The keys of qualifiers that are written in a way of their own.
#![tactic(auto)]

ghost use Rattle.std.specs.Prelude.{◌≡◌, map};
ghost use Rattle.spec_format.specs.Bytes.{bytes, same, among};
ghost use Rattle.spec_format.specs.Write.{comma_key, bare_key};

// As a loop, and not by `==`, so that against a word the compiler tests the length and then the word's few bytes in place.
pub fn same_text(a: &[u8], b: &[u8]) -> bool
    ensures { result ≡ same a.now b.now }
{
    if a.len() != b.len() {
        return false;
    }
    for (i, x) in a.iter().enumerate() {
        if *x != b[i] {
            return false;
        }
    }
    true
}

// Whether it is one of the words.
fn among(key: &[u8], words: &[&[u8]]) -> bool
    ensures { result ≡ among key.now (map (λ w. w.now) words.now) }
{
    for w in words {
        if same_text(key, w) {
            return true;
        }
    }
    false
}

// Its value is broken at commas.
pub fn comma_key(key: &[u8]) -> bool
    ensures { result ≡ comma_key key.now }
{
    among(key, &[b"anticodon", b"transl_except"])
}

// Its value is written without quotes.
pub fn bare_key(key: &[u8]) -> bool
    ensures { result ≡ bare_key key.now }
{
    among(
        key,
        &[
            b"anticodon",
            b"citation",
            b"codon_start",
            b"compare",
            b"direction",
            b"estimated_length",
            b"mod_base",
            b"number",
            b"rpt_type",
            b"rpt_unit_range",
            b"tag_peptide",
            b"transl_except",
            b"transl_table",
        ],
    )
}

pub fn translation_key(key: &[u8]) -> bool
    ensures { result ≡ same key.now (bytes "translation") }
{
    same_text(key, b"translation")
}
