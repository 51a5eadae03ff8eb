// Letters by their IUPAC codes, tested without a branch, so that the compiler makes loops over them of many bytes at once.
#![tactic(auto)]

ghost use Rattle.std.specs.Prelude.{◌≡◌};
ghost use Rattle.spec_bases.specs.Bases.{coded};
ghost use Rattle.scan_bases.specs.Common.{common};

use base_arith::either;

// Whether a letter has a code. Bit 32 makes a capital small, and of no other byte a letter.
pub fn is_coded(b: u8) -> bool
    ensures { result ≡ coded b }
{
    let c = b | 32;
    let a_to_d = scan_bytes::is_between(b'a', b'd', c);
    let g_to_h = scan_bytes::is_between(b'g', b'h', c);
    let m_to_n = scan_bytes::is_between(b'm', b'n', c);
    let r_to_w = scan_bytes::is_between(b'r', b'w', c);
    either(
        either(a_to_d, either(g_to_h, c == b'k')),
        either(m_to_n, either(r_to_w, c == b'y')),
    )
}

// Whether a letter stands for one base alone or for all, as nearly all letters do: A, C, G, T, U or N. That takes half as many comparisons.
pub fn is_common(b: u8) -> bool
    ensures { result ≡ common b }
{
    let c = b | 32;
    either(
        either(c == b'a', either(c == b'c', c == b'g')),
        either(c == b't', either(c == b'u', c == b'n')),
    )
}
