// The arguments of the programs: a width, `keep`, `truncate`, `escape`, `strict`, in any order; and two that the scripts pass on, `columns=` and `name=`, which say how a message is printed.
#![tactic(auto)]

ghost use Rattle.std.specs.Prelude.{◌<◌, IfSome};

use std::env::{Env, FillError};

#[derive(Clone, Copy)]
pub struct Options {
    pub width: usize,
    pub keep: bool,
    pub truncate: bool,
    pub escape: bool,
    pub strict: bool,
    // How many columns a message's line may take.
    pub columns: usize,
    // Which argument is `name=` and the input's name; 0, which is the program's own name, where none is.
    pub name: usize,
}

// Width 80, all switches off, and messages of 80 columns without a name.
impl Default for Options {
    fn default() -> Options {
        Options {
            width: 80,
            keep: false,
            truncate: false,
            escape: false,
            strict: false,
            columns: 80,
            name: 0,
        }
    }
}

fn digit(b: u8) -> Option<usize>
    ensures { IfSome result (λ value. value < 10) }
{
    if (b'0'..=b'9').contains(&b) {
        Some(usize::from(b - b'0'))
    } else {
        None
    }
}

// The number that two or three digits say.
fn number(word: &[u8]) -> Option<usize> {
    match word {
        [a, b] => Some(digit(*a)? * 10 + digit(*b)?),
        [a, b, c] => Some(digit(*a)? * 100 + digit(*b)? * 10 + digit(*c)?),
        _ => None,
    }
}

impl Options {
    // With one more word, if it is one that is known: `columns=` says 20 to 999, a width is 60 to 132.
    fn with_word(self, word: &[u8]) -> Option<Options> {
        let mut options = self;
        match word {
            b"keep" => options.keep = true,
            b"truncate" => options.truncate = true,
            b"escape" => options.escape = true,
            b"strict" => options.strict = true,
            _ => match word.strip_prefix(b"columns=") {
                Some(columns) => {
                    options.columns = number(columns).filter(|n| (20..=999).contains(n))?;
                }
                None => options.width = number(word).filter(|n| (60..=132).contains(n))?,
            },
        }
        Some(options)
    }
}

// What the program's arguments ask for, if they are understood. Sixteen bytes are enough for each word that is known; of a longer argument, as a name, they hold the
// start, which is all that is asked of it.
pub fn options_asked<E: Env>(env: &E) -> Option<Options> {
    let mut options = Options::default();
    for i in 1..usize::MAX {
        let mut word = [0u8; 16];
        match env.arg(i, &mut word) {
            Err(FillError::NotPresent) => break,
            Ok(_) | Err(_) if word.starts_with(b"name=") => options.name = i,
            Ok(n) => options = options.with_word(&word[..n])?,
            Err(_) => return None,
        }
    }
    Some(options)
}
