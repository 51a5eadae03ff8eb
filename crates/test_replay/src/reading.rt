// One stored reading: the slice is read again, and the number, what is told with it, all of each room and, if they are stored, the line and the offset are held against what is stored.
use api_told::reading_of;
use spec_contracts::Reading;
use spec_format::Sizes;
use test_stored_lines::{
    Checked, LINES, among, byte_at, byte_room, count_answer, count_one, lent, number_at,
    number_room, same_numbers, take_numbers, take_text,
};

fn and_then(so_far: Checked, next: usize, same: bool) -> Checked {
    if same {
        return Checked {
            next: next,
            same: so_far.same,
        };
    }
    Checked {
        next: next,
        same: false,
    }
}

// The whole room holds the text that the next field says, and nothing else.
fn text_as_stored(s: &[u8], so_far: Checked, room: &[u8]) -> Checked {
    let mut stored = byte_room();
    let field = take_text(s, so_far.next, &mut stored);
    and_then(so_far, field.next, base_keys::same_text(&stored, room))
}

fn numbers_as_stored(s: &[u8], so_far: Checked, room: &[usize]) -> Checked {
    let mut stored = number_room();
    let field = take_numbers(s, so_far.next, &mut stored);
    and_then(so_far, field.next, same_numbers(&stored, room))
}

fn rooms_as_stored(
    s: &[u8],
    so_far: Checked,
    texts: &[u8],
    references: &[usize],
    comments: &[usize],
    features: &[usize],
    qualifiers: &[usize],
    locations: &[usize],
    letters: &[u8],
) -> Checked {
    let a = text_as_stored(s, so_far, texts);
    let b = numbers_as_stored(s, a, references);
    let c = numbers_as_stored(s, b, comments);
    let d = numbers_as_stored(s, c, features);
    let e = numbers_as_stored(s, d, qualifiers);
    let f = numbers_as_stored(s, e, locations);
    text_as_stored(s, f, letters)
}

// Of `count` stored numbers, those behind the first are the head's.
fn head_as_stored(stored: &[usize], count: usize, head: [usize; 33]) -> bool {
    if count != 34 {
        return false;
    }
    if stored.len() < 34 {
        return false;
    }
    same_numbers(&stored[1..34], &head)
}

// Of `count` stored numbers, those behind the first are the sizes.
fn sizes_as_stored(stored: &[usize], count: usize, n: Sizes) -> bool {
    if count != 8 {
        return false;
    }
    if stored.len() < 8 {
        return false;
    }
    let sizes = [
        n.texts,
        n.references,
        n.comments,
        n.features,
        n.qualifiers,
        n.locations,
        n.letters,
    ];
    same_numbers(&stored[1..8], &sizes)
}

// What is told with the number: the place, and behind it with 0 the head, with 6 the sizes.
fn told_as_stored(stored: &[usize], count: usize, answer: Reading) -> bool {
    if number_at(stored, 0) != answer.place {
        return false;
    }
    if answer.number == 0 {
        let head = answer.head;
        return head_as_stored(stored, count, head);
    }
    if answer.number == 6 {
        let sizes = answer.sizes;
        return sizes_as_stored(stored, count, sizes);
    }
    count == 1
}

// The number is one of those that may be answered, and what is told with it is as stored.
fn answer_as_stored(s: &[u8], at: usize, answer: Reading, counts: &mut [usize]) -> Checked {
    let mut permitted = number_room();
    let mut stored = number_room();
    let field = take_numbers(s, at, &mut permitted);
    count_answer(counts, number_at(&permitted, 0), field.count);
    let so_far = Checked {
        next: field.next,
        same: among(&permitted, field.count, answer.number),
    };
    let told = take_numbers(s, so_far.next, &mut stored);
    and_then(
        so_far,
        told.next,
        told_as_stored(&stored, told.count, answer),
    )
}

// The line and the offset are the two stored numbers.
fn spot_is(stored: &[usize], count: usize, answer: Reading) -> bool {
    if count != 2 {
        return false;
    }
    if number_at(stored, 0) != answer.line {
        return false;
    }
    number_at(stored, 1) == answer.offset
}

// The line and the offset are those that one field more says, if the stored line has it.
fn spot_as_stored(s: &[u8], so_far: Checked, answer: Reading, counts: &mut [usize]) -> Checked {
    if byte_at(s, so_far.next) == b'\n' {
        return so_far;
    }
    count_one(counts, LINES);
    let mut stored = number_room();
    let field = take_numbers(s, so_far.next, &mut stored);
    and_then(so_far, field.next, spot_is(&stored, field.count, answer))
}

// Reads into as much of each room as the call lends.
fn read_lent(
    input: &[u8],
    call: &[usize],
    n: usize,
    strict: bool,
    texts: &mut [u8],
    references: &mut [usize],
    comments: &mut [usize],
    features: &mut [usize],
    qualifiers: &mut [usize],
    locations: &mut [usize],
    letters: &mut [u8],
) -> Reading {
    let a = lent(call, n, 1, texts.len());
    let b = lent(call, n, 2, references.len());
    let c = lent(call, n, 3, comments.len());
    let d = lent(call, n, 4, features.len());
    let e = lent(call, n, 5, qualifiers.len());
    let f = lent(call, n, 6, locations.len());
    let g = lent(call, n, 7, letters.len());
    let at = number_at(call, 0);
    let reported = test_rows::read(
        input,
        at,
        strict,
        &mut texts[0..a],
        &mut references[0..b],
        &mut comments[0..c],
        &mut features[0..d],
        &mut qualifiers[0..e],
        &mut locations[0..f],
        &mut letters[0..g],
    );
    reading_of(at, reported)
}

// Reads the slice at the place that the call names.
fn read_input(
    s: &[u8],
    at: usize,
    input: &[u8],
    call: &[usize],
    n: usize,
    strict: bool,
    counts: &mut [usize],
) -> Checked {
    let mut texts = byte_room();
    let mut references = number_room();
    let mut comments = number_room();
    let mut features = number_room();
    let mut qualifiers = number_room();
    let mut locations = number_room();
    let mut letters = byte_room();
    let answer = read_lent(
        input,
        call,
        n,
        strict,
        &mut texts,
        &mut references,
        &mut comments,
        &mut features,
        &mut qualifiers,
        &mut locations,
        &mut letters,
    );
    let answered = answer_as_stored(s, at, answer, counts);
    let left = rooms_as_stored(
        s,
        answered,
        &texts,
        &references,
        &comments,
        &features,
        &qualifiers,
        &locations,
        &letters,
    );
    spot_as_stored(s, left, answer, counts)
}

// The first n bytes are the slice to read.
fn read_part(
    s: &[u8],
    at: usize,
    input: &[u8],
    part: usize,
    call: &[usize],
    n: usize,
    strict: bool,
    counts: &mut [usize],
) -> Checked {
    if input.len() < part {
        return Checked {
            next: at,
            same: false,
        };
    }
    read_input(s, at, &input[0..part], call, n, strict, counts)
}

// The reading whose fields start there, with the strict switch on or off.
pub fn replay_reading(s: &[u8], at: usize, strict: bool, counts: &mut [usize]) -> Checked {
    let mut input = byte_room();
    let mut call = number_room();
    let slice = take_text(s, at, &mut input);
    let asked = take_numbers(s, slice.next, &mut call);
    read_part(
        s,
        asked.next,
        &input,
        slice.count,
        &call,
        asked.count,
        strict,
        counts,
    )
}
