// One stored writing: the table is written again by both writers, and their numbers, values and all of the slice are held against what is stored.
use api_head::head_from;
use api_told::writing_of;
use spec_contracts::Writing;
use spec_format::{Head, How};
use test_stored_lines::{
    Checked, byte_room, count_answer, lent, number_at, number_room, take_numbers, take_text,
};

// One of the two writers, as the call says: width, truncation, escaping.
fn how_asked(call: &[usize], keeping: bool) -> How {
    How {
        keeping: keeping,
        width: number_at(call, 0),
        truncate: number_at(call, 1) != 0,
        escape: number_at(call, 2) != 0,
    }
}

// The slice afterwards is as stored: the bytes with 0, else untouched.
fn slice_as_stored(number: usize, out: &[u8], bytes: &[u8]) -> bool {
    if number == 0 {
        return base_keys::same_text(out, bytes);
    }
    let untouched = byte_room();
    base_keys::same_text(out, &untouched)
}

// A writer's number and value are those that stand in `stored` from `from` on, and the slice is as stored.
fn answer_as_stored(
    stored: &[usize],
    from: usize,
    answer: Writing,
    out: &[u8],
    bytes: &[u8],
) -> bool {
    if 2 < from {
        return false;
    }
    if answer.number != number_at(stored, from) {
        return false;
    }
    if answer.count != number_at(stored, from + 1) {
        return false;
    }
    slice_as_stored(answer.number, out, bytes)
}

// One writer, on as much of the slice as the call lends.
fn write_lent(
    keeping: bool,
    out: &mut [u8],
    texts: &[u8],
    references: &[usize],
    comments: &[usize],
    features: &[usize],
    qualifiers: &[usize],
    locations: &[usize],
    letters: &[u8],
    head: Head,
    call: &[usize],
    n: usize,
) -> Writing {
    let length = lent(call, n, 3, out.len());
    let answer = test_rows::write(
        &mut out[0..length],
        texts,
        references,
        comments,
        features,
        qualifiers,
        locations,
        letters,
        head,
        how_asked(call, keeping),
    );
    writing_of(answer)
}

// One writer, whose number and value stand in `stored` from `from` on.
fn written_as_stored(
    keeping: bool,
    from: usize,
    texts: &[u8],
    references: &[usize],
    comments: &[usize],
    features: &[usize],
    qualifiers: &[usize],
    locations: &[usize],
    letters: &[u8],
    head: Head,
    call: &[usize],
    n: usize,
    stored: &[usize],
    bytes: &[u8],
) -> bool {
    let mut out = byte_room();
    let answer = write_lent(
        keeping, &mut out, texts, references, comments, features, qualifiers, locations, letters,
        head, call, n,
    );
    answer_as_stored(stored, from, answer, &out, bytes)
}

// Both writers.
fn both_as_stored(
    texts: &[u8],
    references: &[usize],
    comments: &[usize],
    features: &[usize],
    qualifiers: &[usize],
    locations: &[usize],
    letters: &[u8],
    head: Head,
    call: &[usize],
    n: usize,
    stored: &[usize],
    bytes: &[u8],
) -> bool {
    let plain = written_as_stored(
        false, 0, texts, references, comments, features, qualifiers, locations, letters, head,
        call, n, stored, bytes,
    );
    let keeping = written_as_stored(
        true, 2, texts, references, comments, features, qualifiers, locations, letters, head, call,
        n, stored, bytes,
    );
    plain && keeping
}

// Both writers, on as much of each room as the call lends.
fn lent_as_stored(
    texts: &[u8],
    references: &[usize],
    comments: &[usize],
    features: &[usize],
    qualifiers: &[usize],
    locations: &[usize],
    letters: &[u8],
    head: &[usize],
    call: &[usize],
    n: usize,
    stored: &[usize],
    bytes: &[u8],
) -> bool {
    let a = lent(call, n, 4, texts.len());
    let b = lent(call, n, 5, references.len());
    let c = lent(call, n, 6, comments.len());
    let d = lent(call, n, 7, features.len());
    let e = lent(call, n, 8, qualifiers.len());
    let f = lent(call, n, 9, locations.len());
    let g = lent(call, n, 10, letters.len());
    both_as_stored(
        &texts[0..a],
        &references[0..b],
        &comments[0..c],
        &features[0..d],
        &qualifiers[0..e],
        &locations[0..f],
        &letters[0..g],
        head_from(head),
        call,
        n,
        stored,
        bytes,
    )
}

// The call and what is stored of it: the two writers' numbers and values, and the bytes.
fn write_table(
    s: &[u8],
    at: usize,
    texts: &[u8],
    references: &[usize],
    comments: &[usize],
    features: &[usize],
    qualifiers: &[usize],
    locations: &[usize],
    letters: &[u8],
    counts: &mut [usize],
) -> Checked {
    let mut head = number_room();
    let mut call = number_room();
    let mut stored = number_room();
    let mut bytes = byte_room();
    let heads = take_numbers(s, at, &mut head);
    let asked = take_numbers(s, heads.next, &mut call);
    let numbers = take_numbers(s, asked.next, &mut stored);
    let text = take_text(s, numbers.next, &mut bytes);
    count_answer(counts, number_at(&stored, 0), 1);
    count_answer(counts, number_at(&stored, 2), 1);
    let same = lent_as_stored(
        texts,
        references,
        comments,
        features,
        qualifiers,
        locations,
        letters,
        &head,
        &call,
        asked.count,
        &stored,
        &bytes,
    );
    Checked {
        next: text.next,
        same: same,
    }
}

// The same from the qualifiers on.
fn write_rest(
    s: &[u8],
    at: usize,
    texts: &[u8],
    references: &[usize],
    comments: &[usize],
    features: &[usize],
    counts: &mut [usize],
) -> Checked {
    let mut qualifiers = number_room();
    let mut locations = number_room();
    let mut letters = byte_room();
    let a = take_numbers(s, at, &mut qualifiers);
    let b = take_numbers(s, a.next, &mut locations);
    let c = take_text(s, b.next, &mut letters);
    write_table(
        s,
        c.next,
        texts,
        references,
        comments,
        features,
        &qualifiers,
        &locations,
        &letters,
        counts,
    )
}

// The writing whose fields start there.
pub fn replay_writing(s: &[u8], at: usize, counts: &mut [usize]) -> Checked {
    let mut texts = byte_room();
    let mut references = number_room();
    let mut comments = number_room();
    let mut features = number_room();
    let a = take_text(s, at, &mut texts);
    let b = take_numbers(s, a.next, &mut references);
    let c = take_numbers(s, b.next, &mut comments);
    let d = take_numbers(s, c.next, &mut features);
    write_rest(s, d.next, &texts, &references, &comments, &features, counts)
}
