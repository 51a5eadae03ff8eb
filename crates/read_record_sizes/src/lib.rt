// What a planned record takes of the lent rooms, whether rooms hold it, and its head.
#![tactic(auto)]

ghost use Rattle.std.specs.Prelude.{◌≡◌, ◌<◌, ◌^◌};
ghost use Rattle.read_record_sizes.specs.Sizing.{contig_place, texts_plan, locations_plan, sizes_in, contig_entry, head_plan, fits_in};

use read_field_optional::MayEntry;
use read_record_plan::Plan;
use spec_format::{ContigText, Head, Sizes, Span};

// Where CONTIG's text starts in the store: after all other texts.
fn contig_place(plan: Plan) -> usize
    requires { contig_place plan < 2 ^ 64 }
    ensures { result ≡ contig_place plan }
{
    let locus = plan.locus;
    let fields = plan.header;
    let rest = plan.rest;
    let counts = rest.features;
    let head = read_record_head::head_bytes(locus, fields);
    head + fields.reference_bytes + fields.comment_bytes + counts.bytes
}

// How much of each room a record takes.
pub fn sizes_of(plan: Plan) -> Sizes
    requires { (texts_plan plan < 2 ^ 64) × (locations_plan plan < 2 ^ 64) }
    ensures { result ≡ sizes_in plan }
{
    let fields = plan.header;
    let rest = plan.rest;
    let counts = rest.features;
    let contig = rest.contig;
    let place = contig_place(plan);
    Sizes {
        texts: place + read_field_optional::may_length(contig),
        references: fields.references,
        comments: fields.comments,
        features: counts.count,
        qualifiers: counts.qualifiers,
        locations: counts.rows + rest.contig_rows,
        letters: rest.letters,
    }
}

// CONTIG's text at a place in the store, and its rows, which come after those of the features.
fn contig_text(place: usize, contig: MayEntry, row: usize, rows: usize) -> Option<ContigText>
    ensures { result ≡ contig_entry place contig row rows }
{
    match contig {
        MayEntry::Absent => None,
        MayEntry::Is(e) => Some(ContigText {
            text: Span {
                start: place,
                length: e.length,
            },
            row,
            rows,
        }),
    }
}

// Its head.
pub fn head_in(plan: Plan) -> Head
    requires { contig_place plan < 2 ^ 64 }
    ensures { result ≡ head_plan plan }
{
    let locus = plan.locus;
    let fields = plan.header;
    let rest = plan.rest;
    let counts = rest.features;
    let contig = rest.contig;
    let place = contig_place(plan);
    let last = contig_text(place, contig, counts.rows, rest.contig_rows);
    read_record_head::head_of(locus, fields, counts.count, last, rest.letters)
}

// Whether rooms of these lengths hold that much; rows are 14, 2, 8, 4 and 7 numbers wide.
pub fn enough(
    n: Sizes,
    texts: usize,
    references: usize,
    comments: usize,
    features: usize,
    qualifiers: usize,
    locations: usize,
    letters: usize,
) -> bool
    ensures { result ≡ fits_in n texts references comments features qualifiers locations letters }
{
    n.texts <= texts
        && (n.references <= references / 14
            && (n.comments <= comments / 2
                && (n.features <= features / 8
                    && (n.qualifiers <= qualifiers / 4
                        && (n.locations <= locations / 7 && n.letters <= letters)))))
}
