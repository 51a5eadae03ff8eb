// All of a planned record but its features, put into the lent rooms: texts, rows and letters, each in the table's own order.
#![tactic(auto)]

ghost use Rattle.std.specs.Prelude.{◌≡◌, ◌*◌, ◌≤◌, length};
ghost use Rattle.std.proofs.lemmas.List.Edits.{sets};
ghost use Rattle.spec_format.specs.Record.{most};
ghost use Rattle.spec_format.specs.Rooms.{perhaps, piece_text, location_numbers, contig_rows};
ghost use Rattle.base_pen.specs.Pen.{Writes};
ghost use Rattle.read_contig.specs.Contigs.{contig_in, contig_as};
ghost use Rattle.read_record_plan.specs.Plans.{plan_table, Ready};
ghost use Rattle.read_record_frame.specs.Fills.{ContigReady, HeaderFilled, AroundFilled};

use read_field_optional::MayEntry;
use read_record_plan::Plan;
use scan_location_bytes::Laid;

// CONTIG's text, where there is one.
fn put_contig(s: &[u8], contig: MayEntry, texts: &mut [u8], place: usize) -> usize
    requires { ContigReady s.now contig }
    ensures { Writes texts.old place (piece_text (perhaps (contig_in s.now contig))) texts.new result }
{
    match contig {
        MayEntry::Absent => place,
        MayEntry::Is(e) => {
            let start = e.text;
            let columns = e.columns;
            read_field_text::put_entry(s, start, columns, false, texts, place)
        }
    }
}

// CONTIG's location rows, where it is there, from row `first` on. Its text is read up to its entry's end, as the plan read it.
fn put_contig_rows(s: &[u8], contig: MayEntry, locations: &mut [usize], first: usize)
    requires { ContigReady s.now contig × (length s.now ≤ most) × (first ≤ most) }
    ensures { locations.new ≡ sets locations.old (7 * first) (location_numbers (contig_rows (contig_as (contig_in s.now contig)))) }
{
    match contig {
        MayEntry::Absent => {}
        MayEntry::Is(e) => {
            let start = e.text;
            let end = e.next;
            let columns = e.columns;
            let none: [usize; 0] = [];
            read_location::location_at(
                &s[start..end],
                Laid::Contig(columns),
                true,
                0,
                locations,
                &none,
                first,
            );
        }
    }
}

// LOCUS and the header.
fn fill_header(
    s: &[u8],
    plan: Plan,
    texts: &mut [u8],
    references: &mut [usize],
    comments: &mut [usize],
) -> usize
    requires { Ready s.now plan }
    ensures { HeaderFilled (plan_table s.now plan) texts.old texts.new references.old references.new comments.old comments.new result }
{
    let at = plan.header_at;
    let locus = plan.locus;
    let header = plan.header;
    let first = read_record_head::put_head(s, locus, header, texts);
    let second = read_field_rows::put_references(s, at, texts, first, references);
    read_field_rows::put_comments(s, at, texts, second, comments)
}

// All but the features: CONTIG's text goes behind the gap that their texts are to fill, and its rows behind theirs. The place where the gap starts.
pub fn fill_around(
    s: &[u8],
    plan: Plan,
    texts: &mut [u8],
    references: &mut [usize],
    comments: &mut [usize],
    locations: &mut [usize],
    letters: &mut [u8],
) -> usize
    requires { Ready s.now plan }
    ensures { AroundFilled (plan_table s.now plan) texts.old texts.new references.old references.new comments.old comments.new locations.old locations.new letters.old letters.new result }
{
    let rest = plan.rest;
    let at = rest.letters_at;
    let counts = rest.features;
    let contig = rest.contig;
    let place = fill_header(s, plan, texts, references, comments);
    put_contig(s, contig, texts, place + counts.bytes);
    put_contig_rows(s, contig, locations, counts.rows);
    read_letters::put_letters(s, at, letters, 0);
    place
}
