// The refusals of a job, each the lowest place at fault, and the verdict.
ghost use Rattle.std.specs.Prelude.{◌≡◌, ◌&&◌, [], ◌∷◌, ℕ, ◌*◌, ◌≤◌, ◌<◌, leb, length, None, Some};
ghost use Rattle.words.specs.Words.{word_at};
ghost use Rattle.words.specs.Fields.{moved};
ghost use Rattle.model.specs.Format.{is, edition_number, header_of, bytes, words, start, fault};
ghost use Rattle.model.specs.Refusals.{fault1, fault2, fault3, fault4, fault5, fault6, fault7, fault8, fault11, row_fault, ◌finds◌, refuse, first_refusal, as_result, job_verdict, highway_verdict};
ghost use Rattle.model.specs.declared.Part.TheVariants.{Head, Line};
ghost use Rattle.sections.specs.Sized.{Counted, Sized};
ghost use Rattle.limits.specs.Faults.{AfterHeader};
ghost use Rattle.job.specs.Defects.{chain_passes};

use crate::defects;
use crate::defects::Defect;
use model::{Edition, Header, Part, Refusal};
use sections::header;

// Word 0 names an edition, and the words of its header are there, ten being there in any case.
fn has_edition(s: &[u8]) -> bool
    requires { bytes Head ≤ length s.now }
    ensures { result ≡ (leb (4 * words (header_of s.now) Head) (length s.now) && is (edition_number (header_of s.now).edition) (word_at s.now 0)) }
{
    match Edition::try_from(words::word(s, 0)) {
        Ok(edition) => 4 * header::size(edition) <= s.len(),
        Err(_) => false,
    }
}

// 1: fewer words than the header has, a byte count not divisible by 4, or word 0 no edition.
fn frame(s: &[u8]) -> Option<u32>
    ensures { result ≡ fault1 s.now }
{
    if 4 * model::HEADER_WORDS <= s.len() && s.len() % 4 == 0 && has_edition(s) {
        None
    } else {
        Some(0)
    }
}

// 2: a header word outside its limits.
fn limits(s: &[u8], head: Header) -> Option<u32>
    requires { (head ≡ header_of s.now) × (4 * words head Head ≤ length s.now) }
    ensures { result ≡ fault2 s.now }
{
    let place = headers::header_misfit(header::section(s, head), head)?;
    Some(place as u32)
}

// 3: the word count isn't what the header calls for.
fn count(s: &[u8], head: Header) -> Option<u32>
    requires { (head ≡ header_of s.now) × Counted head }
    ensures { result ≡ fault3 s.now }
{
    let due = sections::words_due(head);
    if s.len() / 4 == due {
        None
    } else {
        Some(due as u32)
    }
}

// A place of a part as a place of the job.
fn in_job(head: Header, part: Part, own: Option<usize>) -> Option<u32>
    requires { Counted head × ((p : ℕ) → own ≡ Some p → p < words head part) }
    ensures { result ≡ moved (start head part) own }
{
    let place = own?;
    Some((sections::start(head, part) + place) as u32)
}

// 11: a clear width outside its barriers' band.
fn width(s: &[u8], head: Header) -> Option<u32>
    requires { (head ≡ header_of s.now) × Counted head × (4 * words head Head ≤ length s.now) }
    ensures { result ≡ fault11 s.now }
{
    let own = headers::width_misfit(header::section(s, head), head);
    in_job(head, Part::Head, own)
}

// The lowest place at fault in a part after the header.
#[inline(always)]
fn fault(s: &[u8], head: Header, part: Part) -> Option<u32>
    requires { AfterHeader part × Sized s.now head }
    ensures { result ≡ fault s.now (header_of s.now) part }
{
    let own = limits::misfit(sections::section(s, head, part), head, part);
    in_job(head, part, own)
}

// The lowest place at fault in the line.
fn line(s: &[u8], head: Header) -> Option<u32>
    requires { Sized s.now head }
    ensures { result ≡ fault s.now (header_of s.now) Line }
{
    let own = ordinates::misfit(sections::section(s, head, Part::Line), head);
    in_job(head, Part::Line, own)
}

// 4: an ordinate of the line or across it outside its limits.
fn ordinates(s: &[u8], head: Header) -> Option<u32>
    requires { Sized s.now head }
    ensures { result ≡ fault4 s.now }
{
    line(s, head)
        .or_else(|| fault(s, head, Part::Transverse))
        .or_else(|| fault(s, head, Part::SecondTransverse))
}

// 5: a piece of the job's line with one ordinate above 0 and one below.
fn signs(s: &[u8], head: Header) -> Option<u32>
    requires { Sized s.now head }
    ensures { result ≡ fault5 s.now }
{
    let own = ordinates::crossing(sections::section(s, head, Part::Line), head.pieces);
    in_job(head, Part::Line, own)
}

// 6: an effect, row or record word outside its limits.
fn table(s: &[u8], head: Header) -> Option<u32>
    requires { Sized s.now head }
    ensures { result ≡ fault6 s.now }
{
    fault(s, head, Part::Effects)
        .or_else(|| fault(s, head, Part::Rows))
        .or_else(|| fault(s, head, Part::Records))
}

// The first row whose chain has a defect.
fn defective(s: &[u8], head: Header, defect: Defect) -> Option<u32>
    requires { Sized s.now head × (fault6 s.now ≡ None) }
    ensures { result ≡ row_fault s.now (chain_passes defect s.now) }
{
    in_job(head, Part::Rows, defects::first_row(s, head, defect))
}

// A number's refusal, where its test finds a place.
fn refuse(number: u32, found: Option<u32>) -> Result<(), Refusal>
    ensures { result ≡ as_result (refuse number found None) }
{
    match found {
        Some(place) => Err(Refusal { number, place }),
        None => Ok(()),
    }
}

// 7, a chain comes back to a record, and 8, one without a return names an effect twice, no test before having found anything.
// One that comes back names an effect twice too: each chain is walked once for that, and only if one does is a return sought.
fn chains(s: &[u8], head: Header) -> Result<(), Refusal>
    requires { Sized s.now head × (fault6 s.now ≡ None) }
    ensures { result ≡ as_result (first_refusal ((7 finds fault7 s.now) ∷ (8 finds fault8 s.now) ∷ [])) }
{
    let Some(place) = defective(s, head, Defect::Repeat) else {
        return Ok(());
    };
    refuse(7, defective(s, head, Defect::Return))?;
    Err(Refusal { number: 8, place })
}

// The first test that finds a place, and its lowest.
pub fn verdict(s: &[u8]) -> Result<(), Refusal>
    ensures { result ≡ as_result (job_verdict s.now) }
{
    refuse(1, frame(s))?;
    let head = header::read(s);
    refuse(2, limits(s, head))?;
    refuse(11, width(s, head))?;
    refuse(3, count(s, head))?;
    refuse(4, ordinates(s, head))?;
    refuse(5, signs(s, head))?;
    refuse(6, table(s, head))?;
    chains(s, head)
}

// The refusal of what is no job: fewer words than any header has, or a rural bridge's job, good or bad, of a call that takes none.
const NOT_A_JOB: Refusal = Refusal {
    number: 1,
    place: 0,
};

// The verdict of a call that takes no rural bridge's job.
pub fn highway_verdict(s: &[u8]) -> Result<(), Refusal>
    ensures { result ≡ as_result (highway_verdict s.now) }
{
    if s.len() < 4 * model::HEADER_WORDS || words::word(s, 0) == model::RURAL_EDITION {
        return Err(NOT_A_JOB);
    }
    verdict(s)
}
