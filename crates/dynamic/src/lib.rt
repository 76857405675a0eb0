// The dynamic factor, in thousandths.
#![tactic(auto)]

ghost use Rattle.std.specs.Prelude.{◌≡◌, ◌-◌, ◌*◌, ◌≤◌, max, length};
ghost use Rattle.model.specs.Decode.{dynamic_value};
ghost use Rattle.model.specs.Dynamic.{span_factor, dynamic_factor};

use exact::Question;
use model::Header;

// Of a span in dm: 1300 to 120 dm; beyond, 1 + 150/(span + 380), rounded up.
fn of_span(span: usize) -> usize
    requires { span ≤ 5000 }
    ensures { result ≡ span_factor span }
{
    if span <= 120 {
        return 1300;
    }
    let d = span + 380;
    1000 + (150000 + d - 1) / d
}

// Of a culvert top slab under so much fill in cm.
fn of_fill(fill: usize) -> usize
    ensures { result ≡ max 1000 (1300 - 3 * fill) }
{
    if 100 <= fill { 1000 } else { 1300 - 3 * fill }
}

// Of the kind, a number as the header's word and its definition have it: 1, read off by the sender; 2, below ground; 3, of a fill; else of a span.
#[tactic(auto, unfolding(model::specs::Dynamic::dynamic_factor))]
fn of_kind(kind: usize, value: usize) -> usize
    requires { value ≤ 5000 }
    ensures { result ≡ dynamic_factor kind value }
{
    match kind {
        1 => value,
        2 => 1000,
        3 => of_fill(value),
        _ => of_span(value),
    }
}

// The value for a question: the header's, but with kind 4 the span for least, word 10.
fn value(job: &[u8], head: Header, q: Question) -> usize
    requires { head.kind ≡ 4 → 44 ≤ length job.now }
    ensures { result ≡ dynamic_value job.now head q }
{
    match q {
        Question::Least if head.kind == 4 => words::count(job, 10),
        Question::Greatest | Question::Least => head.value,
    }
}

// A question's dynamic factor.
pub fn factor(job: &[u8], head: Header, q: Question) -> usize
    requires { (head.kind ≡ 4 → 44 ≤ length job.now) × (dynamic_value job.now head q ≤ 5000) }
    ensures { result ≡ dynamic_factor head.kind (dynamic_value job.now head q) }
{
    of_kind(head.kind, value(job, head, q))
}
