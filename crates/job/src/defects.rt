// The first row whose chain comes back to a record, or names an effect twice.
ghost use Rattle.std.specs.Prelude.{◌≡◌, ◌*◌, ◌≤◌, length, None};
ghost use Rattle.model.specs.Refusals.{fault6};
ghost use Rattle.model.specs.Format.{bytes};
ghost use Rattle.model.specs.declared.Part.TheVariants.{Records};
ghost use Rattle.chains.specs.Linked.{Linked, EffectsTo};
ghost use Rattle.sections.specs.Sized.{Sized};
ghost use Rattle.job.specs.Defects.{is_defective, first_defective};

use model::{Header, Part};

// What may be wrong with a chain.
#[derive(Clone, Copy)]
pub(crate) enum Defect {
    Return,
    Repeat,
}

// The chain from a first record, in a section of so many, has the defect.
fn is_defective(records: &[u8], first: usize, count: usize, defect: Defect) -> bool
    requires { Linked records.now × EffectsTo 16 records.now × (bytes Records * first ≤ length records.now) × (length records.now ≡ bytes Records * count) }
    ensures { result ≡ is_defective defect records.now count first }
{
    match defect {
        Defect::Return => !chains::ends(records, first, count),
        Defect::Repeat => chains::names_twice(records, first, count),
    }
}

// The first word of the first row whose chain has it, from the first row's on.
pub(crate) fn first_row(s: &[u8], head: Header, defect: Defect) -> Option<usize>
    requires { Sized s.now head × (fault6 s.now ≡ None) }
    ensures { result ≡ first_defective defect s.now }
{
    let rows = sections::section(s, head, Part::Rows);
    let records = sections::section(s, head, Part::Records);
    for i in 0..head.rows {
        let first = words::count(rows, model::ROW_WORDS * i + 3);
        if is_defective(records, first, head.records, defect) {
            return Some(model::ROW_WORDS * i);
        }
    }
    None
}
