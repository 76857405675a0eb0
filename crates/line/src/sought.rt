// What each sense seeks of the line.
ghost use Rattle.std.specs.Prelude.{◌≡◌, ◌*◌, ◌≤◌};
ghost use Rattle.exact.specs.Bounds.{Within};
ghost use Rattle.magnitudes.specs.Magnitudes.{area_most};
ghost use Rattle.model.specs.Job.{InfluenceLine};
ghost use Rattle.model.specs.Decode.{influence_line};
ghost use Rattle.model.specs.Line.{sought as soughtBy};
ghost use Rattle.pair.specs.LineFits.{LineFits};
ghost use Rattle.pair.specs.PairPlaces.{rank_most};
ghost use Rattle.line.specs.Sought.{Found, SoughtRight, SensesRight};

use crate::pieces;
use exact::Question;
use model::{BySense, Position, Sense};

// Of a sense: twice the line's area over the pieces that it loads, in dm·U; its best pair of ordinates, and the pair's position.
#[derive(Clone, Copy)]
pub struct Sought {
    pub area: i64,
    pub pair: i16,
    pub position: Position,
}

// What a sense asks of the pair's ordinates.
fn question(sense: Sense) -> Question
    ensures { result ≡ soughtBy sense }
{
    match sense {
        Sense::Raising => Question::Greatest,
        Sense::Lowering => Question::Least,
    }
}

// What a sense seeks, by its area and the best rank of its question.
fn sought_at(sense: Sense, area: i64, rank: i32, h: usize) -> Sought
    requires { (1 ≤ h) × Within area_most area × Within rank_most rank }
    ensures { (line : InfluenceLine) → line.h ≡ h → Found line sense area rank → SoughtRight line sense result }
{
    let stand = pair::stand_of(question(sense), rank);
    Sought {
        area,
        pair: stand.value,
        position: Position {
            station: (stand.station as i64) - (pair::spacing(h) as i64),
            side: stand.side,
        },
    }
}

// What each sense seeks on a line of n pieces.
pub fn seek(line: &[u8], h: usize, n: usize) -> BySense<Sought>
    requires line_fits { LineFits line.now n }
    requires le_h { (1 ≤ h) × ((h ≤ 50) × (n * h ≤ 1000)) }
    ensures { SensesRight (influence_line line.now h n) result }
{
    let ranks = pair::best_ranks(line, h, n);
    let areas = pieces::double_areas(line, h, n);
    BySense {
        raising: sought_at(Sense::Raising, areas.raising, ranks.greatest, h),
        lowering: sought_at(Sense::Lowering, areas.lowering, ranks.least, h),
    }
}
