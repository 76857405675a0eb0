// What lies across the line, as it is handed on.
ghost use Rattle.centres.specs.Spans.{AcrossFits};

use crate::Span;

// Each lane's span, the lanes of each carriageway and of both, and the sums' denominator, n of both carriageways times g.
#[derive(Clone, Copy)]
pub struct Across {
    pub spans: [Span; 10],
    pub first: usize,
    pub second: usize,
    pub lanes: usize,
    pub denominator: usize,
    pub ghost fits: { AcrossFits spans first second lanes denominator },
}
