// The factors of the built-in load combinations of rural bridges (Appendix D), multiplied out.
#![tactic(auto)]

ghost use Rattle.std.specs.Prelude.{◌≡◌, ◌<◌};
ghost use Rattle.exact.specs.Ranges.{list_of};
ghost use Rattle.groups.specs.FactorLines.{line_factor};

// The factors in thousandths, a line each: LLxI, DL, EP, OW, SG, ST, TP, HE, WD, FW, EQ, CN. Lines 0 to 19 are the groups, with k 1.3; line 20 has k 0.8.
static FACTORS: [[u16; 12]; 21] = [
    [1000, 1000, 1000, 1000, 1000, 1000, 0, 0, 0, 0, 0, 0], // service 1A
    [0, 1000, 1000, 1000, 1000, 1000, 1000, 0, 0, 0, 0, 0], // service 1B
    [1000, 1000, 1000, 1000, 1000, 1000, 1000, 1000, 0, 0, 0, 0], // service 2A
    [1000, 1000, 1000, 1000, 1000, 1000, 0, 1000, 1000, 0, 0, 0], // service 2B
    [1000, 1000, 1000, 0, 1000, 1000, 0, 1000, 0, 1000, 0, 0], // service 2C
    [0, 1000, 1000, 1000, 1000, 1000, 330, 0, 0, 0, 1000, 0], // service 3A
    [0, 1000, 1000, 0, 1000, 1000, 0, 0, 1000, 1000, 0, 0], // service 3B
    [0, 1000, 1000, 1000, 1000, 0, 0, 0, 330, 0, 0, 1000], // service 5A
    [0, 1000, 1000, 1000, 1000, 0, 330, 0, 0, 0, 0, 1000], // service 5B
    [0, 1000, 1000, 1000, 1000, 0, 0, 0, 0, 0, 330, 1000], // service 5C
    [1837, 1100, 1485, 1100, 1100, 1100, 0, 0, 0, 0, 0, 0], // ultimate 1A
    [0, 1100, 1485, 1100, 1100, 1100, 1375, 0, 0, 0, 0, 0], // ultimate 1B
    [1200, 1200, 1200, 1200, 1200, 1200, 1200, 1200, 0, 0, 0, 0], // ultimate 2A
    [1200, 1200, 1200, 1200, 1200, 1200, 0, 1200, 1000, 0, 0, 0], // ultimate 2B
    [1200, 1200, 1200, 0, 1200, 1200, 0, 1200, 0, 1000, 0, 0], // ultimate 2C
    [0, 1300, 1250, 1250, 1000, 1000, 330, 0, 0, 0, 1000, 0], // ultimate 3A, k 1.3
    [0, 1000, 1250, 0, 1000, 1000, 0, 0, 1000, 1000, 0, 0], // ultimate 3B
    [0, 1200, 1200, 1200, 1200, 0, 0, 0, 330, 0, 0, 1320], // ultimate 5A
    [0, 1200, 1200, 1200, 1200, 0, 396, 0, 0, 0, 0, 1320], // ultimate 5B
    [0, 1200, 1200, 1200, 1200, 0, 0, 0, 0, 0, 396, 1320], // ultimate 5C
    [0, 800, 1250, 1250, 1000, 1000, 330, 0, 0, 0, 1000, 0], // ultimate 3A, k 0.8
];

// A line's factors.
pub fn factors(line: usize) -> [u16; 12]
    requires { line < 21 }
    ensures { result ≡ list_of 12 (line_factor line) }
{
    FACTORS[line]
}
