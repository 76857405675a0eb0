// The element kinds: the loads of each, and its line effect.
ghost use Rattle.std.specs.Prelude.{◌≡◌};
ghost use Rattle.model.specs.Line.{axle, uniform};
ghost use Rattle.line.specs.Sought.{SoughtNear, kind_of, EffectRight};

use crate::sought::Sought;

// The normal element.
#[derive(Clone, Copy)]
pub struct Hn {}

impl Hn {
    // An axle on an ordinate of 1, in 75 N·U.
    pub const AXLE: i64 = 1600;

    // Uniform load on 1 dm of an ordinate sum of 1, in 75 N·U.
    pub const UNIFORM: i64 = 7;
}

// The overload element.
#[derive(Clone, Copy)]
pub struct Ho {}

impl Ho {
    pub const AXLE: i64 = 3200;

    pub const UNIFORM: i64 = Hn::UNIFORM;
}

// Either of them.
#[derive(Clone, Copy)]
pub enum Kind {
    Hn,
    Ho,
}

impl Kind {
    // Its axle load.
    fn axle(self) -> i64
        ensures { result ≡ axle (kind_of self) }
    {
        match self {
            Kind::Hn => Hn::AXLE,
            Kind::Ho => Ho::AXLE,
        }
    }

    // Its uniform load.
    fn uniform(self) -> i64
        ensures { result ≡ uniform }
    {
        match self {
            Kind::Hn => Hn::UNIFORM,
            Kind::Ho => Ho::UNIFORM,
        }
    }

    // The line effect, by what its sense seeks.
    pub fn effect(self, s: Sought) -> i64
        requires { SoughtNear s }
        ensures { EffectRight (kind_of self) s result }
    {
        self.uniform() * s.area + self.axle() * (s.pair as i64)
    }
}
