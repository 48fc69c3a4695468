// The units of a job: how many grid units a length's unit has.
ghost use Rattle.std.specs.Prelude.{◌≡◌};
ghost use Rattle.grid_num.specs.Units.{per_unit_of, is_inch_of};

/// The grid of a job.
#[derive(Clone, Copy, Debug, PartialEq, Eq)]
pub enum Units {
    /// 10 grid units a millimetre.
    Mm10,
    /// 100 grid units a millimetre.
    Mm100,
    /// 1000 grid units a millimetre.
    Mm1000,
    /// 100 grid units an inch.
    In100,
    /// 1000 grid units an inch.
    In1000,
}

impl Units {
    /// How many grid units a millimetre or an inch has.
    pub fn per_unit(&self) -> u32
        ensures { result ≡ per_unit_of self.now }
    {
        match self {
            Units::Mm10 => 10,
            Units::Mm100 | Units::In100 => 100,
            Units::Mm1000 | Units::In1000 => 1000,
        }
    }

    /// Whether lengths are in inches.
    pub fn is_inch(&self) -> bool
        ensures { result ≡ is_inch_of self.now }
    {
        match self {
            Units::In100 | Units::In1000 => true,
            _ => false,
        }
    }
}
