// Why a command gives no text.
ghost use Rattle.std.specs.Prelude.{◌≡◌};

use crate::outcome::{InputFault, Kind, Outcome, Which};
use crate::stream::StreamFault;
use carve_plan::PlanFault;
use cleanup_pocket::PocketFault;
use code_repair::RepairFault;
use coverage_report::CoverFault;
use cxf_font::{CxfFault, CxfKind, LayFault};
use dxf_outline::{DxfFault, DxfKind};
use gcode_text::FinishFault;
use gouge_checker::Verdict;
use job_words::WordsFault;
use loop_join::JoinFault;
use loops_text::{LoopsFault, LoopsKind};
use pbm_edges::{FlatFault, PbmFault};
use std::alloc::AllocError;
use tangent_disc::ContactFault;

/// Why a command gives no text. As an outcome it is neither `Done` nor `WriteFault`.
#[derive(Clone, Copy, Debug, PartialEq, Eq)]
pub enum Refusal {
    /// The G-code program isn't clear: the verdict on it, which isn't `Clear`.
    NotClear(Verdict),
    /// The words aren't a command of the program.
    Usage,
    /// The input has a fault.
    Input(InputFault),
    /// There is no file of this name.
    Absent(Which),
    /// A file couldn't be read.
    ReadFault,
    /// Memory ran out.
    Memory,
}

impl From<Refusal> for Outcome {
    ghost use Rattle.engrave_core.specs.Outcome.{outcome_of};

    ghost from_gives = { λ refusal outcome. outcome ≡ outcome_of refusal };

    fn from(refusal: Refusal) -> Outcome {
        match refusal {
            Refusal::NotClear(verdict) => Outcome::NotClear(verdict),
            Refusal::Usage => Outcome::Usage,
            Refusal::Input(fault) => Outcome::Input(fault),
            Refusal::Absent(which) => Outcome::Absent(which),
            Refusal::ReadFault => Outcome::ReadFault,
            Refusal::Memory => Outcome::Memory,
        }
    }
}

impl From<AllocError> for Refusal {
    ghost use Rattle.engrave_core.specs.declared.refusal.Refusal.TheVariants.{Memory};

    ghost from_gives = { λ _ refusal. refusal ≡ Memory };

    fn from(_: AllocError) -> Refusal {
        Refusal::Memory
    }
}

impl From<WordsFault> for Refusal {
    ghost use Rattle.engrave_core.specs.Refusals.{words_refusal};

    ghost from_gives = { λ fault refusal. refusal ≡ words_refusal fault };

    fn from(fault: WordsFault) -> Refusal {
        match fault {
            WordsFault::Usage => Refusal::Usage,
            WordsFault::Memory => Refusal::Memory,
        }
    }
}

impl From<LoopsFault> for Refusal {
    ghost use Rattle.engrave_core.specs.Refusals.{loops_refusal};

    ghost from_gives = { λ fault refusal. refusal ≡ loops_refusal fault };

    fn from(fault: LoopsFault) -> Refusal {
        match fault.kind {
            LoopsKind::Memory => Refusal::Memory,
            _ => Refusal::Input(InputFault::Loops(fault)),
        }
    }
}

impl From<CxfFault> for Refusal {
    ghost use Rattle.engrave_core.specs.Refusals.{cxf_refusal};

    ghost from_gives = { λ fault refusal. refusal ≡ cxf_refusal fault };

    fn from(fault: CxfFault) -> Refusal {
        match fault.kind {
            CxfKind::Memory => Refusal::Memory,
            _ => Refusal::Input(InputFault::Cxf(fault)),
        }
    }
}

impl From<LayFault> for Refusal {
    ghost use Rattle.engrave_core.specs.Refusals.{lay_refusal};

    ghost from_gives = { λ fault refusal. refusal ≡ lay_refusal fault };

    fn from(fault: LayFault) -> Refusal {
        match fault {
            LayFault::Memory => Refusal::Memory,
            _ => Refusal::Input(InputFault::Lay(fault)),
        }
    }
}

impl From<DxfFault> for Refusal {
    ghost use Rattle.engrave_core.specs.Refusals.{dxf_refusal};

    ghost from_gives = { λ fault refusal. refusal ≡ dxf_refusal fault };

    fn from(fault: DxfFault) -> Refusal {
        match fault.kind {
            DxfKind::Memory => Refusal::Memory,
            _ => Refusal::Input(InputFault::Dxf(fault)),
        }
    }
}

impl From<PbmFault> for Refusal {
    ghost use Rattle.engrave_core.specs.Refusals.{pbm_refusal};

    ghost from_gives = { λ fault refusal. refusal ≡ pbm_refusal fault };

    fn from(fault: PbmFault) -> Refusal {
        match fault {
            PbmFault::Memory => Refusal::Memory,
            _ => Refusal::Input(InputFault::Pbm(fault)),
        }
    }
}

impl From<FlatFault> for Refusal {
    ghost use Rattle.engrave_core.specs.Refusals.{flat_refusal};

    ghost from_gives = { λ fault refusal. refusal ≡ flat_refusal fault };

    fn from(fault: FlatFault) -> Refusal {
        match fault {
            FlatFault::Memory => Refusal::Memory,
            _ => Refusal::Input(InputFault::Pixels(fault)),
        }
    }
}

impl From<JoinFault> for Refusal {
    ghost use Rattle.engrave_core.specs.Refusals.{join_refusal};

    ghost from_gives = { λ fault refusal. refusal ≡ join_refusal fault };

    fn from(fault: JoinFault) -> Refusal {
        match fault {
            JoinFault::Open(point) => Refusal::Input(InputFault::Open(point)),
            JoinFault::Memory => Refusal::Memory,
        }
    }
}

impl From<FinishFault> for Refusal {
    ghost use Rattle.engrave_core.specs.Refusals.{code_refusal};

    ghost from_gives = { λ fault refusal. refusal ≡ code_refusal fault };

    fn from(fault: FinishFault) -> Refusal {
        match fault {
            FinishFault::Code(fault) => Refusal::Input(InputFault::Code(fault)),
            FinishFault::Memory => Refusal::Memory,
        }
    }
}

impl From<StreamFault> for Refusal {
    ghost use Rattle.engrave_core.specs.Refusals.{stream_refusal};

    ghost from_gives = { λ fault refusal. refusal ≡ stream_refusal fault };

    fn from(fault: StreamFault) -> Refusal {
        match fault {
            StreamFault::Absent => Refusal::Absent(Which::Code),
            StreamFault::ReadFault => Refusal::ReadFault,
            StreamFault::TooLong => Refusal::Input(InputFault::TooLong(Which::Code)),
            StreamFault::Code(fault) => Refusal::Input(InputFault::Code(fault)),
        }
    }
}

impl From<ContactFault> for Refusal {
    ghost use Rattle.engrave_core.specs.Refusals.{contact_refusal};

    ghost from_gives = { λ fault refusal. refusal ≡ contact_refusal fault };

    fn from(fault: ContactFault) -> Refusal {
        match fault {
            ContactFault::StepTooFine(edge) => Refusal::Input(InputFault::StepTooFine(edge)),
            ContactFault::TooMany => Refusal::Input(InputFault::TooMany(Kind::Contacts)),
            ContactFault::Memory => Refusal::Memory,
        }
    }
}

impl From<PlanFault> for Refusal {
    ghost use Rattle.engrave_core.specs.Refusals.{plan_refusal};

    ghost from_gives = { λ fault refusal. refusal ≡ plan_refusal fault };

    fn from(fault: PlanFault) -> Refusal {
        match fault {
            PlanFault::Contact(fault) => Refusal::from(fault),
            PlanFault::TooManyNodes => Refusal::Input(InputFault::TooMany(Kind::Nodes)),
            PlanFault::TooManyChains => Refusal::Input(InputFault::TooMany(Kind::Chains)),
            PlanFault::Memory => Refusal::Memory,
        }
    }
}

impl From<CoverFault> for Refusal {
    ghost use Rattle.engrave_core.specs.Refusals.{cover_refusal};

    ghost from_gives = { λ fault refusal. refusal ≡ cover_refusal fault };

    fn from(fault: CoverFault) -> Refusal {
        match fault {
            CoverFault::TooManyPoints => Refusal::Input(InputFault::TooMany(Kind::Points)),
            CoverFault::Memory => Refusal::Memory,
        }
    }
}

impl From<PocketFault> for Refusal {
    ghost use Rattle.engrave_core.specs.Refusals.{mill_refusal};

    ghost from_gives = { λ fault refusal. refusal ≡ mill_refusal fault };

    fn from(fault: PocketFault) -> Refusal {
        match fault {
            PocketFault::TooMany => Refusal::Input(InputFault::TooMany(Kind::Chains)),
            PocketFault::Memory => Refusal::Memory,
        }
    }
}

impl From<RepairFault> for Refusal {
    ghost use Rattle.engrave_core.specs.Refusals.{repair_refusal};

    ghost from_gives = { λ fault refusal. refusal ≡ repair_refusal fault };

    fn from(fault: RepairFault) -> Refusal {
        match fault {
            RepairFault::TooMany => Refusal::Input(InputFault::TooMany(Kind::Moves)),
            RepairFault::Memory => Refusal::Memory,
        }
    }
}
