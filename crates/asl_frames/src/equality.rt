// Equality of frames and of their parts: the counts and the places first, since a value may be long and is mostly shared.
ghost use Rattle.std.specs.Prelude.{◌≡◌};
ghost use Rattle.asl_frames.specs.Same.{origin_number, same_origin};

use crate::frame::{Fault, Frame, Origin, Phase, Retries};

fn number_of(origin: Origin) -> u8
    ensures { result ≡ origin_number origin }
{
    match origin {
        Origin::Call => 0,
        Origin::Branch => 1,
        Origin::Other => 2,
    }
}

fn same_origin(a: Origin, b: Origin) -> bool
    ensures { result ≡ same_origin a b }
{
    number_of(a) == number_of(b)
}

impl PartialEq for Fault {
    ghost use Rattle.std.specs.Cmp.{partial_equiv_from_equiv};
    ghost use Rattle.asl_tree.specs.PathSame.{exact_equiv};
    ghost use Rattle.asl_frames.specs.Same.{same_fault, fault_exact};

    ghost eq = { same_fault };

    ghost laws = { partial_equiv_from_equiv (exact_equiv same_fault fault_exact) };

    fn eq(&self, other: &Fault) -> bool {
        same_origin(self.origin, other.origin)
            && self.error == other.error
            && self.cause == other.cause
    }
}

impl Eq for Fault {
    ghost use Rattle.asl_tree.specs.PathSame.{exact_equiv};
    ghost use Rattle.asl_frames.specs.Same.{same_fault, fault_exact};

    ghost laws = { exact_equiv same_fault fault_exact };
}

impl PartialEq for Phase {
    ghost use Rattle.std.specs.Cmp.{partial_equiv_from_equiv};
    ghost use Rattle.asl_tree.specs.PathSame.{exact_equiv};
    ghost use Rattle.asl_frames.specs.Same.{same_phase, phase_exact};

    ghost eq = { same_phase };

    ghost laws = { partial_equiv_from_equiv (exact_equiv same_phase phase_exact) };

    fn eq(&self, other: &Phase) -> bool {
        match (self, other) {
            (Phase::Ready, Phase::Ready) => true,
            (Phase::Parked(branches, bound), Phase::Parked(others, another)) => {
                branches == others && bound == another
            }
            (Phase::Done(output), Phase::Done(other)) => output == other,
            (Phase::Failed(fault), Phase::Failed(other)) => fault == other,
            _ => false,
        }
    }
}

impl Eq for Phase {
    ghost use Rattle.asl_tree.specs.PathSame.{exact_equiv};
    ghost use Rattle.asl_frames.specs.Same.{same_phase, phase_exact};

    ghost laws = { exact_equiv same_phase phase_exact };
}

impl PartialEq for Retries {
    ghost use Rattle.std.specs.Cmp.{partial_equiv_from_equiv};
    ghost use Rattle.asl_tree.specs.PathSame.{exact_equiv};
    ghost use Rattle.asl_frames.specs.Same.{same_counters, counters_exact};

    ghost eq = { same_counters };

    ghost laws = { partial_equiv_from_equiv (exact_equiv same_counters counters_exact) };

    fn eq(&self, other: &Retries) -> bool {
        self.inner == other.inner
    }
}

impl Eq for Retries {
    ghost use Rattle.asl_tree.specs.PathSame.{exact_equiv};
    ghost use Rattle.asl_frames.specs.Same.{same_counters, counters_exact};

    ghost laws = { exact_equiv same_counters counters_exact };
}

impl PartialEq for Frame {
    ghost use Rattle.std.specs.Cmp.{partial_equiv_from_equiv};
    ghost use Rattle.asl_tree.specs.PathSame.{exact_equiv};
    ghost use Rattle.asl_frames.specs.Same.{same_frame, frame_exact};

    ghost eq = { same_frame };

    ghost laws = { partial_equiv_from_equiv (exact_equiv same_frame frame_exact) };

    fn eq(&self, other: &Frame) -> bool {
        self.count == other.count
            && self.phase == other.phase
            && self.level == other.level
            && self.state == other.state
            && self.retries == other.retries
            && self.raw == other.raw
    }
}

impl Eq for Frame {
    ghost use Rattle.asl_tree.specs.PathSame.{exact_equiv};
    ghost use Rattle.asl_frames.specs.Same.{same_frame, frame_exact};

    ghost laws = { exact_equiv same_frame frame_exact };
}
