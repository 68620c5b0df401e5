// Laws of definitions: each call does nothing, and its contract is the law.
ghost use Rattle.asl_machine.specs.Levels.{DefinedAreWellFormedThroughout};
ghost use Rattle.asl_machine.specs.Laws.{OneMachine, FaultyIsNone, DefinedAreWellFormed};

/// A definition is one machine at most, so that what is read of it is that machine.
pub fn definitions_are_one_machine()
    ensures { OneMachine }
{}

/// A definition that has a fault is no machine's.
pub fn faulty_definitions_are_none()
    ensures { FaultyIsNone }
{}

/// The machine of a definition starts at a state that it has, and each place where a state may go is one.
pub fn machines_are_well_formed()
    ensures { DefinedAreWellFormed }
{}

/// Each machine that stands in the machine of a definition is complete, and they nest 32 deep at most.
pub fn levels_are_well_formed()
    ensures { DefinedAreWellFormedThroughout }
{}
