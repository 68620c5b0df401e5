// Laws of machines: each call does nothing, and its contract is the law.
ghost use Rattle.asl_tree.specs.Laws.{EqualityIsOfMachines};

/// `==` says whether two machines are one: what they have room for is no part of it.
pub fn equality_is_of_machines()
    ensures { EqualityIsOfMachines }
{}
