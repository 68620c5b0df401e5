// Laws of the definitions that several calls rest on. Each is the contract of a call that does nothing.
ghost use Rattle.json_tree.specs.Equality.{EqualityIsOfValues};
ghost use Rattle.json_tree.specs.Proper.{ReadsBack, TextsTellApart};

/// Reading what was written for a value that nests at most 127 deep gives the value back.
pub fn written_is_read_back()
    ensures { ReadsBack }
{}

/// Different values that nest at most 127 deep have different texts.
pub fn texts_tell_apart()
    ensures { TextsTellApart }
{}

/// `==` says whether two values are one: what they have room for is no part of it.
pub fn equality_is_of_values()
    ensures { EqualityIsOfValues }
{}
