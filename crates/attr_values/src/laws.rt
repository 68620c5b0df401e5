//! Laws over several calls. Each is the contract of a call that does nothing.

ghost use Rattle.attr_values.specs.Laws.{ReadsTheNumber, NumberReadsBack, OneFormANumber, OneNumberASpelling, ValueReadsBack, ItemReadsBack, EqualityIsOfItemValues, OneKeyAValue};

/// The number that is read is the one that the text writes, in its shortest form.
pub fn numbers_are_read()
    ensures { ReadsTheNumber }
{}

/// A number that is written is read back.
pub fn numbers_read_back()
    ensures { NumberReadsBack }
{}

/// Equal numbers have one form, and numbers are ordered as numbers.
pub fn numbers_have_one_form()
    ensures form { OneFormANumber }
    ensures spelling { OneNumberASpelling }
{}

/// Values and items that are written are read back.
pub fn written_is_read_back()
    ensures value { ValueReadsBack }
    ensures item { ItemReadsBack }
{}

/// `==` says whether two values, items or keys are one: what they have room for is no part of it.
pub fn equality_is_of_values()
    ensures { EqualityIsOfItemValues }
{}

/// Items whose keys are equal by value, as `1` and `1.0` are, have one key.
pub fn keys_have_one_form()
    ensures { OneKeyAValue }
{}
