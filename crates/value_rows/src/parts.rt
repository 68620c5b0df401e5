//! The inputs of a row, and what answers are put together of.
use crate::fault::RowFault;

/// The character between inputs.
pub(crate) const PART_END: char = '\u{1f}';

/// The first input and the rest, which is empty where there is no other.
pub(crate) fn cut(text: &str) -> (&str, &str) {
    match text.split_once(PART_END) {
        Some((first, rest)) => (first, rest),
        None => (text, ""),
    }
}

pub(crate) fn number_in(text: &str) -> Result<u32, RowFault> {
    match text.parse::<u32>() {
        Ok(number) => Ok(number),
        Err(_) => Err(RowFault::Said("no row")),
    }
}

pub(crate) fn put_number(out: &mut String, number: usize) -> Result<(), RowFault> {
    write!(out, "{number}")?;
    Ok(())
}

pub(crate) fn put_yes(out: &mut String, is_so: bool) -> Result<(), RowFault> {
    out.push_str(if is_so { "yes" } else { "no" })?;
    Ok(())
}

/// Goes on where that is so, and else says this.
pub(crate) fn ensure(is_so: bool, said: &'static str) -> Result<(), RowFault> {
    if is_so {
        Ok(())
    } else {
        Err(RowFault::Said(said))
    }
}
