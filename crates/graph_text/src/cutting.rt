// Texts that are too long to be shown whole, or that can't be.
use std::alloc::{AllocError, Global};

/// A text as it is shown: at most so many of its characters, then an ellipsis. A noncharacter (Unicode, section 23.7), which XML doesn't
/// have, is shown by its number.
pub(crate) fn shown(alloc: Global, text: &str, most: usize) -> Result<String, AllocError> {
    let mut shown = String::new(alloc);
    for (place, letter) in text.chars().enumerate() {
        if place >= most {
            shown.push('\u{2026}')?;
            break;
        }
        push_shown(&mut shown, letter)?;
    }
    Ok(shown)
}

fn push_shown(shown: &mut String, letter: char) -> Result<(), AllocError> {
    if is_noncharacter(letter) {
        push_number(shown, letter as u32)
    } else {
        shown.push(letter)
    }
}

fn is_noncharacter(letter: char) -> bool {
    let number = letter as u32;
    (0xfdd0..=0xfdef).contains(&number) || number % 0x10000 >= 0xfffe
}

/// `U+` and the number in hexadecimal digits.
fn push_number(shown: &mut String, number: u32) -> Result<(), AllocError> {
    shown.push_str("U+")?;
    for place in [20, 16, 12, 8, 4, 0].as_slice() {
        let digit = (number >> *place) & 15;
        if digit != 0 || *place < 16 {
            shown.push_str(digit_of(digit))?;
        }
    }
    Ok(())
}

fn digit_of(digit: u32) -> &'static str {
    match digit {
        0 => "0",
        1 => "1",
        2 => "2",
        3 => "3",
        4 => "4",
        5 => "5",
        6 => "6",
        7 => "7",
        8 => "8",
        9 => "9",
        10 => "A",
        11 => "B",
        12 => "C",
        13 => "D",
        14 => "E",
        _ => "F",
    }
}

/// Whether a text has more characters than this.
pub(crate) fn is_longer(text: &str, most: usize) -> bool {
    text.chars().nth(most).is_some()
}
