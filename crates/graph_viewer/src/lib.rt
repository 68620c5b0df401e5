#![tactic(auto)]

//! The viewer: script and style of a page that shows a book, in a browser and without a library.
mod script;
mod style;

pub use script::script_parts;

/// The style, in parts that come one behind the other.
pub fn style_parts() -> [&'static str; 1] {
    [style::STYLE]
}
