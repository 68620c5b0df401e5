//! The script is the texts of these files, one behind the other in this order. One function encloses it: `dom` opens it, `begin` closes it.
mod address;
mod begin;
mod cone;
mod dom;
mod execution;
mod frame;
mod items;
mod lanes;
mod minimap;
mod overview;
mod page_source;
mod panel;
mod picture;
mod table;
mod values;
mod words;

/// The script, in parts that come one behind the other. Each part comes from a function of its own, so that what names the script isn't proved
/// over its letters.
pub fn script_parts() -> [&'static str; 16] {
    [
        dom::text(),
        values::text(),
        words::text(),
        address::text(),
        page_source::text(),
        table::text(),
        picture::text(),
        minimap::text(),
        frame::text(),
        overview::text(),
        lanes::text(),
        execution::text(),
        cone::text(),
        panel::text(),
        items::text(),
        begin::text(),
    ]
}
