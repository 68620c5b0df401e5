//! Reference paths into JSON values: what they pick, and what a value becomes when another is placed where they lead;
//! and templates, which are filled with what paths pick.
#![tactic(auto)]

mod composing;
mod equality;
mod filling;
mod laws;
mod nesting;
mod path;
mod picking;
mod placing;
mod reading;
mod template;
mod template_reading;

pub use composing::{PickRefusal, pick_placed};
pub use filling::FillFault;
pub use laws::{
    depth_is_told, elsewhere_stays, fields_are_filled, placed_at_root, placed_is_picked,
    texts_spell_one_path, unmarked_stays, values_are_one_template,
};
pub use path::{PathStep, RefPath};
pub use placing::{PlaceFault, PlaceRefusal, place};
pub use reading::PathFault;
pub use template::{Template, TemplateFault};
