// The machine that the text of a saved one says, where there is one, and the text of a machine as it is now.
#![tactic(auto)]

pub mod image_print;
pub mod machine_image;

pub use machine_image::machine_of;
