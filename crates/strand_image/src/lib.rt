//! The image file of a program: entries, code words, data and symbols, with one spelling for each image in
//! each of its two versions. The format is in docs/FORMATS.md.
#![tactic(auto)]

mod checking;
mod fault;
mod image;
mod label;
mod quantity;
mod reading;
mod symbol;
mod version;
mod writing;

pub use checking::{put_in_order, region_number};
pub use fault::ImageFault;
pub use image::Image;
pub use label::Label;
pub use quantity::Quantity;
pub use reading::read_image;
pub use symbol::{Region, Symbol};
pub use writing::write_image;
