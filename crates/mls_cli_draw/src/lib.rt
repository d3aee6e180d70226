//! Pictures of ratchet trees, as text and as SVG files.
#![tactic(auto)]

mod characters;
mod drawing;
mod nodes;
mod point;
mod row;
mod shapes;
mod stem;
mod svg;
mod svg_rows;
mod svg_style;

pub use drawing::picture;
pub use row::Row;
pub use svg::svg_picture;
