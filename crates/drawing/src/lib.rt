//! A layout as a drawing: its tree in SVG.
#![tactic(auto)]

mod attribute;
mod control;
mod drawing;
mod element;
mod figures;
mod label;
mod legend;
mod placing;
mod port_figure;
mod shapes;

pub use drawing::write_drawing;
