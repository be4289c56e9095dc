//! Zones.
use zones::{Gate, Ring};

/// Where a zone is.
#[derive(Drop)]
pub enum Shape {
    /// The rings of a polygon, or of all parts of a multipolygon: outer ones and holes alike.
    Polygon(Vec<Ring>),
    /// A line of two positions.
    Gate(Gate),
}

/// A name and a shape.
#[derive(Drop)]
pub struct Zone {
    pub name: String,
    pub shape: Shape,
}

/// The zones of a file, in its order. No two have the same name.
#[derive(Drop)]
pub struct ZoneFile {
    pub zones: Vec<Zone>,
}
