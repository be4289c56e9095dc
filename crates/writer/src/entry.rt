//! Entries of a file, and how their legs are written.
use legs::Leg;
use mfcsv::Dimension;
use rows::Row;
use std::marker::Model;
use timebase::Ms;

/// How legs are written: with how many coordinates, and with times as offsets from which moment.
#[derive(Clone, Copy, PartialEq, Eq, Debug)]
pub struct Frame {
    pub dimension: Dimension,
    pub base: Ms,
}

/// A leg, the name of its feature and the attribute values of its record.
#[derive(Drop)]
pub struct Entry<'a> {
    pub name: &'a str,
    pub leg: &'a Leg,
    pub values: Row<'a>,
}

impl<'a> Model for Entry<'a> {
    ghost use Rattle.writer.specs.Entries.{NamedLegView};

    ghost Value = { NamedLegView };

    ghost view = { λ a. record { name = a.name.now; leg = a.leg.now; values = a.values } };
}
