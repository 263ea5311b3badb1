//! Where connections lead.

ghost use Rattle.std.specs.Prelude.{◌≡◌};
ghost use Rattle.aadl_structure.specs.FanIns.{destination_key};
ghost use Rattle.aadl_structure.specs.declared.destination.Destination.{Destination as DestinationValue};

use aadl_names::{Held, Keyed};
use aadl_tree::ConnectionEnd;
use hw_text::Place;

/// Where a connection leads, as it is written.
#[derive(Drop)]
pub struct Destination<'a> {
    /// The implementation that the connection stands in.
    pub implementation: usize,
    pub end: Held<'a, ConnectionEnd>,
}

impl<'a> Keyed for Destination<'a> {
    ghost key_of = { destination_key };

    ghost place_of = { λ (d : DestinationValue). d.end.first.place };

    fn key(&self) -> (usize, &[u8], &[u8]) {
        let end = self.end.get();
        let port: &[u8] = match &end.port {
            Some(port) => port.rows(),
            None => &[],
        };
        (self.implementation, end.first.name.rows(), port)
    }

    fn place(&self) -> Place {
        self.end.get().first.place
    }
}
