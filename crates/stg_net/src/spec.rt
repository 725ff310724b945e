//! Specifications: a net and the names of its places.

ghost use Rattle.std.specs.Prelude.{◌≡◌};
ghost use Rattle.stg_net.specs.Spec.{IsSpec};

use crate::{Net, Seq, Text};
use std::marker::Model;

/// The name of a place: its own, or the two transitions between which it stands.
#[derive(Debug, Drop)]
pub enum PlaceName {
    /// Its own name.
    Named(Text),
    /// The numbers of the transition that gives to it and of the one that takes from it.
    Between { from: u32, to: u32 },
}

/// A specification. Contracts see it as its net and the names of its places, one for each place.
#[derive(Debug, Drop)]
pub struct Spec {
    net: Net,
    place_names: Seq<PlaceName>,
}

impl Model for Spec {
    ghost use Rattle.stg_net.specs.Spec.{SpecLists, IsSpec};

    ghost Value = { SpecLists };

    ghost view = { λ s. record { net = s.net; place_names = s.place_names } };

    ghost invariant = { λ s. IsSpec (record { net = s.net; place_names = s.place_names }) };
}

impl Spec {
    /// A specification of a net that is within `Limits::PART`.
    pub fn new(net: Net, place_names: Seq<PlaceName>) -> Self
        requires { IsSpec (record { net = net; place_names = place_names }) }
        ensures { result ≡ record { net = net; place_names = place_names } }
    {
        Spec { net, place_names }
    }

    /// The net.
    pub fn net(&self) -> &Net
        ensures net { result.now ≡ self.now.net }
        ensures spec { IsSpec self.now }
    {
        &self.net
    }

    /// The names of the places, in their order.
    pub fn place_names(&self) -> &[PlaceName]
        ensures names { result.now ≡ self.now.place_names }
        ensures spec { IsSpec self.now }
    {
        self.place_names.as_slice()
    }

    /// The net, without the names of the places.
    pub fn into_net(self) -> Net
        ensures net { result ≡ self.net }
        ensures spec { IsSpec self }
    {
        let Spec {
            net,
            place_names: _,
        } = self;
        net
    }
}
