//! How large a net may be.

ghost use Rattle.std.specs.Prelude.{◌≡◌};
ghost use Rattle.stg_net.specs.declared.limits.TheConstants.Limits.{PART, SPEC};
ghost use Rattle.stg_net.specs.LimitValues.{part_limits, spec_limits};

/// The most of each kind that a net has, and the most bytes that its text has. `weight` bounds
/// tokens too.
#[derive(Clone, Copy, Debug, PartialEq, Eq)]
pub struct Limits {
    /// Bytes of a text.
    pub bytes: u32,
    /// Signals.
    pub signals: u32,
    /// Transitions.
    pub trans: u32,
    /// Places.
    pub places: u32,
    /// Arcs, each direction for itself.
    pub arcs: u32,
    /// The weight of an arc and the tokens of a place.
    pub weight: u32,
}

impl Limits {
    /// The limits of a specification.
    pub const SPEC: Limits = Limits {
        bytes: 1_048_576,
        signals: 250,
        trans: 1_000,
        places: 2_000,
        arcs: 20_000,
        weight: 1_000,
    };

    /// The limits of a component.
    pub const PART: Limits = Limits {
        bytes: 16_777_216,
        signals: 250,
        trans: 1_000,
        places: 4_064,
        arcs: 100_000,
        weight: 1_000_000,
    };
}

/// The limits are these numbers.
pub fn law_limits()
    ensures spec { SPEC ≡ spec_limits }
    ensures part { PART ≡ part_limits }
{}
