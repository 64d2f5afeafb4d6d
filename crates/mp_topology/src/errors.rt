//! Why a text is no topology.

ghost use Rattle.std.specs.Prelude.{◌≡◌};
ghost use Rattle.mp_topology.specs.declared.errors.TopologyError.TheVariants.{NoMemory};

use std::alloc::{AllocError, AllocFailed};
use std::fmt;
use thiserror::Error;

/// A field of a topology.
#[derive(Clone, Copy, Debug)]
pub enum Field {
    Nsid,
    Anagrpmax,
    Group,
    Policy,
    Nodes,
    Distance,
    Controllers,
    Name,
    Node,
    Ana,
    State,
    Page,
    Opening,
}

/// A place of a topology: a field, with the place in its list where it stands in one, else 0.
#[derive(Clone, Copy, Debug)]
pub struct Place {
    pub field: Field,
    pub index: u32,
}

/// Why a text is no topology: the first check that fails.
#[derive(Clone, Copy, Debug, Error)]
pub enum TopologyError {
    /// The text is no TOML table.
    #[error("the text is no TOML table")]
    NotToml,
    /// A needed field is missing, or a field has another type.
    #[error("a field is missing or has another type: {0}")]
    Field(Place),
    /// The type is right and the value isn't.
    #[error("a value is out of its range: {0}")]
    Range(Place),
    /// A name stands there for the second time.
    #[error("a name stands there twice: {0}")]
    Duplicate(Place),
    /// A list is longer than it may be.
    #[error("a list is too long: {0}")]
    Limit(Place),
    /// Memory ran out.
    #[error("out of memory")]
    NoMemory,
}

impl From<AllocError> for TopologyError {
    ghost from_gives = { λ _ e. e ≡ NoMemory };

    fn from(_e: AllocError) -> TopologyError {
        TopologyError::NoMemory
    }
}

impl<T: Drop> From<AllocFailed<T>> for TopologyError {
    ghost from_gives = { λ _ e. e ≡ NoMemory };

    fn from(_e: AllocFailed<T>) -> TopologyError {
        TopologyError::NoMemory
    }
}

impl Field {
    ghost use Rattle.mp_topology.specs.PlaceText.{field_text};

    /// The field's name in the file.
    #[tactic(auto, unfolding(crate::specs::PlaceText::field_text))]
    pub fn name(self) -> &'static str
        ensures { result.now ≡ field_text self }
    {
        match self {
            Field::Nsid => "nsid",
            Field::Anagrpmax => "anagrpmax",
            Field::Group => "group",
            Field::Policy => "policy",
            Field::Nodes => "nodes",
            Field::Distance => "distance",
            Field::Controllers => "controllers",
            Field::Name => "name",
            Field::Node => "node",
            Field::Ana => "ana",
            Field::State => "state",
            Field::Page => "page",
            Field::Opening => "opening",
        }
    }
}

impl fmt::Display for Field {
    ghost use Rattle.std.specs.Prelude.{Some};
    ghost use Rattle.mp_topology.specs.PlaceText.{field_text};

    ghost output = { λ field. Some (field_text field) };

    fn fmt<W: fmt::Write>(&self, f: &mut fmt::Formatter<W>) -> fmt::Result {
        f.write_str(self.name())
    }
}

impl fmt::Display for Place {
    ghost use Rattle.std.specs.Prelude.{Some};
    ghost use Rattle.mp_topology.specs.PlaceText.{place_text};

    ghost output = { λ place. Some (place_text place) };

    fn fmt<W: fmt::Write>(&self, f: &mut fmt::Formatter<W>) -> fmt::Result {
        write!(f, "{} {}", self.field, self.index)
    }
}
