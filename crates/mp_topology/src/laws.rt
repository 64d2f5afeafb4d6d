//! What the definitions of this crate say, in words of their own. The functions do nothing: each one's contract is a law.

ghost use Rattle.std.specs.Prelude.{◌≡◌, ◌↔◌, ◌⊎◌, ℕ, List, Ok, Err};
ghost use Rattle.mp_topology.specs.declared.errors.TopologyError.{TopologyError};
ghost use Rattle.mp_topology.specs.declared.topology.Topology.{Topology};
ghost use Rattle.mp_topology.specs.Topology.{topology_in};
ghost use Rattle.mp_topology.specs.Readable.{Says, IsRefused};

/// Every text says a topology or is refused.
pub fn text_is_read_or_refused()
    ensures { (bytes : List ℕ) → ((topology : Topology) × Says bytes topology) ⊎ ((refusal : TopologyError) × IsRefused bytes refusal) }
{}

/// What is read is the topology that the text says, of which there is one at most.
pub fn topology_is_read()
    ensures { (bytes : List ℕ) (topology : Topology) → (topology_in bytes ≡ Ok topology) ↔ Says bytes topology }
{}

/// What is answered otherwise is why the text is refused, for which there is one reason at most.
pub fn refusal_is_read()
    ensures { (bytes : List ℕ) (refusal : TopologyError) → (topology_in bytes ≡ Err refusal) ↔ IsRefused bytes refusal }
{}
