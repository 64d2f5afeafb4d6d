//! How a call of the program ends.

use mp_page::BoxError;
use mp_script::errors::ScriptError;
use mp_topology::errors::TopologyError;
use mp_words::numbers::LaneId;

/// How a call of the program ends.
#[derive(Clone, Copy)]
pub enum Status {
    /// The text was written.
    Ok,
    /// Memory ran out.
    NoMemory,
    /// The words are none of the forms.
    Usage,
    /// The file with this number, from 1, couldn't be read.
    ReadFault(u8),
    /// The output didn't take the text.
    WriteFault,
    /// The topology is refused.
    Topology(TopologyError),
    /// The script is refused.
    Script(ScriptError),
    /// The boxes are refused.
    Boxes(BoxError),
    /// The file with this number, from 1, has more than 16,777,216 bytes.
    TooLong(u8),
    /// The lane had fewer units left than its next call needs; 16 is the drain.
    Spent(LaneId),
}

impl Status {
    ghost use Rattle.std.specs.Prelude.{◌≡◌};
    ghost use Rattle.mp_run.specs.Status.{code_of};

    /// The number of the status, with which the program ends.
    pub fn code(&self) -> u8
        ensures { result ≡ code_of self.now }
    {
        match self {
            Status::Ok => 0,
            Status::NoMemory => 1,
            Status::Usage => 2,
            Status::ReadFault(_) => 3,
            Status::WriteFault => 4,
            Status::Topology(_) => 5,
            Status::Script(_) => 6,
            Status::Boxes(_) => 7,
            Status::TooLong(_) => 8,
            Status::Spent(_) => 9,
        }
    }
}
