//! A request on its way.

ghost use Rattle.std.specs.Prelude.{◌≡◌};

use crate::aloft::Aloft;
use mp_words::numbers::ReqId;
use mp_words::request::Request;

/// A request on its way to a path, with its flight.
#[derive(Drop)]
pub struct Flying {
    pub flight: Aloft,
    pub request: Request,
}

impl Flying {
    /// The number of the request, by its flight.
    pub fn req(&self) -> ReqId
        ensures { result ≡ self.now.flight.req }
    {
        self.flight.req
    }
}
