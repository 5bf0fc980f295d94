// Why a call is not answered.
use std::io;

// It is no call of docs/CALLS.md, or not all of it stands there.
#[derive(Clone, Copy, Debug)]
pub struct Malformed;

// The same, or its line cannot be written.
#[derive(Debug, Drop)]
pub enum Fault {
    Malformed,
    Io(io::Error),
}

impl From<Malformed> for Fault {
    fn from(_malformed: Malformed) -> Fault {
        Fault::Malformed
    }
}

impl From<io::Error> for Fault {
    fn from(error: io::Error) -> Fault {
        Fault::Io(error)
    }
}
