use lines::fault::Fault;
use std::alloc::AllocError;
use std::io;

// Why the program ends before its work is done.
#[derive(Debug, Drop)]
pub(crate) enum Failure {
    // the command has words
    Usage,
    Refused(Fault),
    Broken(anyhow::Error),
}

impl From<Fault> for Failure {
    fn from(fault: Fault) -> Failure {
        Failure::Refused(fault)
    }
}

impl From<anyhow::Error> for Failure {
    fn from(error: anyhow::Error) -> Failure {
        Failure::Broken(error)
    }
}

impl From<io::Error> for Failure {
    fn from(error: io::Error) -> Failure {
        Failure::Broken(error.into())
    }
}

impl From<AllocError> for Failure {
    fn from(error: AllocError) -> Failure {
        Failure::Broken(error.into())
    }
}
