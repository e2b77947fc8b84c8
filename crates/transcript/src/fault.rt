// Why a call of a script comes to nothing.
ghost use Rattle.std.specs.Prelude.{◌≡◌, Some};
ghost use Rattle.std.specs.Fmt.{DisplaysOnOk};
ghost use Rattle.transcript.specs.Faults.{fault_text, refusal_text, IsHost};
ghost use Rattle.transcript.specs.declared.fault.CallError.TheVariants.{Fault as fault, Host as host};

use std::alloc::{AllocError, AllocFailed};
use std::{fmt, io};
use text::refusal::Refusal;

/// Why a call comes to nothing: its line cannot be read, or it is refused. A transcript says which.
#[derive(Clone, Copy, PartialEq, Eq, Debug)]
pub enum Fault {
    NotUnderstood,
    NotANumberOfLines,
    NotAWidth,
    NotBytes,
    NoSuchKey,
    Refused(Refusal),
}

impl From<Refusal> for Fault {
    ghost use Rattle.transcript.specs.declared.fault.Fault.TheVariants.{Refused};

    ghost from_gives = { λ r f. f ≡ Refused r };

    fn from(refusal: Refusal) -> Fault {
        Self::Refused(refusal)
    }
}

fn write_refusal<W: fmt::Write>(f: &mut fmt::Formatter<W>, refusal: Refusal) -> fmt::Result
    ensures text { DisplaysOnOk W.write_str_gives f.old result (Some (refusal_text refusal)) f.new }
{
    let number = u8::from(refusal);
    let layer = refusal.layer().name();
    let words = refusal.words();
    match refusal.place() {
        Some(place) => write!(f, "refused {number} ({layer}) at {place}: {words}"),
        None => write!(f, "refused {number} ({layer}): {words}"),
    }
}

impl fmt::Display for Fault {
    ghost output = { λ f. Some (fault_text f) };

    fn fmt<W: fmt::Write>(&self, f: &mut fmt::Formatter<W>) -> fmt::Result {
        match self {
            Fault::NotUnderstood => write!(f, "not understood"),
            Fault::NotANumberOfLines => write!(f, "not a number of lines"),
            Fault::NotAWidth => write!(f, "not a width"),
            Fault::NotBytes => write!(f, "not bytes in hexadecimal"),
            Fault::NoSuchKey => write!(f, "no such key"),
            Fault::Refused(refusal) => write_refusal(f, *refusal),
        }
    }
}

/// Why a call does not come to its end: for a fault, and the script goes on, or because the host fails, and it does not.
#[derive(Debug, Drop)]
pub enum CallError {
    Fault(Fault),
    Host(io::Error),
}

impl From<Fault> for CallError {
    ghost from_gives = { λ f e. e ≡ fault f };

    fn from(fault: Fault) -> CallError {
        CallError::Fault(fault)
    }
}

impl From<Refusal> for CallError {
    ghost use Rattle.transcript.specs.declared.fault.Fault.TheVariants.{Refused};

    ghost from_gives = { λ r e. e ≡ fault (Refused r) };

    fn from(refusal: Refusal) -> CallError {
        CallError::Fault(Fault::Refused(refusal))
    }
}

impl From<io::Error> for CallError {
    ghost from_gives = { λ h e. e ≡ host h };

    fn from(error: io::Error) -> CallError {
        CallError::Host(error)
    }
}

impl From<AllocError> for CallError {
    ghost from_gives = { λ _ e. IsHost e };

    fn from(error: AllocError) -> CallError {
        CallError::Host(io::Error::from(error))
    }
}

impl<T: Drop> From<AllocFailed<T>> for CallError {
    ghost from_gives = { λ _ e. IsHost e };

    fn from(failed: AllocFailed<T>) -> CallError {
        CallError::Host(io::Error::from(failed))
    }
}
