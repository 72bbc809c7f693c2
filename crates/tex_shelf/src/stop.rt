// Why a call of the outside stopped, and why a reader did.
ghost use Rattle.std.specs.Prelude.{◌≡◌};
ghost use Rattle.tex_shelf.specs.Stops.{reader_stop, Carries};
ghost use Rattle.tex_shelf.specs.declared.stop.ShelfStop.TheVariants.{NoMemory as OutOfMemory};
ghost use Rattle.tex_shelf.specs.declared.stop.Stop.TheVariants.{NoMemory as NoReaderMemory};

use std::alloc::{AllocError, AllocFailed};

/// There was no memory for the request, and nothing has changed.
#[derive(Clone, Copy, Debug, PartialEq, Eq)]
pub struct NoMemory;

impl From<AllocError> for NoMemory {
    fn from(_: AllocError) -> Self {
        NoMemory
    }
}

impl<T: Drop> From<AllocFailed<T>> for NoMemory {
    fn from(_: AllocFailed<T>) -> Self {
        NoMemory
    }
}

/// Why a call of a [`Shelf`](crate::Shelf) or a [`Report`](crate::Report) stopped.
#[derive(Clone, Copy, Debug, PartialEq, Eq)]
pub enum ShelfStop {
    /// The outside failed, and the object counted it.
    Failed,
    /// There was no memory, and nothing has changed.
    NoMemory,
}

impl From<AllocError> for ShelfStop {
    ghost from_gives = { λ _ stop. stop ≡ OutOfMemory };

    fn from(_: AllocError) -> Self {
        ShelfStop::NoMemory
    }
}

impl<T: Drop> From<AllocFailed<T>> for ShelfStop {
    ghost from_gives = { λ _ stop. stop ≡ OutOfMemory };

    fn from(_: AllocFailed<T>) -> Self {
        ShelfStop::NoMemory
    }
}

impl From<NoMemory> for ShelfStop {
    ghost from_gives = { λ _ stop. stop ≡ OutOfMemory };

    fn from(_: NoMemory) -> Self {
        ShelfStop::NoMemory
    }
}

/// Why a reader stopped, of whose input a fault is an `F`.
#[derive(Clone, Copy, Debug, PartialEq, Eq)]
pub enum Stop<F> {
    /// The input has a fault.
    Fault(F),
    /// A read failed, and the shelf counted it.
    ReadFault,
    /// There was no memory.
    NoMemory,
}

impl<F> Stop<F> {
    /// The stop with its fault converted to another kind.
    pub fn map_fault<G: From<F>>(self) -> Stop<G>
        ensures { Carries G.from_gives self result }
    {
        match self {
            Stop::Fault(fault) => Stop::Fault(G::from(fault)),
            Stop::ReadFault => Stop::ReadFault,
            Stop::NoMemory => Stop::NoMemory,
        }
    }
}

impl<F> From<ShelfStop> for Stop<F> {
    ghost from_gives = { λ stop now. now ≡ reader_stop stop };

    fn from(stop: ShelfStop) -> Self {
        match stop {
            ShelfStop::Failed => Stop::ReadFault,
            ShelfStop::NoMemory => Stop::NoMemory,
        }
    }
}

impl<F> From<AllocError> for Stop<F> {
    ghost from_gives = { λ _ now. now ≡ NoReaderMemory };

    fn from(_: AllocError) -> Self {
        Stop::NoMemory
    }
}

impl<F, T: Drop> From<AllocFailed<T>> for Stop<F> {
    ghost from_gives = { λ _ now. now ≡ NoReaderMemory };

    fn from(_: AllocFailed<T>) -> Self {
        Stop::NoMemory
    }
}
