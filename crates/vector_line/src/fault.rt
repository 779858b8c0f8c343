// Why no line comes of a request.
ghost use Rattle.vector_line.specs.declared.fault.LineFault.TheVariants.{Memory};
ghost use Rattle.std.specs.Prelude.{◌≡◌};

use std::alloc::AllocError;

#[derive(Clone, Copy, PartialEq, Eq, Debug)]
pub enum LineFault {
    // The words are no request.
    NoRequest,
    // Memory ran out.
    Memory(AllocError),
}

// By hand: a derived one does not say which fault it makes.
impl From<AllocError> for LineFault {
    ghost from_gives = { λ error fault. fault ≡ Memory error };

    fn from(error: AllocError) -> LineFault {
        LineFault::Memory(error)
    }
}
