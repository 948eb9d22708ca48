//! What each worker passes before it works a piece.

/// A gate that each worker passes before it works a piece. A test may hold workers up there.
pub trait Gate: Sync {
    /// Passes the gate with the piece of this number.
    fn enter(&self, piece: u32);
}

/// The gate that does nothing.
#[derive(Clone, Copy)]
pub struct OpenGate;

impl Gate for OpenGate {
    fn enter(&self, _piece: u32) {}
}
