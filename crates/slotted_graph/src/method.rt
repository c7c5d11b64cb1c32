//! The terms that substitutions look into.

/// Which term stands for the body `b` of a substitution `b[x := t]`, in which `x` is replaced.
#[derive(Clone, Copy, PartialEq, Eq, Debug)]
pub enum SubstMethod {
    /// The canonical term of the body's id.
    SynExpr,
    /// A term that the body's id represents, with as few e-nodes as any.
    Extraction,
}
