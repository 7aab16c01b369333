use affine_forms::Form;

/// The sign of a form at the whole vectors of a context: at least 0 at each, below 0 at each, or both occur. The
/// condition of an unknown sign is a form that is at least 0 at just the whole vectors at which the form is.
#[derive(Drop)]
pub enum Class {
    Plus,
    Minus,
    Unknown(Form),
}
