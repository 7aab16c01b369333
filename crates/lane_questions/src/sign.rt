/// The sign of a form at a context's points: at least 0 at each, below 0 at each, or both occur.
#[derive(Clone, Copy)]
pub enum LaneSign {
    Plus,
    Minus,
    Unknown,
}
