use quast_walk::Point;

/// Whether two answers have the same values, or a vector at which they do not.
#[derive(Drop)]
pub enum Sameness {
    Same,
    Differ(Point),
}
