/// What a turn of the run made of its rows: no column enters at a row below 0, so that it has no point; they show the
/// point; a pivot on a row and a column, or the cut of a row, and the run goes on.
pub enum PointTurn {
    Bottom(usize),
    List,
    Pivot(usize, usize),
    Cut(usize),
}
