ghost use Rattle.std.specs.Prelude.{ℕ, ◌≤◌, ℤ, List, length, take};
ghost use Rattle.lane_questions.specs.Asking.{IsAsking};

use lane_questions::LaneQuestions;

/// A context goes back to its first forms, over so many places: what its questions keep is of those alone.
pub fn back_to(questions: &mut LaneQuestions, forms: usize, places: usize)
    ensures { (n : ℕ) (K : List (List ℤ)) → forms ≤ length K → IsAsking n K questions.old
        → IsAsking places (take forms K) questions.new }
{
    questions.back_to(forms, places)
}
