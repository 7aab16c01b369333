ghost use Rattle.std.specs.Prelude.{◌≡◌, ◌≤◌, length, take};

use new_parameters::Quotients;

/// Keeps the first so many quotients. It takes no memory.
pub fn keep_quotients(quotients: &mut Quotients, mark: usize)
    requires { mark ≤ length quotients.old.quotients }
    ensures { quotients.new ≡ record quotients.old { quotients = take mark quotients.old.quotients } }
{
    quotients.back_to(mark)
}
