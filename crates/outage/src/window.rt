// The check of a window: document 01, "Outage table and sheet".
ghost use Rattle.std.specs.Prelude.{◌≡◌};
ghost use Rattle.outage_spec.specs.Window.{judged};
ghost use Rattle.lexical_util.specs.Answer.{of_result};

use lexical_float::less_f64;
use lexical_util::{Reason, Refusal};
use outage_spec::Window;

// 14: the end below the start, by value.
pub fn check_window(window: Window) -> Result<Window, Refusal>
    ensures { of_result result ≡ judged window }
{
    if less_f64(window.end, window.start) {
        return Err(Reason::EndBelowStart.at(0));
    }
    Ok(window)
}
