//! Whether two requests go together, in one pass over both.
ghost use Rattle.std.specs.Prelude.{◌≡◌, IsTrue, false};
ghost use Rattle.asl_lock_queue.specs.Order.{is_rising};
ghost use Rattle.asl_lock_queue.specs.Waiting.{GoTogether, Clash};

use crate::order::is_below;
use asl_lock_forest::Node;
use asl_mode_lanes::{Mode, compatible};

/// Whether the modes that two rising requests ask go together at every node: at once where the second asks nothing, as of most threads.
#[inline(always)]
pub fn go_together(a: &[(Node, Mode)], b: &[(Node, Mode)]) -> bool
    requires a_rises { IsTrue (is_rising a.now) }
    requires b_rises { IsTrue (is_rising b.now) }
    ensures together { IsTrue result → GoTogether a.now b.now }
    ensures clash { result ≡ false → Clash a.now b.now }
{
    b.is_empty() || go_side_by_side(a, b)
}

/// The same, node by node.
fn go_side_by_side(a: &[(Node, Mode)], b: &[(Node, Mode)]) -> bool
    requires a_rises { IsTrue (is_rising a.now) }
    requires b_rises { IsTrue (is_rising b.now) }
    ensures together { IsTrue result → GoTogether a.now b.now }
    ensures clash { result ≡ false → Clash a.now b.now }
{
    let mut i = 0;
    let mut j = 0;
    while i < a.len() && j < b.len() {
        let x = a[i];
        let y = b[j];
        if is_below(x.0, y.0) {
            i += 1;
        } else if is_below(y.0, x.0) {
            j += 1;
        } else if compatible(x.1, y.1) {
            i += 1;
            j += 1;
        } else {
            return false;
        }
    }
    true
}
