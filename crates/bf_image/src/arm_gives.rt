//! Whether an arm makes a row of a row of FROM and one of JOIN, without making it.

ghost use Rattle.std.specs.Prelude.{◌≡◌, ◌++◌, [], ◌∷◌, IfOk};
ghost use Rattle.std.specs.Option.{option_copied, option_to_list};
ghost use Rattle.bf_image.specs.ArmRows.{is_match};
ghost use Rattle.bf_image.specs.Giving.{makes_any};

use crate::beside::{is_matched_beside, side_by_side};
use bf_base::{Memory, Row};
use bf_tree::{PlacedArm, Test, holds};
use std::alloc::Global;

/// Whether two rows match ON and satisfy an arm's condition. Only for a condition that may fail are
/// they put side by side.
fn is_match(
    alloc: Global,
    arm: &PlacedArm,
    on: &[(u8, u8)],
    left: &Row,
    right: &Row,
) -> Result<bool, Memory>
    ensures { IfOk result (λ found.
        found ≡ is_match arm.now on.now (left.now ++ right.now)) }
{
    if !is_matched_beside(left, right, on) {
        return Ok(false);
    }
    if let Test::Always = arm.cond.node() {
        return Ok(true);
    }
    let pair = side_by_side(alloc, left, right)?;
    holds(alloc, &arm.cond, &pair)
}

/// Whether an arm makes a row of a row of FROM and one of JOIN: of the former alone where it has no
/// JOIN, and none where it has one and there is no row of it.
pub(crate) fn makes_any(
    alloc: Global,
    arm: &PlacedArm,
    from: &Row,
    join: Option<&Row>,
) -> Result<bool, Memory>
    ensures { IfOk result (λ any. any ≡ makes_any arm.now (from.now ∷ [])
        (option_to_list (option_copied join.entry))) }
{
    let Some(on) = &arm.on else {
        return holds(alloc, &arm.cond, from);
    };
    match join {
        Some(join) => is_match(alloc, arm, on.as_slice(), from, join),
        None => Ok(false),
    }
}
