//! The limits of the language on trees.

ghost use Rattle.std.specs.Prelude.{◌≤◌, ◌↔◌, flat_map, length, IsTrue};
ghost use Rattle.bf_base.specs.Limits.{longest_script};

use crate::migration::Target;
use bf_base::LONGEST_SCRIPT;

/// The most targets of a MIGRATE.
pub const MOST_TARGETS: usize = 8;

/// Whether some targets have together at most as many arms as a script has bytes. It takes no memory.
pub fn have_few_arms(targets: &[Target]) -> bool
    ensures { IsTrue result ↔ (length (flat_map (λ t. t.arms) targets.now) ≤ longest_script) }
{
    let mut room = LONGEST_SCRIPT as usize;
    for target in targets {
        let Some(left) = room.checked_sub(target.arms.len()) else {
            return false;
        };
        room = left;
    }
    true
}
