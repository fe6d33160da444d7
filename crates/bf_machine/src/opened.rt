//! What a run began with.

use std::marker::Brand;

/// What a run began with: the database, the registry of its migrations, the script, and whether a log
/// keeps it. It has no functions; contracts alone read it.
pub trait Opened {
    ghost use Rattle.std.specs.Prelude.{Bool};
    ghost use Rattle.bf_image.specs.Registries.{Registry};
    ghost use Rattle.bf_tree.specs.declared.script.Script.{Script};
    ghost use Rattle.bf_sql.specs.Database.{Database};

    ghost opening: { Database };

    ghost registry: { Registry };

    ghost script: { Script };

    /// Whether a log may end groups.
    ghost logged: { Bool };
}

impl Opened for Brand {
    ghost use Rattle.std.specs.Prelude.{[], false};
    ghost use Rattle.bf_sql.specs.Database.{empty_database};

    ghost opening = { empty_database };

    ghost registry = { record {
      catalogs = record { tag = []; buckets = [] };
      migrations = record { tag = []; buckets = [] };
    } };

    ghost script = { record { phases = 0; sessions = [] } };

    ghost logged = { false };
}
