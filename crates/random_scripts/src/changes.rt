//! The changes of the schema that random scripts make.

use crate::tables::{NEVER, Named, Table, described};

/// What a change of the schema makes tables of.
#[derive(Clone, Copy, Debug, PartialEq, Eq)]
pub enum Kind {
    /// A table without rows.
    Create,
    /// Rows of one table, each by itself.
    Rows,
    /// Rows of one table, each with the row of another that its key names.
    Joined,
    /// Totals of groups.
    Totals,
    /// Pairs of rows of two tables, by columns that are no key.
    Pairs,
    /// Rows behind tags, by UNION ALL.
    Tagged,
    /// Several of these.
    Mixed,
    /// Nothing: it is refused.
    Refused,
}

/// A CREATE TABLE or a MIGRATE. It is taken where its sources are there, and each of its targets is a source or not
/// there; and refused, for a reason of its own, where it has no targets.
pub struct Change {
    pub kind: Kind,
    pub sources: &'static [Named],
    pub targets: &'static [Named],
    /// Its form, beside its first source, or else its first target.
    pub form: &'static str,
}

impl Change {
    /// The table beside which its form stands.
    pub fn table(&self) -> &'static Table {
        match (self.sources, self.targets) {
            ([first, ..], _) | ([], [first, ..]) => described(*first),
            ([], []) => &NEVER,
        }
    }

    /// Whether it is a MIGRATE that is taken where it fits.
    pub fn is_migrate(&self) -> bool {
        !matches!(self.kind, Kind::Create | Kind::Refused)
    }

    /// Whether a target has the name of a source.
    pub fn is_onto_source(&self) -> bool {
        self.targets
            .iter()
            .any(|target| self.sources.contains(target))
    }
}

pub const CHANGES: &[Change] = &[
    Change {
        kind: Kind::Create,
        sources: &[],
        targets: &[Named::A],
        form: "create table a (id int, x int, y int check (y between 0 and 99), s varchar(4), primary key (id))",
    },
    Change {
        kind: Kind::Create,
        sources: &[],
        targets: &[Named::B],
        form: "create table b (id int, x int, z int check (z between -9 and 9), primary key (id))",
    },
    Change {
        kind: Kind::Create,
        sources: &[],
        targets: &[Named::C],
        form: "create table c (k int, m varchar(3), n int, primary key (m, k))",
    },
    Change {
        kind: Kind::Create,
        sources: &[],
        targets: &[Named::Extra],
        form: "create table extra (id int, x int, primary key (id))",
    },
    Change {
        kind: Kind::Create,
        sources: &[],
        targets: &[Named::W],
        form: "create table w (id int, m varchar(3), primary key (id))",
    },
    Change {
        kind: Kind::Rows,
        sources: &[Named::A],
        targets: &[Named::P, Named::Q],
        form: "migrate (create table p as select id, x from a; create table q as select y, s, id from a)",
    },
    Change {
        kind: Kind::Rows,
        sources: &[Named::A],
        targets: &[Named::P, Named::Q],
        form: "migrate (create table q as select y, s, id from aS; create table p as select id, x from aS)",
    },
    Change {
        kind: Kind::Rows,
        sources: &[Named::A],
        targets: &[Named::P, Named::Q],
        form: "migrate (create table p as select x, id from aS; create table q as select y, s, id from aS)",
    },
    Change {
        kind: Kind::Rows,
        sources: &[Named::A],
        targets: &[Named::P],
        form: "migrate (create table p as select x, id from aS)",
    },
    Change {
        kind: Kind::Rows,
        sources: &[Named::A],
        targets: &[Named::A],
        form: "migrate (create table a as select id, y * 2 + 1 as x, y, s from aS)",
    },
    Change {
        kind: Kind::Rows,
        sources: &[Named::A],
        targets: &[Named::A],
        form: "migrate (create table a as select x, id, y, s || 'x' as s from a)",
    },
    Change {
        kind: Kind::Rows,
        sources: &[Named::B],
        targets: &[Named::B],
        form: "migrate (create table b as select id, z as x, z from bS)",
    },
    Change {
        kind: Kind::Rows,
        sources: &[Named::C],
        targets: &[Named::C],
        form: "migrate (create table c as select n, m, k from cS)",
    },
    Change {
        kind: Kind::Rows,
        sources: &[Named::Extra],
        targets: &[Named::P],
        form: "migrate (create table p as select id, x from extraS)",
    },
    Change {
        kind: Kind::Rows,
        sources: &[Named::P],
        targets: &[Named::Extra],
        form: "migrate (create table extra as select id, x from pS)",
    },
    Change {
        kind: Kind::Rows,
        sources: &[Named::J],
        targets: &[Named::P, Named::B],
        form: "migrate (create table p as select id, x from jS; create table b as select id, x, z from jS)",
    },
    Change {
        kind: Kind::Rows,
        sources: &[Named::F],
        targets: &[Named::P, Named::Extra],
        form: "migrate (create table p as select id, x from fS; create table extra as select id, n as x from fS)",
    },
    Change {
        kind: Kind::Rows,
        sources: &[Named::G],
        targets: &[Named::P],
        form: "migrate (create table p as select x as id, cnt as x from gS)",
    },
    Change {
        kind: Kind::Rows,
        sources: &[Named::G],
        targets: &[Named::G],
        form: "migrate (create table g as select x, cnt, top as total, total as top from gS)",
    },
    Change {
        kind: Kind::Rows,
        sources: &[Named::T],
        targets: &[Named::T],
        form: "migrate (create table t as select tag, id, v from tS)",
    },
    Change {
        kind: Kind::Rows,
        sources: &[Named::T],
        targets: &[Named::R],
        form: "migrate (create table r as select tag as aid, id as bid, v from tS)",
    },
    Change {
        kind: Kind::Rows,
        sources: &[Named::R],
        targets: &[Named::T],
        form: "migrate (create table t as select aid as tag, bid as id, v from rS)",
    },
    Change {
        kind: Kind::Rows,
        sources: &[Named::H],
        targets: &[Named::C],
        form: "migrate (create table c as select x as k, s as m, cnt as n from hS)",
    },
    Change {
        kind: Kind::Rows,
        sources: &[Named::D],
        targets: &[Named::D],
        form: "migrate (create table d as select m, low as cnt, cnt as low from dS)",
    },
    Change {
        kind: Kind::Rows,
        sources: &[Named::A, Named::Extra],
        targets: &[Named::P, Named::Q],
        form: "migrate (create table q as select y, s, id from aS; create table p as select id, x from extra)",
    },
    Change {
        kind: Kind::Rows,
        sources: &[Named::T],
        targets: &[Named::T, Named::R],
        form: "migrate (create table t as select tag, id, v from t where tag <> 2; create table r as select tag as aid, id as bid, v from t where tag = 2)",
    },
    Change {
        kind: Kind::Joined,
        sources: &[Named::A, Named::B],
        targets: &[Named::J],
        form: "migrate (create table j as select a.id, a.x as x, y, z from a join b on a.x = b.id)",
    },
    Change {
        kind: Kind::Joined,
        sources: &[Named::A, Named::B],
        targets: &[Named::J],
        form: "migrate (create table j as select a.id, a.x as x, y, z from a join b on a.x = b.id where z O N)",
    },
    Change {
        kind: Kind::Joined,
        sources: &[Named::A, Named::B],
        targets: &[Named::J],
        form: "migrate (create table j as select b.id, b.x as x, y, z from a join b on a.id = b.x where y O N)",
    },
    Change {
        kind: Kind::Joined,
        sources: &[Named::A, Named::B],
        targets: &[Named::J],
        form: "migrate (create table j as select a.id, b.x as x, y, z from a join b on a.id = b.id)",
    },
    Change {
        kind: Kind::Joined,
        sources: &[Named::A, Named::C],
        targets: &[Named::F],
        form: "migrate (create table f as select id, x, s, n from a join c on s = m and x = k where id O N)",
    },
    Change {
        kind: Kind::Joined,
        sources: &[Named::P, Named::Q],
        targets: &[Named::A],
        form: "migrate (create table a as select p.id, x, y, s from p join q on p.id = q.id)",
    },
    Change {
        kind: Kind::Joined,
        sources: &[Named::P, Named::Q],
        targets: &[Named::A],
        form: "migrate (create table a as select q.id, x, y, s from q join p on q.id = p.id where y O N)",
    },
    Change {
        kind: Kind::Joined,
        sources: &[Named::P, Named::B],
        targets: &[Named::J],
        form: "migrate (create table j as select p.id, p.x as x, b.x as y, z from p join b on p.x = b.id)",
    },
    Change {
        kind: Kind::Totals,
        sources: &[Named::A],
        targets: &[Named::G],
        form: "migrate (create table g as select x, count(*) as cnt, sum(y) as total, max(id) as top from aS group by x)",
    },
    Change {
        kind: Kind::Totals,
        sources: &[Named::A],
        targets: &[Named::H],
        form: "migrate (create table h as select s, x, count(*) as cnt from aS group by x, s)",
    },
    Change {
        kind: Kind::Totals,
        sources: &[Named::C],
        targets: &[Named::D],
        form: "migrate (create table d as select m, count(*) as cnt, min(k) as low from cS group by m)",
    },
    Change {
        kind: Kind::Totals,
        sources: &[Named::W],
        targets: &[Named::D],
        form: "migrate (create table d as select m, count(*) as cnt, max(id) as low from wS group by m)",
    },
    Change {
        kind: Kind::Totals,
        sources: &[Named::P],
        targets: &[Named::G],
        form: "migrate (create table g as select x, count(*) as cnt, max(id) as total, min(id) as top from pS group by x)",
    },
    Change {
        kind: Kind::Totals,
        sources: &[Named::Q],
        targets: &[Named::D],
        form: "migrate (create table d as select s as m, count(*) as cnt, min(y) as low from qS group by s)",
    },
    Change {
        kind: Kind::Totals,
        sources: &[Named::T],
        targets: &[Named::G],
        form: "migrate (create table g as select v as x, count(*) as cnt, max(tag) as total, min(id) as top from tS group by v)",
    },
    Change {
        kind: Kind::Totals,
        sources: &[Named::R],
        targets: &[Named::G],
        form: "migrate (create table g as select aid as x, count(*) as cnt, max(v) as total, min(bid) as top from rS group by aid)",
    },
    Change {
        kind: Kind::Totals,
        sources: &[Named::G],
        targets: &[Named::G],
        form: "migrate (create table g as select cnt as x, count(*) as cnt, max(x) as total, min(total) as top from gS group by cnt)",
    },
    Change {
        kind: Kind::Totals,
        sources: &[Named::E],
        targets: &[Named::D],
        form: "migrate (create table d as select m, count(*) as cnt, min(n) as low from eS group by m)",
    },
    Change {
        kind: Kind::Pairs,
        sources: &[Named::A, Named::B],
        targets: &[Named::R],
        form: "migrate (create table r as select a.id as aid, b.id as bid, z as v from a join b on a.x = b.x)",
    },
    Change {
        kind: Kind::Pairs,
        sources: &[Named::A, Named::B],
        targets: &[Named::R],
        form: "migrate (create table r as select a.id as aid, b.id as bid, y as v from a join b on y = z and a.x = b.x where z O N)",
    },
    Change {
        kind: Kind::Pairs,
        sources: &[Named::P, Named::B],
        targets: &[Named::R],
        form: "migrate (create table r as select p.id as aid, b.id as bid, z as v from p join b on p.x = b.x where p.id O N)",
    },
    Change {
        kind: Kind::Pairs,
        sources: &[Named::A, Named::C],
        targets: &[Named::E],
        form: "migrate (create table e as select id as aid, m, k, n from a join c on s = m where n O N)",
    },
    Change {
        kind: Kind::Tagged,
        sources: &[Named::A],
        targets: &[Named::T],
        form: "migrate (create table t as select 1 as tag, id, x as v from aS union all select 2 as tag, id, y as v from aS)",
    },
    Change {
        kind: Kind::Tagged,
        sources: &[Named::A, Named::B],
        targets: &[Named::T],
        form: "migrate (create table t as select 1 as tag, id, x as v from aS union all select 2 as tag, id, z as v from b)",
    },
    Change {
        kind: Kind::Tagged,
        sources: &[Named::P, Named::Q, Named::B],
        targets: &[Named::T],
        form: "migrate (create table t as select 1 as tag, id, x as v from p union all select 2 as tag, id, y as v from q union all select 3 as tag, id, z as v from bS)",
    },
    Change {
        kind: Kind::Mixed,
        sources: &[Named::A],
        targets: &[Named::P, Named::G],
        form: "migrate (create table g as select x, count(*) as cnt, min(y) as total, max(id) as top from aS group by x; create table p as select id, x from aS)",
    },
    Change {
        kind: Kind::Mixed,
        sources: &[Named::A, Named::B],
        targets: &[Named::R, Named::P],
        form: "migrate (create table r as select a.id as aid, b.id as bid, z as v from a join b on a.x = b.x where z O N; create table p as select id, x from aS)",
    },
    Change {
        kind: Kind::Mixed,
        sources: &[Named::A, Named::B],
        targets: &[Named::T, Named::G],
        form: "migrate (create table t as select 1 as tag, id, x as v from aS union all select 2 as tag, id, z as v from b; create table g as select x, count(*) as cnt, min(y) as total, max(id) as top from aS group by x)",
    },
    Change {
        kind: Kind::Mixed,
        sources: &[Named::A, Named::B, Named::C],
        targets: &[Named::J, Named::D],
        form: "migrate (create table d as select m, count(*) as cnt, min(k) as low from c group by m; create table j as select a.id, a.x as x, y, z from a join b on a.x = b.id where y O N)",
    },
    Change {
        kind: Kind::Mixed,
        sources: &[Named::G],
        targets: &[Named::P, Named::G],
        form: "migrate (create table g as select cnt as x, count(*) as cnt, max(x) as total, min(top) as top from gS group by cnt; create table p as select x as id, cnt as x from gS)",
    },
    Change {
        kind: Kind::Mixed,
        sources: &[Named::A, Named::C],
        targets: &[Named::E, Named::Q, Named::H],
        form: "migrate (create table e as select id as aid, m, k, n from a join c on s = m; create table h as select s, x, count(*) as cnt from aS group by x, s; create table q as select y, s, id from aS)",
    },
    Change {
        kind: Kind::Refused,
        sources: &[Named::A],
        targets: &[],
        form: "migrate (create table p as select b.id, x from a)",
    },
    Change {
        kind: Kind::Refused,
        sources: &[Named::A],
        targets: &[],
        form: "migrate (create table p as select id, nope from aS)",
    },
    Change {
        kind: Kind::Refused,
        sources: &[Named::A],
        targets: &[],
        form: "migrate (create table p as select id, s + 1 as x from a)",
    },
    Change {
        kind: Kind::Refused,
        sources: &[Named::A, Named::B],
        targets: &[],
        form: "migrate (create table b as select id, x from a)",
    },
    Change {
        kind: Kind::Refused,
        sources: &[Named::A, Named::B],
        targets: &[],
        form: "migrate (create table t as select 1 as tag, id from a union all select 2 as tag, id, z from b)",
    },
    Change {
        kind: Kind::Refused,
        sources: &[Named::A],
        targets: &[],
        form: "migrate (create table p as select id, x, y as id from a)",
    },
    Change {
        kind: Kind::Refused,
        sources: &[Named::A, Named::B],
        targets: &[],
        form: "migrate (create table j as select a.id, x from a join b on a.id = b.id)",
    },
    Change {
        kind: Kind::Refused,
        sources: &[Named::C],
        targets: &[],
        form: "migrate (create table c as select k, m, n + 1 as n from c)",
    },
    Change {
        kind: Kind::Refused,
        sources: &[Named::A],
        targets: &[],
        form: "migrate (create table p as select x, y from a)",
    },
    Change {
        kind: Kind::Refused,
        sources: &[],
        targets: &[],
        form: "migrate (create table p as select id from never)",
    },
    Change {
        kind: Kind::Refused,
        sources: &[Named::A, Named::B, Named::C, Named::Extra, Named::W],
        targets: &[],
        form: "migrate (create table t as select 1 as tag, id from a union all select 2 as tag, id from b union all select 3 as tag, id from extra; create table e as select k, m from c; create table f as select id, m from w)",
    },
];
