// A table that the judge accepts.
ghost use Rattle.std.specs.Prelude.{◌≡◌};
ghost use Rattle.table.specs.Rules.{judged, fine};
ghost use Rattle.table.specs.Ranged.{HighInWidth};

use crate::Table;

// The judge's `Ok`. That highs are in their width is what the type of a `high` says anyway.
#[derive(Clone, Copy)]
pub struct WellFormedTable<'a> {
    pub table: &'a Table,
    ghost judged: { judged table.now ≡ fine },
    ghost in_width: { HighInWidth table.now },
}
