// The judge of a table: which rule it breaks, and where (docs/RULES.md, Refusals).
#![tactic(auto)]

ghost use Rattle.std.specs.Prelude.{◌≡◌, IfOk};
ghost use Rattle.table.specs.Reasons.{outcome};
ghost use Rattle.table.specs.Rules.{judged};

use table::{Reason, Refused, Table, WellFormedTable};

mod rules; // rules.rt: each rule, and the lowest place that breaks it

// The refusal with the lowest number that applies, at its lowest place; or the table, well-formed.
pub fn judge(table: &Table) -> Result<WellFormedTable<'_>, Refused>
    ensures refusal { outcome result ≡ judged table.now }
    ensures kept { IfOk result (λ t. t.table ≡ table.entry) }
{
    if rules::breaks_count(table) {
        return Err(Refused::whole(Reason::Count));
    }
    if rules::breaks_header(table) {
        return Err(Refused::whole(Reason::Value));
    }
    rules::judge_value(table)?;
    rules::judge_tree(table)?;
    rules::judge_task(table)?;
    Ok(WellFormedTable { table })
}
