// The runner's fresh state and its step (docs/RULES.md, The runner).
ghost use Rattle.std.specs.Prelude.{◌≡◌};
ghost use Rattle.runner.specs.State.{fresh_answer};
ghost use Rattle.runner.specs.Step.{step_answer};

use runner::{FreshAnswer, State, StepAnswer};
use table::Table;

#[unsafe(no_mangle)]
pub extern "C" fn domvurtesz_fresh(table: Table) -> FreshAnswer
    ensures { result ≡ fresh_answer table }
{
    FreshAnswer::from(State::fresh(table))
}

// C passes no array by value: the variables' values are lent.
#[unsafe(no_mangle)]
pub extern "C" fn domvurtesz_step(
    mut state: State,
    table: Table,
    values: &[u16; State::VARIABLES],
    released: u32,
) -> StepAnswer
    ensures { result ≡ step_answer table state values.now released }
{
    let granted = state.step(table, *values, released);
    StepAnswer::of(state, granted)
}
