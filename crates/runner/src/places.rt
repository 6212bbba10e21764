// Rule 4: the place moves on.
ghost use Rattle.std.specs.Prelude.{◌≡◌, ◌<◌};
ghost use Rattle.theory.specs.Guards.{onto, move};
ghost use Rattle.table.specs.Table.{location_at, tree_of};
ghost use Rattle.runner.specs.Step.{value_at, place_of};

use crate::State;
use guards::Guards;
use table::WellFormedTable;

// A location, and how many of its ticks are done.
#[derive(Clone, Copy)]
pub struct Place {
    pub location: u8,
    pub done: u16,
}

// The child of v whose guard holds x; after a leaf the root.
fn onto(table: &WellFormedTable, v: usize, x: u16) -> usize
    requires { v < 128 }
    ensures { result ≡ onto (tree_of table.now.table.now) v x }
{
    Guards::of(table.table).onto(v, x)
}

pub fn next(place: Place, table: &WellFormedTable, values: [u16; State::VARIABLES]) -> Place
    requires { (place.location < table.now.table.now.locations) × (place.done < (location_at table.now.table.now place.location).ticks) }
    ensures { result ≡ place_of (move (tree_of table.now.table.now) (value_at values) (record { location = place.location; done = place.done })) }
{
    let v = usize::from(place.location);
    let here = table.table.location[v];
    let done = place.done + 1;
    if done < here.ticks {
        return Place { done, ..place };
    }
    let value = values[usize::from(here.variable)];
    Place {
        location: onto(table, v, value) as u8,
        done: 0,
    }
}
