// The places of the image of a table.
ghost use Rattle.std.specs.Prelude.{◌≡◌};
ghost use Rattle.apex_model.specs.Accepted.{IsAccepted};
ghost use Rattle.image_format.specs.Places.{places_of};

use crate::places::{Layout, places};
use apex_types::Table;

/// The places of the image of a table.
pub fn layout(table: &Table) -> Layout
    requires { IsAccepted table.now }
    ensures { result ≡ places_of table.now }
{
    places(table.trees(), table.logbooks())
}
