// Changes, and the places of the code that they change.

use change_set::Changes;
use class_table::Place;

/// The changes, and the places of the code that they change.
#[derive(Drop)]
pub struct Plan {
    pub changes: Changes,
    pub touched: Vec<Place>,
}
