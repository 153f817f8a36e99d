// What a walk is lent beside its cells. A visit hands it on as one word, so it is passed by reference. What a walk asks of it
// (`Visits`, `Reading`) is one fact with the node and the number: of a struct that held the plan's part, each clause would ask for the rest.
use grammar::entry::Entry;

#[derive(Clone, Copy)]
pub struct Lent<'a> {
    pub pool: &'a [u64],
    pub plan: &'a [Entry],
}
