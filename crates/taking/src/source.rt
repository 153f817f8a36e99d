// What a reading visit reads from. A visit hands it on as one word, so it is passed by reference: with the row beside it as a
// slice, two words, the place in the row would go by the stack at each call.
use walk::lent::Lent;

// The row has a lifetime of its own: a caller's pool and cells may have two.
#[derive(Clone, Copy)]
pub struct Source<'a, 'b> {
    pub lent: Lent<'a>,
    pub row: &'b [u64],
}
