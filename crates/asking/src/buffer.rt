// The buffer that is lent to a call, with start words that show which of them the call changed.
ghost use Rattle.std.specs.Prelude.{◌≡◌, length, drop};
ghost use Rattle.asking.specs.Buffer.{start_word, start_words, changed};

fn start_word(place: usize) -> u64
    ensures { result ≡ start_word place }
{
    u64::MAX - place as u64
}

// Each word is made of its place, so no filling with one word does it.
pub fn fill(buffer: &mut [u64])
    ensures { buffer.new ≡ start_words 0 (length buffer.old) }
{
    for (i, word) in buffer.iter_mut().enumerate() {
        *word = start_word(i);
    }
}

pub fn changed_from(buffer: &[u64], from: usize) -> bool
    ensures { result ≡ changed from (drop from buffer.now) }
{
    // By index: tried as a chain of `skip` and `any`, whose promise can only be that chain again, and not `changed`.
    for i in from..buffer.len() {
        if buffer[i] != start_word(i) {
            return true;
        }
    }
    false
}
