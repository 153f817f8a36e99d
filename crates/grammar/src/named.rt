// The nodes that a node names, handed out one after the other: marking and asking go over them, and know no kind.
ghost use Rattle.std.specs.Prelude.{◌≡◌, [], ◌∷◌};
ghost use Rattle.std.specs.Iterator.{YieldsFirst, item_count};
ghost use Rattle.grammar.specs.Named.{named};

// A first node and a second, where there are, and the words of the pool that name the others.
#[derive(Clone, Copy, Debug, PartialEq, Eq)]
pub struct Named<'a> {
    pub first: Option<usize>,
    pub second: Option<usize>,
    pub rest: &'a [u64],
}

impl<'a> Iterator for Named<'a> {
    type Item = usize;

    ghost next_gives = { YieldsFirst named };

    ghost remaining = { item_count named };

    fn next(&mut self) -> Option<usize> {
        if let Some(a) = self.first.take() {
            return Some(a);
        }
        if let Some(b) = self.second.take() {
            return Some(b);
        }
        let (word, rest) = self.rest.split_first()?;
        self.rest = rest;
        Some(*word as usize)
    }
}

pub fn none<'a>() -> Named<'a>
    ensures { named result ≡ [] }
{
    Named {
        first: None,
        second: None,
        rest: &[],
    }
}

pub fn one<'a>(a: usize) -> Named<'a>
    ensures { named result ≡ a ∷ [] }
{
    Named {
        first: Some(a),
        second: None,
        rest: &[],
    }
}

pub fn two<'a>(a: usize, b: usize) -> Named<'a>
    ensures { named result ≡ a ∷ b ∷ [] }
{
    Named {
        first: Some(a),
        second: Some(b),
        rest: &[],
    }
}
