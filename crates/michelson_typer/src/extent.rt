//! What typing asks of a type as a whole.

ghost use Rattle.std.specs.Prelude.{◌≡◌};
ghost use Rattle.michelson_typer.specs.Extents.{is_light, over, over_two, scalar};

/// Its size, up to one beyond the limits, and its kind.
#[derive(Clone, Copy)]
pub(crate) struct Extent {
    /// How many nodes it has, or 16,385 where it has more.
    pub nodes: u32,
    /// How deep it is, or 129 where it is deeper.
    pub depth: u32,
    pub comparable: bool,
    pub passable: bool,
}

const MOST_NODES: u32 = 16_384;

const MOST_DEPTH: u32 = 128;

impl Extent {
    /// Whether the type has at most 16,384 nodes, and is at most 128 deep.
    pub fn is_light(self) -> bool
        ensures { result ≡ is_light self }
    {
        self.nodes <= MOST_NODES && self.depth <= MOST_DEPTH
    }
}

/// A type without parts.
pub(crate) fn scalar(plain: bool) -> Extent
    ensures { result ≡ scalar plain }
{
    Extent {
        nodes: 1,
        depth: 1,
        comparable: plain,
        passable: plain,
    }
}

/// A type over one part; whether it may be comparable and passable where its part is.
pub(crate) fn over(part: Extent, comparable: bool, passable: bool) -> Extent
    ensures { result ≡ over part comparable passable }
{
    Extent {
        nodes: part.nodes.saturating_add(1).min(MOST_NODES + 1),
        depth: part.depth.saturating_add(1).min(MOST_DEPTH + 1),
        comparable: comparable && part.comparable,
        passable: passable && part.passable,
    }
}

/// A type over two parts.
pub(crate) fn over_two(first: Extent, last: Extent, comparable: bool, passable: bool) -> Extent
    ensures { result ≡ over_two first last comparable passable }
{
    let parts = Extent {
        nodes: first.nodes.saturating_add(last.nodes),
        depth: first.depth.max(last.depth),
        comparable: first.comparable && last.comparable,
        passable: first.passable && last.passable,
    };
    over(parts, comparable, passable)
}
