// The two sides of a node. "The mirror image" of a rule is the same rule at the other side.
ghost use Rattle.std.specs.Prelude.{◌≡◌};
ghost use Rattle.rules.specs.Order.{other};
ghost use Rattle.node.specs.Stands.{off, side_of};

#[derive(Clone, Copy, Debug, PartialEq, Eq)]
pub enum Side {
    Left,
    Right,
}

impl Side {
    // The mirror image.
    pub fn other(self) -> Side
        ensures { side_of result ≡ other (side_of self) }
    {
        match self {
            Side::Left => Side::Right,
            Side::Right => Side::Left,
        }
    }

    // The word of a slot that holds its link on this side.
    pub fn word(self) -> usize
        ensures { result ≡ off (side_of self) }
    {
        match self {
            Side::Left => 2,
            Side::Right => 3,
        }
    }
}
