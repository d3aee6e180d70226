//! Where the subtrees of an SVG picture lie.

ghost use Rattle.std.specs.Prelude.{◌≡◌, ◌<◌};
ghost use Rattle.mls_cli_draw.specs.SvgSubtrees.{HasRoom, left_half, middle, own_number, right_half};

/// A point of a picture, in units: from the left edge of the first leaf's column, and from the root down.
#[derive(Clone, Copy, Debug, PartialEq, Eq)]
pub(crate) struct Point {
    /// From the left to the right.
    pub(crate) x: u64,
    /// From the root down.
    pub(crate) y: u64,
}

/// A parent and its children, by the middles of their nodes.
#[derive(Clone, Copy, Debug, PartialEq, Eq)]
pub(crate) struct Fork {
    /// The parent.
    pub(crate) parent: Point,
    /// Its left child.
    pub(crate) left: Point,
    /// Its right child.
    pub(crate) right: Point,
}

/// A subtree of a perfect tree, by its leaves.
#[derive(Clone, Copy, Debug, PartialEq, Eq)]
pub(crate) struct Subtree {
    /// The index of its first leaf.
    pub(crate) first: u32,
    /// How many leaves it has.
    pub(crate) leaves: u32,
    /// How many nodes are over it.
    pub(crate) depth: u32,
}

impl Subtree {
    /// The middle of its own node, over the middle of its leaves.
    pub(crate) fn point(self) -> Point
        ensures { result ≡ middle self }
    {
        Point {
            x: 80 * u64::from(self.first) + 40 * u64::from(self.leaves),
            y: 72 * u64::from(self.depth),
        }
    }

    /// The number of its own node, which isn't a leaf (RFC 9420, appendix C).
    pub(crate) fn number(self) -> u64
        requires { 1 < self.leaves }
        ensures { result ≡ own_number self }
    {
        2 * u64::from(self.first) + u64::from(self.leaves) - 1
    }

    /// Its left half.
    pub(crate) fn left(self) -> Subtree
        requires room { HasRoom self }
        requires some { 1 < self.leaves }
        ensures { result ≡ left_half self }
    {
        Subtree {
            first: self.first,
            leaves: self.leaves / 2,
            depth: self.depth + 1,
        }
    }

    /// Its right half.
    pub(crate) fn right(self) -> Subtree
        requires room { HasRoom self }
        requires some { 1 < self.leaves }
        ensures { result ≡ right_half self }
    {
        Subtree {
            first: self.first + self.leaves / 2,
            leaves: self.leaves / 2,
            depth: self.depth + 1,
        }
    }
}
