//! Lists of more nodes than a tree has. What is wrong with them is seen in their bytes, and no list is made of them:
//! 64 MiB of blank nodes would be a list of a gigabyte.

ghost use Rattle.std.specs.Prelude.{◌≡◌, ◌<◌, IfOk, IfErr};
ghost use Rattle.mls_tree.specs.Faults.{number_of};
ghost use Rattle.mls_tree_model.specs.Arrays.{height_for};
ghost use Rattle.mls_tree_view.specs.LongList.{kind_of_number, next, nothing_passed, refusal_of, FindsPlaces, HasFewNodes, IsFewNodes, PassesAll, RefusesList, RefusesTree, SpellsKind};

use mls_leaf::INPUT_LIMIT;
use mls_tree::TreeError;
use mls_tree_array::height_for;
use mls_tree_slot::Slot;
use mls_treemath::MAX_HEIGHT;
use mls_types::RatchetTree;
use mls_view::Part;
use mls_wire::Reader;

/// What stands in a place of a tree.
#[derive(Clone, Copy)]
enum Kind {
    Blank,
    Leaf,
    Parent,
}

/// What is known of the nodes that were passed, one after the other.
#[derive(Clone, Copy)]
struct Passed {
    /// How many they are.
    count: usize,
    /// Whether the next place is an even one.
    is_even: bool,
    /// Whether leaves stand at even places alone, and parents at odd ones.
    is_placed: bool,
    /// Whether there is a last one, and it isn't blank.
    is_last_taken: bool,
    /// How many they are up to the last leaf at an even place.
    leaf_end: usize,
}

impl Passed {
    /// No node was passed.
    fn nothing() -> Passed
        ensures { result ≡ nothing_passed }
    {
        Passed {
            count: 0,
            is_even: true,
            is_placed: true,
            is_last_taken: false,
            leaf_end: 0,
        }
    }

    /// One node more.
    #[tactic(auto, unfolding(crate::specs::LongList::next))]
    fn pass(self, kind: Kind) -> Passed
        ensures { result ≡ next self kind }
    {
        let count = self.count.saturating_add(1);
        let is_even = !self.is_even;
        match kind {
            Kind::Blank => Passed {
                count,
                is_even,
                is_last_taken: false,
                ..self
            },
            Kind::Leaf => Passed {
                count,
                is_even,
                is_placed: self.is_placed && self.is_even,
                is_last_taken: true,
                leaf_end: if self.is_even { count } else { self.leaf_end },
            },
            Kind::Parent => Passed {
                count,
                is_even,
                is_placed: self.is_placed && !self.is_even,
                is_last_taken: true,
                leaf_end: self.leaf_end,
            },
        }
    }

    /// Why these, more than a tree has, are none: `TreeShape` (20) or `TreeFull` (21).
    fn refusal(self, height: u32) -> TreeError
        requires { height < 64 }
        ensures { number_of result ≡ refusal_of self height }
    {
        if self.is_last_taken && self.is_placed && (1usize << height) < self.leaf_end {
            TreeError::TreeFull
        } else {
            TreeError::TreeShape
        }
    }
}

/// The kind of node that a number stands for.
fn kind_of_number(number: u8) -> Kind
    ensures { result ≡ kind_of_number number }
{
    if number == 1 {
        Kind::Leaf
    } else {
        Kind::Parent
    }
}

/// What stands in a place: a blank one has one byte, and the second byte of another is the kind of its node.
fn kind_in(place: &Part<'_, Slot>) -> Kind
    ensures { SpellsKind place.now result }
{
    match place.bytes() {
        [_, number, ..] => kind_of_number(*number),
        _ => Kind::Blank,
    }
}

/// What is known of all nodes of a list.
fn pass_all(nodes: &Part<'_, RatchetTree>) -> Passed
    ensures { PassesAll nodes.now result }
{
    let mut passed = Passed::nothing();
    let mut walk = nodes.walk();
    while let Some(place) = walk.next() {
        passed = passed.pass(kind_in(&place));
    }
    passed
}

/// The nodes that all of the bytes of an input spell.
#[tactic(auto, unfolding(mls_wire::specs::Whole::whole))]
fn nodes_in(bytes: &[u8]) -> Option<Part<'_, RatchetTree>>
    ensures { FindsPlaces bytes.now result }
{
    if bytes.len() > INPUT_LIMIT {
        return None;
    }
    let mut reader = Reader::new(bytes);
    match Part::<RatchetTree>::read(&mut reader) {
        Ok(nodes) => {
            if !reader.is_empty() {
                return None;
            }
            Some(nodes)
        }
        Err(_) => None,
    }
}

/// Refuses more nodes than a tree has, as they are refused as a tree: with `TreeShape` (20) or `TreeFull` (21). It takes
/// no memory.
pub fn refuse_long_list(nodes: &Part<'_, RatchetTree>) -> Result<(), TreeError>
    ensures refused { IfErr result (RefusesList nodes.now) }
    // Not many are left.
    ensures few { IfOk result (λ _. IsFewNodes nodes.now) }
{
    let passed = pass_all(nodes);
    let height = height_for(passed.count);
    if height <= MAX_HEIGHT {
        return Ok(());
    }
    Err(passed.refusal(height))
}

/// Refuses the bytes of more nodes than a tree has, as the whole tree is refused: with `TreeShape` (20) or `TreeFull`
/// (21). It takes no memory.
pub fn refuse_long(bytes: &[u8]) -> Result<(), TreeError>
    ensures refused { IfErr result (RefusesTree bytes.now) }
    // Not many are left.
    ensures few { IfOk result (λ _. HasFewNodes bytes.now) }
{
    let Some(nodes) = nodes_in(bytes) else {
        return Ok(());
    };
    refuse_long_list(&nodes)
}
