//! Secret trees of some sizes: their keys by RFC 9420, 9, with Python's hashlib and hmac (tools/secret-tree-keys prints
//! them), each key once, and the ends of the window.

use crate::conversations::speakers::bytes_of;
use mls_kdf::Secret;
use mls_secret_tree::{MessageKey, SecretTree, SecretTreeError};
use std::alloc::{AllocError, Global};
use std::test::Fail;

/// The encryption secret of all trees: the bytes from 0 on.
const ENCRYPTION_SECRET: Secret = [
    0, 1, 2, 3, 4, 5, 6, 7, 8, 9, 10, 11, 12, 13, 14, 15, 16, 17, 18, 19, 20, 21, 22, 23, 24, 25,
    26, 27, 28, 29, 30, 31,
];

/// A key of a leaf in a tree of so many leaves, with its nonce.
#[derive(Clone, Copy)]
struct TreeKey {
    leaves: u32,
    leaf: u32,
    generation: u32,
    digits: &'static str,
}

const TREE_KEYS: [TreeKey; 9] = [
    TreeKey {
        leaves: 1,
        leaf: 0,
        generation: 0,
        digits: "147f15637318abc9e9ad070d40992406f590071b10c977a16659c7da",
    },
    TreeKey {
        leaves: 2,
        leaf: 0,
        generation: 0,
        digits: "b401c57a3d3607964a4ce49496d5e0f2e79882fd0813a5de64e6ee6f",
    },
    TreeKey {
        leaves: 2,
        leaf: 1,
        generation: 2,
        digits: "0db7e5311e6c2e8d17526f30306229ed246685c311e756ca0d0bb98d",
    },
    TreeKey {
        leaves: 4,
        leaf: 2,
        generation: 0,
        digits: "c6fbd10385df08f7f256450511278c73c7ee966da19e502572859551",
    },
    TreeKey {
        leaves: 4,
        leaf: 2,
        generation: 3,
        digits: "a5f88895d43856249f92f51fddc50eec603f770e7ec7fb084870cc14",
    },
    TreeKey {
        leaves: 4,
        leaf: 3,
        generation: 0,
        digits: "2498ff7fe1271604e455724828bc3bdc410a97d3f21dad46ce023ec5",
    },
    TreeKey {
        leaves: 4,
        leaf: 1,
        generation: 1000,
        digits: "1dc4fabb8ce79e709e28e003aacc2f6e63265d0f03446ab7e9bc3213",
    },
    TreeKey {
        leaves: 65536,
        leaf: 65535,
        generation: 1,
        digits: "07417a321303c01c380f94fea34164e7f29b704accb5e7015dedbfa8",
    },
    TreeKey {
        leaves: 65536,
        leaf: 40000,
        generation: 5,
        digits: "0caf4212a2aae45df65a733c14b68deb4c2570fb1a7441ffafbc433a",
    },
];

/// The first tree of so many leaves: `SenderWithoutLeaf` where they make none.
fn first_tree(leaves: u32) -> Result<SecretTree, SecretTreeError> {
    match SecretTree::new(&ENCRYPTION_SECRET, leaves) {
        Some(tree) => Ok(tree),
        None => Err(SecretTreeError::SenderWithoutLeaf),
    }
}

/// Takes a key, which is gone then.
fn take_key(
    alloc: Global,
    tree: &mut SecretTree,
    leaf: u32,
    generation: u32,
) -> Result<MessageKey, SecretTreeError> {
    let draft = tree.draft_key(alloc, leaf, generation)?;
    let key = *draft.key();
    tree.keep(draft);
    Ok(key)
}

/// A key and its nonce, in one.
fn spell_key(alloc: Global, key: &MessageKey) -> Result<Vec<u8>, AllocError> {
    let mut bytes = Vec::from_slice(alloc, &key.key)?;
    bytes.extend_from_slice(&key.nonce)?;
    Ok(bytes)
}

/// Whether the first key that is taken from a tree is the one by hand, and the next generation is the one behind it.
fn is_tree_key_by_hand(alloc: Global, row: &TreeKey) -> Result<bool, SecretTreeError> {
    let wanted = bytes_of(alloc, row.digits)?;
    let mut tree = first_tree(row.leaves)?;
    let key = take_key(alloc, &mut tree, row.leaf, row.generation)?;
    let made = spell_key(alloc, &key)?;
    let next = row.generation.saturating_add(1);
    Ok(made.as_slice() == wanted.as_slice() && tree.next_generation(row.leaf) == Some(next))
}

/// How many keys are those by hand.
fn tree_keys_by_hand(alloc: Global) -> Result<u32, SecretTreeError> {
    let mut count: u32 = 0;
    for row in TREE_KEYS {
        if is_tree_key_by_hand(alloc, &row)? {
            count = count.saturating_add(1);
        }
    }
    Ok(count)
}

#[test]
fn tree_keys(rt: HostRuntime) -> Result<(), Fail> {
    assert_eq!(rt; tree_keys_by_hand(rt.alloc())?, 9);
    Ok(())
}

/// Takes the key of a generation of leaf 2, and tells whether it is this one, or is refused as used (116) where there is
/// none.
fn takes_as(
    alloc: Global,
    tree: &mut SecretTree,
    generation: u32,
    key: Option<&MessageKey>,
) -> bool {
    match (take_key(alloc, tree, 2, generation), key) {
        (Ok(taken), Some(key)) => taken == *key,
        (Err(error), None) => error.number() == 116,
        _ => false,
    }
}

/// The keys of the first three generations of leaf 2, taken in order.
fn keys_in_order(alloc: Global) -> Result<[MessageKey; 3], SecretTreeError> {
    let mut tree = first_tree(4)?;
    let first = take_key(alloc, &mut tree, 2, 0)?;
    let second = take_key(alloc, &mut tree, 2, 1)?;
    Ok([first, second, take_key(alloc, &mut tree, 2, 2)?])
}

/// How many keys in this order are the same as in order, and are used then.
fn count_once(
    alloc: Global,
    tree: &mut SecretTree,
    keys: &[MessageKey; 3],
    order: &[u32; 3],
) -> u32 {
    let mut count: u32 = 0;
    for generation in *order {
        let key = keys.get(generation as usize);
        if takes_as(alloc, tree, generation, key) && takes_as(alloc, tree, generation, None) {
            count = count.saturating_add(1);
        }
    }
    count
}

/// How many of three keys in another order are the same, each once, and the next generations of the leaf and of another.
fn once_answers(alloc: Global) -> Result<(u32, Option<u32>, Option<u32>), SecretTreeError> {
    let keys = keys_in_order(alloc)?;
    let mut tree = first_tree(4)?;
    let count = count_once(alloc, &mut tree, &keys, &[2, 0, 1]);
    Ok((count, tree.next_generation(2), tree.next_generation(3)))
}

#[test]
fn each_key_once(rt: HostRuntime) -> Result<(), Fail> {
    assert_eq!(rt; once_answers(rt.alloc())?, (3, Some(3), Some(0)));
    Ok(())
}

/// Generations of leaf 0 in a tree of two leaves, one after the other, and the number that each is refused with, 0 where
/// its key is taken: 1,000 generations ahead are passed over, and keys are kept of 1,000 back.
const WINDOW_STEPS: [(u32, u8); 5] = [(1001, 115), (1000, 0), (1001, 0), (0, 116), (1, 0)];

/// The number that a key is refused with, 0 where it is taken.
fn number_of_taking(alloc: Global, tree: &mut SecretTree, leaf: u32, generation: u32) -> u8 {
    match take_key(alloc, tree, leaf, generation) {
        Ok(_) => 0,
        Err(error) => error.number(),
    }
}

/// How many steps at the window's ends answer as they should, and the next generation then.
fn tree_window_answers(alloc: Global) -> Result<(u32, Option<u32>), SecretTreeError> {
    let mut tree = first_tree(2)?;
    let mut count: u32 = 0;
    for (generation, number) in WINDOW_STEPS {
        if number_of_taking(alloc, &mut tree, 0, generation) == number {
            count = count.saturating_add(1);
        }
    }
    Ok((count, tree.next_generation(0)))
}

#[test]
fn window_of_a_tree(rt: HostRuntime) -> Result<(), Fail> {
    assert_eq!(rt; tree_window_answers(rt.alloc())?, (5, Some(1002)));
    Ok(())
}

/// Whether a draft that isn't kept is of its leaf and changes nothing: the same key can be taken.
fn draft_changes_nothing(alloc: Global) -> Result<bool, SecretTreeError> {
    let mut tree = first_tree(4)?;
    let draft = tree.draft_key(alloc, 3, 0)?;
    let key = *draft.key();
    let is_of_leaf = draft.leaf() == 3 && tree.next_generation(3) == Some(0);
    Ok(is_of_leaf && take_key(alloc, &mut tree, 3, 0)? == key)
}

/// The number and the next generation of a leaf outside the tree.
fn outside_answers(alloc: Global) -> Result<(u8, Option<u32>), SecretTreeError> {
    let mut tree = first_tree(4)?;
    let number = number_of_taking(alloc, &mut tree, 4, 0);
    Ok((number, tree.next_generation(4)))
}

#[test]
fn drafts_and_leaves(rt: HostRuntime) -> Result<(), Fail> {
    assert_eq!(rt; draft_changes_nothing(rt.alloc())?, true);
    assert_eq!(rt; outside_answers(rt.alloc())?, (114, None));
    Ok(())
}

#[test]
fn trees_of_no_size(rt: HostRuntime) {
    // No tree has other leaves than a power of two, and none more than 2^16.
    for leaves in [0, 3, 131072] {
        assert_eq!(rt; first_tree(leaves).is_err(), true);
    }
}

#[test]
fn tree_refusals_have_names(rt: HostRuntime) {
    assert_eq!(rt; SecretTreeError::GenerationTooFar.number(), 115);
    assert_eq!(rt; SecretTreeError::KeyUsed.name(), "KeyUsed");
}
