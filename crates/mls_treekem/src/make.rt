//! A committer's new keys.

ghost use Rattle.std.specs.Prelude.{◌≡◌, ◌++◌, None, length, replicate, IfOk, OnOk, OnErr};
ghost use Rattle.mls_treekem.specs.Secrets.{AreOfChain};
ghost use Rattle.mls_treekem.specs.KeysAtHeights.{level_of, with_key_at, HasKeysAt, PutsKeys};
ghost use Rattle.mls_treekem_model.specs.Make.{HasMade};

use crate::{PathSecrets, PrivatePath};
use mls_kdf::Secret;
use mls_suite::{KeyPair, OutOfMemory, Suite};
use mls_treemath::level;

/// How far above the leaves a node is.
fn height_of(node: u32) -> u32
    ensures { result ≡ level_of node }
{
    level(node)
}

/// Adds places with no key.
pub(crate) fn push_none(count: usize, above: &mut Vec<Option<Secret>>) -> Result<(), OutOfMemory>
    ensures { OnOk result (above.new.items ≡ above.old.items ++ replicate count None) }
{
    if count == 0 {
        return Ok(());
    }
    above.push(None)?;
    push_none(count - 1, above)
}

/// Puts a key so far above the leaf, where none is as high yet.
fn put_key(height: u32, key: Secret, above: &mut Vec<Option<Secret>>) -> Result<(), OutOfMemory>
    ensures { OnOk result (above.new.items ≡ with_key_at height key above.old.items) }
{
    let height = height as usize;
    let count = above.as_slice().len();
    if count >= height {
        return Ok(());
    }
    push_none(height - 1 - count, above)?;
    above.push(Some(key))?;
    Ok(())
}

/// Puts the key of each node at its height.
fn put_keys(
    nodes: &[u32],
    pairs: &[KeyPair],
    above: &mut Vec<Option<Secret>>,
) -> Result<(), OutOfMemory>
    ensures { OnOk result (PutsKeys nodes.now pairs.now above.old.items above.new.items) }
{
    let Some((node, other_nodes)) = nodes.split_first() else {
        return Ok(());
    };
    let Some((pair, other_pairs)) = pairs.split_first() else {
        return Ok(());
    };
    put_key(height_of(*node), pair.sk, above)?;
    put_keys(other_nodes, other_pairs, above)
}

impl PrivatePath {
    /// Makes a path of the filtered direct path of the leaf, from its first path secret, and keeps its private keys in
    /// place of those above the leaf (RFC 9420, 7.4 and 7.5). Refused for want of memory alone, and then the keys are
    /// as before.
    pub fn make_path<S: Suite>(
        &mut self,
        start: &Secret,
        filtered: &[u32],
    ) -> Result<PathSecrets, OutOfMemory>
        ensures made { IfOk result (AreOfChain S.crypto start.now (length filtered.now)) }
        ensures pins { OnOk result (HasKeysAt S.crypto start.now filtered.now self.old self.new) }
        ensures keys { OnOk result (HasMade S.crypto start.now filtered.now self.old self.new) }
        ensures err { OnErr result (self.new ≡ self.old) }
    {
        let alloc = *self.above.allocator();
        let made = PathSecrets::new::<S>(alloc, start, filtered.len())?;
        let mut above = Vec::new(alloc);
        put_keys(filtered, &made.pairs, &mut above)?;
        self.above = above;
        Ok(made)
    }
}
