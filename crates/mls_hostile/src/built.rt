//! Groups whose trees are built of their leaves, and not grown by commits: each is a Welcome that was made by hand.
//! Large values are given to `drop` where they aren't needed any more.

use crate::pieces::check_limit;
use anyhow::{Result, bail};
use mls_kdf::{Secret, Seed, hash};
use mls_leaf::{Bytes, Codec, GroupExtensions, Items, Node, key_package_reference};
use mls_model::Item;
use mls_schedule::Epoch;
use mls_suite::{Glass, Suite, encrypt_with_label, sign_with_label};
use mls_tree::PublicTree;
use mls_tree_slot::Slot;
use mls_treemath::MAX_LEAVES;
use mls_types::{
    EncryptedGroupSecrets, GroupContext, GroupInfo, GroupSecrets, HpkeCiphertext, MlsMessage,
    Welcome,
};
use mls_world::{Candidate, Member};
use std::alloc::Global;
use std::io::Print;

/// The joiner secret.
const JOINER: Secret = [5; 32];
/// The confirmed transcript hash.
const CONFIRMED: Secret = [6; 32];
/// The randomness of the seal to the new member.
const SEAL: Seed = [7; 32];
/// The leaf of the member who signs the GroupInfo.
const SIGNER: u32 = 1;

/// A candidate, named by its number, none of whose keys is another's.
fn candidate(alloc: Global, number: u32) -> Result<Box<Candidate<Glass>>> {
    let name = number.to_be_bytes();
    let candidate = Candidate::new(alloc, &name, &hash(&[&name]))?;
    Ok(Box::new(alloc, candidate)?)
}

/// The place of a candidate's leaf.
fn place(alloc: Global, number: u32) -> Result<Slot> {
    let candidate = candidate(alloc, number)?;
    let leaf = candidate.leaf_node().clone()?;
    drop(candidate);
    Ok(Slot::of(alloc, Node::Leaf(leaf))?)
}

/// The nodes of a tree whose first leaves are those of so many candidates, without parents.
fn taken_nodes(alloc: Global, leaves: u32) -> Result<Vec<Slot>> {
    let mut nodes = Vec::new(alloc);
    for number in 0..leaves {
        if number > 0 {
            nodes.push(Slot::blank())?;
        }
        nodes.push(place(alloc, number)?)?;
    }
    Ok(nodes)
}

/// So many nodes, of which the last alone isn't blank.
fn blank_nodes(alloc: Global, count: u32) -> Result<Vec<Slot>> {
    let mut nodes = Vec::new(alloc);
    for _ in 1..count {
        nodes.push(Slot::blank())?;
    }
    nodes.push(place(alloc, 0)?)?;
    Ok(nodes)
}

/// The tree hash of these nodes.
fn hash_of(nodes: &Vec<Slot>) -> Result<Secret> {
    let mut tree = PublicTree::from_nodes(nodes.clone()?)?;
    let tree_hash = tree.tree_hash();
    drop(tree);
    Ok(tree_hash)
}

/// The context of the group "g" in epoch 1.
fn context(alloc: Global, tree_hash: &Secret) -> Result<GroupContext> {
    Ok(GroupContext {
        cipher_suite: 0xf001,
        group_id: Bytes::from_slice(alloc, b"g")?,
        epoch: 1,
        tree_hash: Bytes::from_slice(alloc, tree_hash)?,
        confirmed_transcript_hash: Bytes::from_slice(alloc, &CONFIRMED)?,
        extensions: GroupExtensions::empty(alloc),
    })
}

/// The GroupInfo of a context and nodes, without its signature.
fn unsigned_info(alloc: Global, context: GroupContext, nodes: Vec<Slot>) -> Result<GroupInfo> {
    let text = context.encode(alloc)?;
    let start = Epoch::from_joiner(&JOINER, check_limit(&text)?);
    let tag = start.epoch.confirmation_tag(&CONFIRMED);
    Ok(GroupInfo {
        group_context: context,
        ratchet_tree: Some(Items::from_vec(nodes)),
        confirmation_tag: Bytes::from_slice(alloc, &tag)?,
        signer: SIGNER,
        signature: Bytes::from_slice(alloc, &[])?,
    })
}

/// The signature of its signer.
fn info_signature(alloc: Global, info: &GroupInfo) -> Result<Vec<u8>> {
    let signer = candidate(alloc, SIGNER)?;
    let key = *signer.signing_key();
    drop(signer);
    let content = info.to_be_signed(alloc)?;
    Ok(sign_with_label::<Glass>(alloc, &key, "GroupInfoTBS", check_limit(&content)?)?)
}

/// The bytes of the GroupInfo of these nodes.
fn group_info(alloc: Global, tree_hash: &Secret, nodes: Vec<Slot>) -> Result<Vec<u8>> {
    let mut info = unsigned_info(alloc, context(alloc, tree_hash)?, nodes)?;
    info.signature = Bytes::from_vec(info_signature(alloc, &info)?);
    let bytes = info.encode(alloc)?;
    drop(info);
    Ok(bytes)
}

/// The bytes of the secrets that the new member is sent.
fn group_secrets(alloc: Global) -> Result<Vec<u8>> {
    let secrets = GroupSecrets {
        joiner_secret: Bytes::from_slice(alloc, &JOINER)?,
        path_secret: None,
        psks: Bytes::from_slice(alloc, &[])?,
    };
    Ok(secrets.encode(alloc)?)
}

/// The secrets sealed to a candidate, beside the encrypted GroupInfo.
fn entry(alloc: Global, to: &Candidate<Glass>, info: &[u8]) -> Result<EncryptedGroupSecrets> {
    let secrets = group_secrets(alloc)?;
    let key_package = to.key_package();
    let key = key_package.init_key.as_slice();
    let context = check_limit(info)?;
    let sealed = encrypt_with_label::<Glass>(alloc, key, "Welcome", context, &secrets, &SEAL)?;
    let Some(sealed) = sealed else {
        bail!("no key to seal to");
    };
    let reference = key_package_reference(check_limit(&key_package.encode(alloc)?)?);
    Ok(EncryptedGroupSecrets {
        new_member: Bytes::from_slice(alloc, &reference)?,
        encrypted_group_secrets: HpkeCiphertext {
            kem_output: Bytes::from_vec(sealed.kem),
            ciphertext: Bytes::from_vec(sealed.ct),
        },
    })
}

/// The Welcome to a candidate with this GroupInfo.
fn welcome(alloc: Global, to: &Candidate<Glass>, info: &[u8]) -> Result<Vec<u8>> {
    let key = Epoch::welcome_key(&JOINER);
    let sealed = Glass::aead_seal(alloc, &key.key, &key.nonce, &[], info)?;
    let mut entries = Vec::new(alloc);
    entries.push(entry(alloc, to, &sealed)?)?;
    let message = MlsMessage::Welcome(Welcome {
        cipher_suite: 0xf001,
        secrets: Items::from_vec(entries),
        encrypted_group_info: Bytes::from_vec(sealed),
    });
    let bytes = message.encode(alloc)?;
    drop(message);
    Ok(bytes)
}

/// The first candidate, as a member of a group whose tree is full except for its last leaf.
fn nearly_full(alloc: Global) -> Result<Box<Member<Glass>>> {
    let nodes = taken_nodes(alloc, MAX_LEAVES - 1)?;
    let tree_hash = hash_of(&nodes)?;
    let info = group_info(alloc, &tree_hash, nodes)?;
    let first = candidate(alloc, 0)?;
    let joined = Member::join(alloc, &first, &welcome(alloc, &first, &info)?)?;
    drop(first);
    Ok(Box::new(alloc, joined.member)?)
}

/// Commits the addition of a candidate and follows that: the number of the refusal, or 0.
fn add(alloc: Global, member: &mut Member<Glass>, number: u32) -> Result<u8> {
    let candidate = candidate(alloc, number)?;
    let addition = Item::Full(candidate.addition()?);
    drop(candidate);
    let made = member.commit(&[addition], false, &[9; 32]);
    match made {
        Ok(made) => {
            member.process(&made.commit)?;
            Ok(0)
        }
        Err(error) => Ok(error.number()),
    }
}

/// What the commit is answered that fills the last leaf of a tree, how many members the tree then has, and what the
/// commit of one more is answered.
fn try_full_tree(alloc: Global) -> Result<(u8, u32, u8)> {
    let mut member = nearly_full(alloc)?;
    let last = add(alloc, &mut member, MAX_LEAVES - 1)?;
    let members = member.group().tree().member_count();
    let more = add(alloc, &mut member, MAX_LEAVES)?;
    Ok((last, members, more))
}

/// Fills a tree, and prints that and what one more is answered.
pub fn run(rt: &impl Print, alloc: Global) -> Result<()> {
    let (last, members, more) = try_full_tree(alloc)?;
    println!(rt; "the last leaf: {last}, one more to {members} members: {more}")?;
    Ok(())
}

/// What a Welcome is answered whose tree has a leaf more than a tree may have, the last, which alone isn't blank; the
/// tree hash is none of it.
pub fn try_large_tree(alloc: Global) -> Result<u8> {
    let nodes = blank_nodes(alloc, 2 * MAX_LEAVES + 1)?;
    let info = group_info(alloc, &CONFIRMED, nodes)?;
    let first = candidate(alloc, 0)?;
    let bytes = welcome(alloc, &first, &info)?;
    match Member::join(alloc, &first, &bytes) {
        Ok(_) => Ok(0),
        Err(error) => Ok(error.number()),
    }
}
