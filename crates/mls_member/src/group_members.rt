//! Who is in a member's group.

ghost use Rattle.std.specs.Prelude.{◌≡◌, ◌+◌, ◌<◌, ◌^◌, IfSome};
ghost use Rattle.std.specs.Iterator.{YieldsFirst, item_count};
ghost use Rattle.std.specs.Option.{option_copied};
ghost use Rattle.mls_tree.specs.Tree.{term};
ghost use Rattle.mls_member.specs.GroupMembers.{IsNextMember, group_member, group_members, member_of_leaf, own_identity};

use crate::member::Member;
use mls_leaf::LeafNode;
use mls_suite::Suite;
use mls_tree::PublicTree;
use std::marker::Model;

/// A member of a group, lent from the group's tree (RFC 9420, 5.3 and 7.2).
#[derive(Drop)]
pub struct GroupMember<'a> {
    /// The index of its leaf.
    pub leaf: u32,
    /// The identity of its basic credential.
    pub identity: &'a [u8],
    /// The key under which its signatures verify.
    pub signature_key: &'a [u8],
    /// The key of its leaf, to which secrets are sealed.
    pub encryption_key: &'a [u8],
}

impl<'a> Model for GroupMember<'a> {
    ghost use Rattle.mls_member.specs.GroupMembers as model;

    ghost Value = { model.GroupMember };

    ghost view = { λ m. record {
      leaf = m.leaf;
      identity = m.identity.now;
      signature_key = m.signature_key.now;
      encryption_key = m.encryption_key.now;
    } };
}

/// The members of a group, by rising leaf index, lent from the group's tree. It takes no memory.
#[derive(Drop)]
pub struct GroupMembers<'a> {
    tree: &'a PublicTree,
    from: u32,
}

impl<'a> Model for GroupMembers<'a> {
    ghost use Rattle.std.specs.Prelude.{List};
    ghost use Rattle.mls_tree.specs.Tree.{term};
    ghost use Rattle.mls_member.specs.GroupMembers as model;

    ghost Value = { List model.GroupMember };

    ghost view = { λ s. model.members_from (term s.tree.now) s.from };
}

impl<'a> Iterator for GroupMembers<'a> {
    type Item = GroupMember<'a>;

    ghost next_gives = { YieldsFirst (λ s. s) };

    ghost remaining = { item_count (λ s. s) };

    fn next(&mut self) -> Option<GroupMember<'a>> {
        match next_member(self.tree, self.from) {
            None => None,
            Some(member) => {
                self.from = member.leaf + 1;
                Some(member)
            }
        }
    }
}

/// The member whose leaf this is.
fn member_of_leaf<'a>(leaf: u32, node: &'a LeafNode) -> GroupMember<'a>
    ensures { result ≡ member_of_leaf leaf node.now }
{
    GroupMember {
        leaf,
        identity: node.credential.identity.as_slice(),
        signature_key: node.signature_key.as_slice(),
        encryption_key: node.encryption_key.as_slice(),
    }
}

/// The first member at a leaf or behind it, if there is one.
fn next_member<'a>(tree: &'a PublicTree, from: u32) -> Option<GroupMember<'a>>
    ensures first { IsNextMember (term tree.now) from result }
    ensures below { IfSome result (λ m. m.leaf + 1 < 2 ^ 32) }
{
    for leaf in from..tree.leaf_count() {
        match tree.leaf(leaf) {
            Some(node) => return Some(member_of_leaf(leaf, node)),
            None => {}
        }
    }
    None
}

impl<S: Suite> Member<S> {
    /// The members of its group, by rising leaf index. Of a member that was removed: those of its last epoch.
    pub fn members(&self) -> GroupMembers<'_>
        ensures { result ≡ group_members self.now.public.tree }
    {
        GroupMembers {
            tree: self.group.tree(),
            from: 0,
        }
    }

    /// The member at a leaf, or None where the leaf is blank or outside the tree.
    pub fn member_at(&self, leaf: u32) -> Option<GroupMember<'_>>
        ensures { result ≡ group_member self.now.public.tree leaf }
    {
        match self.group.tree().leaf(leaf) {
            Some(node) => Some(member_of_leaf(leaf, node)),
            None => None,
        }
    }

    /// Its identity, or None where it has no leaf, which no good member lacks.
    pub fn own_identity(&self) -> Option<&[u8]>
        ensures { option_copied result ≡ own_identity self.now }
    {
        match self.group.tree().leaf(self.keys.leaf()) {
            Some(node) => Some(node.credential.identity.as_slice()),
            None => None,
        }
    }
}
