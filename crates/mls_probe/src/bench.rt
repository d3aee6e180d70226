//! Calls on large groups, to count what they cost: `tools/count-work` runs this program under callgrind.
//!
//! Standard input is a number of members, and then the program builds a group of so many and prints its last stage; or
//! such a stage, and then it makes the calls, with a line behind each. A stage has ten lines: the number of members,
//! and in hex the Welcome of the last joiner, a commit of member 0 behind the joiner's first commit, of the
//! application messages of member 0 behind that the first, the second and the fourth, three proposals of member 0,
//! and its commit of these.

use crate::built::{build_group, load_member};
use crate::group::{additions, box_candidate, group_of, join_group};
use crate::talk::converse;
use anyhow::{Result, bail};
use mls_conversation::Conversation;
use mls_leaf::LeafNode;
use mls_member::{Candidate, Made, Member};
use mls_suite::Glass;
use mls_tree::PublicTree;
use mls_tree_slot::Slot;
use std::alloc::Global;
use std::io;

/// The group's name.
pub(crate) const GROUP: &[u8] = b"bench";

/// How many lines of a stage follow the number of members.
const LINES: usize = 9;

/// What a seed is for.
#[derive(Clone, Copy)]
pub(crate) enum Purpose {
    /// A candidate's keys.
    Candidate,
    /// The group's first epoch.
    Group,
    /// The path of a commit that adds a candidate.
    Addition,
    /// The path of a joiner's first commit.
    Renewal,
    /// The path of a commit of member 0 behind that.
    LastRenewal,
    /// The path of a commit with proposals.
    Proposals,
}

/// The seed for a purpose and a candidate's number.
pub(crate) fn seed(purpose: Purpose, number: u32) -> [u8; 32] {
    let kind = match purpose {
        Purpose::Candidate => 1,
        Purpose::Group => 2,
        Purpose::Addition => 3,
        Purpose::Renewal => 4,
        Purpose::LastRenewal => 5,
        Purpose::Proposals => 6,
    };
    let [first, second, third, fourth] = number.to_be_bytes();
    let mut seed = [kind; 32];
    seed[28] = first;
    seed[29] = second;
    seed[30] = third;
    seed[31] = fourth;
    seed
}

/// Makes the candidate of a number.
pub(crate) fn candidate(alloc: Global, number: u32) -> Result<Box<Candidate<Glass>>> {
    let identity = number.to_be_bytes();
    box_candidate(alloc, &identity, &seed(Purpose::Candidate, number))
}

/// Makes a new group of member 0.
pub(crate) fn create_group(alloc: Global) -> Result<Box<Member<Glass>>> {
    let creator = candidate(alloc, 0)?;
    group_of(alloc, &creator, GROUP, &seed(Purpose::Group, 0))
}

/// Member 0 adds another, who joins and commits with a path. It answers the Welcome.
fn add(alloc: Global, first: &mut Member<Glass>, number: u32) -> Result<Vec<u8>> {
    let candidate = candidate(alloc, number)?;
    let items = additions(alloc, &candidate)?;
    let Made { commit, welcome } = first.commit(&items, true, &seed(Purpose::Addition, number))?;
    let Some(welcome) = welcome else {
        bail!("nobody is welcome");
    };
    first.process(&commit)?;
    let mut joiner = join_group(alloc, &candidate, &welcome)?;
    let made = joiner.commit(&[], true, &seed(Purpose::Renewal, number))?;
    first.process(&made.commit)?;
    Ok(welcome)
}

/// Seals 16 bytes.
fn say(conversation: &mut Conversation<Glass>) -> Result<Vec<u8>> {
    Ok(conversation.seal(&[1; 16], &[], 0, &[6; 32])?)
}

/// Prints the first, the second and the fourth message of a member.
fn print_messages(rt: &impl Print, alloc: Global, member: &Member<Glass>) -> Result<()> {
    let mut conversation = converse(alloc, member)?;
    for number in 0..4 {
        let message = say(&mut conversation)?;
        if number != 2 {
            println!(rt; "{}", hex::encode(alloc, &message)?)?;
        }
    }
    Ok(())
}

/// The leaf that removal `turn` of three removes in a group of so many members.
fn removed_leaf(members: u32, turn: u32) -> u32 {
    (members / 4).saturating_mul(turn)
}

/// Prints a proposal of a member to remove another.
fn print_removal(
    rt: &impl Print,
    alloc: Global,
    member: &mut Member<Glass>,
    leaf: u32,
) -> Result<()> {
    let message = member.propose_remove(leaf)?;
    println!(rt; "{}", hex::encode(alloc, &message)?)?;
    Ok(())
}

/// Prints proposals of a member to remove others, and its commit of these.
fn print_proposals(
    rt: &impl Print,
    alloc: Global,
    member: &mut Member<Glass>,
    members: u32,
) -> Result<()> {
    for turn in 1..4 {
        print_removal(rt, alloc, member, removed_leaf(members, turn))?;
    }
    let commit = member
        .commit_kept(true, &seed(Purpose::Proposals, 0))?
        .made
        .commit;
    println!(rt; "{}", hex::encode(alloc, &commit)?)?;
    Ok(())
}

/// Builds a group, and prints its last stage. Member 0 adds the last of the others, so that in the end each leaf has
/// committed and no parent node is blank.
fn build(rt: &impl Print, alloc: Global, members: u32) -> Result<()> {
    println!(rt; "{members}")?;
    let last = members.saturating_sub(1);
    let mut first = build_group(alloc, last)?;
    let welcome = add(alloc, &mut first, last)?;
    println!(rt; "{}", hex::encode(alloc, &welcome)?)?;
    let made = first.commit(&[], true, &seed(Purpose::LastRenewal, members))?;
    println!(rt; "{}", hex::encode(alloc, &made.commit)?)?;
    first.process(&made.commit)?;
    print_messages(rt, alloc, &first)?;
    print_proposals(rt, alloc, &mut first, members)
}

/// A member commits with a path. It answers the commit.
fn make_commit(rt: &impl Print, member: &mut Member<Glass>, number: u32) -> Result<Vec<u8>> {
    let commit = member
        .commit(&[], true, &seed(Purpose::Renewal, number))?
        .commit;
    println!(rt; "commit: {} bytes", commit.len())?;
    Ok(commit)
}

/// A member follows a commit.
fn follow(rt: &impl Print, member: &mut Member<Glass>, what: &str, commit: &[u8]) -> Result<()> {
    member.process(commit)?;
    println!(rt; "{what}: epoch {}", member.epoch())?;
    Ok(())
}

/// A member commits with a path and follows that, and then the commit of a far member.
fn call_member(rt: &impl Print, member: &mut Member<Glass>, number: u32, far: &[u8]) -> Result<()> {
    let own = make_commit(rt, member, number)?;
    follow(rt, member, "own commit", &own)?;
    follow(rt, member, "far commit", far)
}

/// A message is sealed.
fn seal_once(rt: &impl Print, conversation: &mut Conversation<Glass>, what: &str) -> Result<()> {
    let message = say(conversation)?;
    println!(rt; "{what}: {} bytes", message.len())?;
    Ok(())
}

/// A message is opened.
fn open_once(
    rt: &impl Print,
    conversation: &mut Conversation<Glass>,
    what: &str,
    message: &[u8],
) -> Result<()> {
    let generation = conversation.open(message)?.generation;
    println!(rt; "{what}: generation {generation}")?;
    Ok(())
}

/// A member begins a conversation, seals two messages and opens three of a far member, the last one behind a generation
/// that it passes over.
fn call_conversation(
    rt: &impl Print,
    alloc: Global,
    member: &Member<Glass>,
    messages: &[&str; 3],
) -> Result<()> {
    let first = hex::decode(alloc, messages[0])?;
    let later = hex::decode(alloc, messages[1])?;
    let last = hex::decode(alloc, messages[2])?;
    println!(rt; "before: messages")?;
    let mut conversation = converse(alloc, member)?;
    println!(rt; "conversation: epoch {}", conversation.epoch())?;
    seal_once(rt, &mut conversation, "first seal")?;
    seal_once(rt, &mut conversation, "later seal")?;
    open_once(rt, &mut conversation, "first open", &first)?;
    open_once(rt, &mut conversation, "later open", &later)?;
    open_once(rt, &mut conversation, "open past one", &last)
}

/// A member adds one more, who joins.
fn call_joiner(
    rt: &impl Print,
    alloc: Global,
    member: &mut Member<Glass>,
    next: u32,
) -> Result<()> {
    let newcomer = candidate(alloc, next)?;
    let items = additions(alloc, &newcomer)?;
    println!(rt; "before: member {next}")?;
    let Made { commit, welcome } = member.commit(&items, true, &seed(Purpose::Addition, next))?;
    println!(rt; "commit with Welcome: {} bytes", commit.len())?;
    let Some(welcome) = welcome else {
        bail!("nobody is welcome");
    };
    let joiner = join_group(alloc, &newcomer, &welcome)?;
    println!(rt;
        "join by that: leaf {} in epoch {}",
        joiner.leaf_index(),
        joiner.epoch()
    )?;
    Ok(())
}

/// A member gets three proposals, commits them, and follows another's commit of them.
fn call_proposals(
    rt: &impl Print,
    alloc: Global,
    member: &mut Member<Glass>,
    lines: &[&str],
) -> Result<()> {
    let [proposals @ .., far] = lines else {
        bail!("no proposals");
    };
    let far = hex::decode(alloc, far)?;
    for line in proposals {
        let proposal = hex::decode(alloc, line)?;
        println!(rt; "before: proposal")?;
        member.process(&proposal)?;
        println!(rt; "proposal: {} bytes", proposal.len())?;
    }
    let kept = member.commit_kept(true, &seed(Purpose::Proposals, 1))?;
    println!(rt; "commit with proposals: {} bytes", kept.made.commit.len())?;
    member.process(&far)?;
    println!(rt; "far commit with proposals: epoch {}", member.epoch())?;
    Ok(())
}

/// A tree is edited.
fn edit_tree(rt: &impl Print, alloc: Global, tree: &mut PublicTree, number: u32) -> Result<()> {
    let leaf = removed_leaf(number, 1);
    let newcomer = candidate(alloc, number)?;
    let first = newcomer.leaf_node().clone()?;
    let second = newcomer.leaf_node().clone()?;
    println!(rt; "before: edits")?;
    tree.remove(leaf)?;
    println!(rt; "removal: leaf {leaf}")?;
    let added = tree.add(first)?;
    println!(rt; "addition: leaf {added}")?;
    tree.update(leaf, second)?;
    println!(rt; "update: leaf {leaf}")?;
    tree.tree_hash();
    println!(rt; "tree hash then: {} leaves", tree.leaf_count())?;
    Ok(())
}

/// The leaves of so many candidates, from this number on.
fn leaves_from(alloc: Global, first: u32, count: u32) -> Result<Vec<LeafNode>> {
    let mut leaves = Vec::new(alloc);
    for number in first..first.saturating_add(count) {
        let offered = candidate(alloc, number)?;
        leaves.push(offered.leaf_node().clone()?)?;
    }
    Ok(leaves)
}

/// Adds each of the leaves. The tree hash is made after each.
fn fill_tree(tree: &mut PublicTree, leaves: Vec<LeafNode>) -> Result<()> {
    for leaf in leaves {
        tree.add(leaf)?;
        tree.tree_hash();
    }
    Ok(())
}

/// Gives the first leaves these nodes. The tree hash is made after each.
fn renew_tree(tree: &mut PublicTree, leaves: Vec<LeafNode>) -> Result<()> {
    let mut leaf = 0;
    for node in leaves {
        tree.update(leaf, node)?;
        tree.tree_hash();
        leaf = leaf.saturating_add(1);
    }
    Ok(())
}

/// Removes the members from leaf `first` on, the last one first. The tree hash is made after each.
fn halve_tree(tree: &mut PublicTree, first: u32) -> Result<()> {
    let count = tree.leaf_count();
    for leaf in (first..count).rev() {
        if tree.leaf(leaf).is_some() {
            tree.remove(leaf)?;
            tree.tree_hash();
        }
    }
    Ok(())
}

/// A tree loses the members of its second half, gets as many new ones, and the nodes of its first half are renewed.
fn edit_all(rt: &impl Print, alloc: Global, tree: &mut PublicTree, number: u32) -> Result<()> {
    let half = tree.leaf_count() / 2;
    let added = leaves_from(alloc, number, half)?;
    let renewed = leaves_from(alloc, number.saturating_add(half), half)?;
    println!(rt; "before: all edits")?;
    halve_tree(tree, half)?;
    println!(rt; "halving: {half} leaves")?;
    fill_tree(tree, added)?;
    println!(rt; "filling: {} leaves", tree.leaf_count())?;
    renew_tree(tree, renewed)?;
    println!(rt; "renewing: {half} leaves")?;
    Ok(())
}

/// A tree is made of nodes.
fn read_tree(rt: &impl Print, nodes: Vec<Slot>) -> Result<()> {
    println!(rt; "before: nodes")?;
    let mut tree = PublicTree::from_nodes(nodes)?;
    println!(rt; "from_nodes: {} leaves", tree.leaf_count())?;
    tree.tree_hash();
    println!(rt; "tree hash: {} leaves", tree.leaf_count())?;
    drop(tree);
    println!(rt; "drop of that: done")?;
    Ok(())
}

/// The tree of a member is copied, checked and edited, and made of its nodes.
fn call_tree(rt: &impl Print, alloc: Global, member: &Member<Glass>, number: u32) -> Result<()> {
    member.group().is_short();
    let tree = member.group().tree();
    println!(rt; "before: tree")?;
    let mut copy = tree.clone()?;
    println!(rt; "copy of the tree: {} leaves", copy.leaf_count())?;
    copy.check::<Glass>(GROUP)?;
    println!(rt; "check: {} members", copy.member_count())?;
    edit_tree(rt, alloc, &mut copy, number)?;
    println!(rt; "before: drop")?;
    drop(copy);
    println!(rt; "drop of the copy: done")?;
    let mut another = tree.clone()?;
    edit_all(rt, alloc, &mut another, number)?;
    read_tree(rt, tree.to_nodes()?)
}

/// A member is saved and loaded, and what was loaded adds one more, where the tree has a leaf for it.
fn call_saved(rt: &impl Print, alloc: Global, member: &Member<Glass>, next: u32) -> Result<()> {
    println!(rt; "before: saving")?;
    let saved = member.save()?;
    println!(rt; "save: {} bytes", saved.len())?;
    let mut loaded = load_member(alloc, &saved)?;
    println!(rt; "load: epoch {}", loaded.epoch())?;
    if next.is_power_of_two() {
        return Ok(());
    }
    call_joiner(rt, alloc, &mut loaded, next)
}

/// Makes the calls as the last joiner, of whose stage the lines are the rest. One more member is added, and joins,
/// where the tree has a leaf for it.
fn call(rt: &impl Print, alloc: Global, number: u32, lines: &[&str; LINES]) -> Result<()> {
    let welcome = hex::decode(alloc, lines[0])?;
    let far = hex::decode(alloc, lines[1])?;
    let candidate = candidate(alloc, number)?;
    println!(rt; "before: member {number}")?;
    let mut member = join_group(alloc, &candidate, &welcome)?;
    println!(rt; "join: leaf {}", member.leaf_index())?;
    call_member(rt, &mut member, number, &far)?;
    call_conversation(rt, alloc, &member, &[lines[2], lines[3], lines[4]])?;
    let next = number.saturating_add(1);
    call_tree(rt, alloc, &member, next)?;
    call_saved(rt, alloc, &member, next)?;
    call_proposals(rt, alloc, &mut member, &lines[5..])
}

/// Does what the lines ask for.
fn serve(rt: &impl Print, alloc: Global, text: &str) -> Result<()> {
    let mut lines = text.lines();
    let Some(first) = lines.next() else {
        bail!("no number");
    };
    let members = first.trim().parse::<u32>()?;
    let Some(second) = lines.next() else {
        return build(rt, alloc, members);
    };
    let mut rest = [second; LINES];
    for line in &mut rest[1..] {
        let Some(next) = lines.next() else {
            bail!("the stage ends too early");
        };
        *line = next;
    }
    call(rt, alloc, members.saturating_sub(1), &rest)
}

/// Does what standard input asks for.
pub(crate) fn serve_input(rt: &HostRuntime) -> Result<()> {
    let alloc = rt.alloc();
    let text = io::read_to_string(alloc, rt.stdin())?;
    serve(rt, alloc, text.as_str())
}
