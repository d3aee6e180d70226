//! What each refusal says, the check that it comes of, and what can be done.

ghost use Rattle.std.specs.Prelude.{◌≡◌, Some, option_map};
ghost use Rattle.mls_cli_explain.specs.Explanations.{explanation, explanation_view, found_in, told, about_bytes, about_commits, about_epochs, about_joined_groups, about_key_packages, about_messages, about_paths, about_references, about_texts, about_trees, about_welcomes, about_worlds};

use crate::application_messages::about_application_messages;
use crate::saved_forms::about_saved_forms;

/// What is told of a refusal.
#[derive(Clone, Copy, Debug, PartialEq, Eq)]
pub struct Explanation {
    /// The sentence that the error displays.
    pub sentence: &'static str,
    /// What is checked.
    pub check: &'static str,
    /// What a sender or a receiver can do.
    pub advice: &'static str,
}

/// What is told by these texts.
pub fn told(
    sentence: &'static str,
    check: &'static str,
    advice: &'static str,
) -> Option<Explanation>
    ensures { option_map explanation_view result
        ≡ Some (told sentence.entry.now check.entry.now advice.entry.now) }
{
    Some(Explanation {
        sentence,
        check,
        advice,
    })
}

/// What is told of the refusal of this number, or None where no refusal has it.
pub fn explanation_of(number: u8) -> Option<Explanation>
    ensures { option_map explanation_view result ≡ explanation number }
{
    match number {
        0..=7 => about_bytes(number),
        8..=19 => about_texts(number),
        20..=29 => about_trees(number),
        30..=39 => about_paths(number),
        40..=46 => about_messages(number),
        47..=53 => about_references(number),
        54..=59 => about_key_packages(number),
        60..=65 => about_commits(number),
        66..=69 => about_epochs(number),
        70..=75 => about_welcomes(number),
        76..=89 => about_joined_groups(number),
        90..=99 => about_worlds(number),
        100..=109 => about_saved_forms(number),
        _ => about_application_messages(number),
    }
}

/// What is told of refusals of bytes (1 to 7).
fn about_bytes(number: u8) -> Option<Explanation>
    ensures { option_map explanation_view result ≡ found_in about_bytes number }
{
    match number {
        1 => told(
            "out of memory",
            "memory is asked for, and the system has none to give",
            "close other programs, or give fewer members and messages",
        ),
        2 => told(
            "the bytes end too early",
            "each number, header and vector is whole",
            "send the bytes again, whole; see that no line of a hex dump is missing",
        ),
        3 => told(
            "bytes are left over",
            "nothing stands behind the value",
            "send one value alone; a tree is cut out of its extension first",
        ),
        4 => told(
            "no length begins so",
            "a length header doesn't begin with the bits 11 (RFC 9420, 2.1.2)",
            "write lengths below 2^30 in one, two or four bytes",
        ),
        5 => told(
            "a length has a shorter form",
            "a length has its shortest header (RFC 9420, 2.1.2)",
            "write lengths below 64 in one byte and below 16384 in two",
        ),
        6 => told(
            "too long",
            "inputs and made messages have at most 67108864 bytes",
            "send less: fewer members, proposals or shorter identities",
        ),
        7 => told(
            "an unknown tag",
            "versions, wire formats and kinds are those of this profile",
            "send version 1, and a message of another kind than PrivateMessage; a tree is for mls check",
        ),
        _ => None,
    }
}

/// What is told of refusals of texts and of what is read (8 to 14).
fn about_texts(number: u8) -> Option<Explanation>
    ensures { option_map explanation_view result ≡ found_in about_texts number }
{
    match number {
        8 => told(
            "a text that isn't hex",
            "a text is an even number of hex digits",
            "give hex digits without blanks between them, as `xxd -p` and `tr -d '\\n'` do",
        ),
        9 => told(
            "no JSON of the shape that is asked for",
            "the file is JSON with just the keys of its kind",
            "compare the keys with those of the project's formats, and give --suite as in the file",
        ),
        10 => told(
            "the output is too long",
            "HKDF is asked for at most 8160 bytes (RFC 5869, 2.3)",
            "ask for fewer bytes",
        ),
        11 => told(
            "an unsupported credential",
            "a credential is of type 1, basic (RFC 9420, 5.3)",
            "use basic credentials",
        ),
        12 => told(
            "an unsupported proposal",
            "a proposal is add, update, remove or group_context_extensions (RFC 9420, 12.1)",
            "use these proposals alone",
        ),
        13 => told(
            "entries do not rise",
            "unmerged leaves rise strictly (RFC 9420, 7.1)",
            "list each unmerged leaf once, the smallest first",
        ),
        14 => told(
            "an extension is not allowed here",
            "extensions stand only in a GroupInfo, as ratchet_tree, and in a group, of types from f000 on, each once",
            "leave the other extensions out",
        ),
        _ => None,
    }
}

/// What is told of refusals of trees (20 to 26).
fn about_trees(number: u8) -> Option<Explanation>
    ensures { option_map explanation_view result ≡ found_in about_trees number }
{
    match number {
        20 => told(
            "no tree has these nodes",
            "leaves and parents alternate, the last node isn't blank, and the right half has a member (RFC 9420, 7.7)",
            "send the nodes from the leftmost leaf to the last one that isn't blank",
        ),
        21 => told(
            "the tree is full",
            "a tree has at most 65536 leaves",
            "remove members, or found a second group",
        ),
        22 => told(
            "no member is at that leaf",
            "the leaf that is named has a member",
            "name a leaf that isn't blank; see the tree for those that are",
        ),
        23 => told(
            "a list of unmerged leaves is wrong",
            "an unmerged leaf is a member below its node, and each node between lists it (RFC 9420, 12.4.3.1)",
            "the receiver drops the tree; the sender writes its lists anew",
        ),
        24 => told(
            "a parent hash is wrong",
            "each parent is parent-hash valid (RFC 9420, 7.9.2)",
            "the receiver drops the message or the tree; the sender computes the hashes of its path anew",
        ),
        25 => told(
            "two nodes have one encryption key",
            "no two nodes have one encryption key (RFC 9420, 7.3)",
            "the sender makes a fresh key",
        ),
        26 => told(
            "two members have one signature key",
            "no two members have one signature key (RFC 9420, 7.3)",
            "the sender leaves one of both members out",
        ),
        _ => None,
    }
}

/// What is told of refusals of private paths and keys (30 to 36).
fn about_paths(number: u8) -> Option<Explanation>
    ensures { option_map explanation_view result ≡ found_in about_paths number }
{
    match number {
        30 => told(
            "the path hasn't a key for each of its parents",
            "a path has a node for each parent of the filtered direct path (RFC 9420, 7.6)",
            "the sender makes its path anew, of the tree after the proposals",
        ),
        31 => told(
            "a number of ciphertexts is wrong",
            "a node of a path has a ciphertext for each node of its copath's resolution (RFC 9420, 7.6)",
            "the sender seals anew, and not to members that this commit adds",
        ),
        32 => told(
            "the path secret doesn't open",
            "a ciphertext of the path opens under a key that the member holds (RFC 9420, 7.5)",
            "the receiver asks for a Welcome; the sender seals to the keys of its tree",
        ),
        33 => told(
            "a path secret of another length",
            "a path secret has 32 bytes",
            "the sender makes its path anew",
        ),
        34 => told(
            "a path secret of another key",
            "each derived key is the path's or the tree's, from a parent over a joiner on that doesn't list it (RFC 9420, 7.5 and 12.4.3.1)",
            "the receiver drops the message; the sender derives its keys from the path secrets",
        ),
        35 => told(
            "a private key is missing",
            "a joiner is sent the key of each parent over it that doesn't list it",
            "the committer puts the path secret into the Welcome",
        ),
        36 => told(
            "a key is not fit for use",
            "a public key is one that the suite takes",
            "the sender makes a fresh key; of a tree, see that --suite is the group's",
        ),
        _ => None,
    }
}

/// What is told of refusals of messages (40 to 46).
fn about_messages(number: u8) -> Option<Explanation>
    ensures { option_map explanation_view result ≡ found_in about_messages number }
{
    match number {
        40 => told(
            "the member was removed",
            "a member that acts is in the group",
            "join the group anew, by a Welcome",
        ),
        41 => told(
            "no PublicMessage",
            "a message to a group is a PublicMessage",
            "send handshakes as PublicMessages",
        ),
        42 => told(
            "another group",
            "the message has the group's id",
            "deliver the message to a member of its group",
        ),
        43 => told(
            "another epoch",
            "the message is of the member's epoch",
            "deliver each commit once and in order; drop messages of earlier epochs",
        ),
        44 => told(
            "the sender is no member",
            "the leaf of the sender has a member",
            "the receiver drops the message",
        ),
        45 => told(
            "application data",
            "the message is a proposal or a commit",
            "keep application data apart",
        ),
        46 => told(
            "a wrong membership tag",
            "the tag is that of the epoch's membership key (RFC 9420, 6.2)",
            "the receiver drops the message; the sender sees that it is in the same epoch and group",
        ),
        _ => None,
    }
}

/// What is told of refusals of signatures, kept messages and leaves (47 to 53).
fn about_references(number: u8) -> Option<Explanation>
    ensures { option_map explanation_view result ≡ found_in about_references number }
{
    match number {
        47 => told(
            "the signature doesn't verify",
            "the content is signed by the sender's leaf (RFC 9420, 6.1)",
            "the receiver drops the message; the sender signs with the key of its leaf",
        ),
        48 => told(
            "an own message that isn't kept",
            "a message from the member's own leaf is one that it keeps",
            "drop it; a member whose group follows such a commit is added anew",
        ),
        49 => told(
            "the reference is taken",
            "another kept proposal hasn't the reference",
            "deliver the proposal that is there already",
        ),
        50 => told(
            "the leaf has another source",
            "a KeyPackage's leaf is of the source key_package, an update's update, a path's commit (RFC 9420, 7.3)",
            "the sender makes a leaf for its place",
        ),
        51 => told(
            "the leaf's signature does not verify",
            "a leaf is signed by its own key, in a group for its group and index (RFC 9420, 7.3)",
            "the receiver drops it; of a tree, see that --group and --suite are the group's",
        ),
        52 => told(
            "the leaf lacks a capability",
            "a leaf lists version 1, the group's suite and credential 1 (RFC 9420, 7.2)",
            "the sender lists them; of a tree, see that --suite is the group's",
        ),
        53 => told(
            "the leaf has another identity",
            "a leaf replaces one of the same signature key and credential",
            "remove the member, and add it under its new identity",
        ),
        _ => None,
    }
}

/// What is told of refusals of leaves and KeyPackages (54 to 57).
fn about_key_packages(number: u8) -> Option<Explanation>
    ensures { option_map explanation_view result ≡ found_in about_key_packages number }
{
    match number {
        54 => told(
            "the leaf has the same key",
            "a leaf replaces one with another encryption key (RFC 9420, 7.3)",
            "the sender makes a fresh key",
        ),
        55 => told(
            "the key package has another suite",
            "a KeyPackage is of the group's suite (RFC 9420, 10.1)",
            "ask the new member for a KeyPackage of the group's suite",
        ),
        56 => told(
            "the key package's signature does not verify",
            "a KeyPackage is signed by its leaf's key (RFC 9420, 10.1)",
            "ask the new member for another KeyPackage",
        ),
        57 => told(
            "the init key is the leaf's key",
            "a KeyPackage's init key isn't its leaf's encryption key (RFC 9420, 10.1)",
            "the new member makes two keys",
        ),
        _ => None,
    }
}

/// What is told of refusals of commits (60 to 65).
fn about_commits(number: u8) -> Option<Explanation>
    ensures { option_map explanation_view result ≡ found_in about_commits number }
{
    match number {
        60 => told(
            "an unknown reference",
            "each proposal that a commit names is kept",
            "deliver the proposal before the commit",
        ),
        61 => told(
            "the committer is updated",
            "a commit doesn't update its committer by a proposal (RFC 9420, 12.2)",
            "the committer sends a path instead",
        ),
        62 => told(
            "the committer is removed",
            "a commit doesn't remove its committer (RFC 9420, 12.2)",
            "another member commits the removal",
        ),
        63 => told(
            "one leaf is changed twice",
            "no leaf is changed by two updates or removes (RFC 9420, 12.2)",
            "the committer leaves one of both out",
        ),
        64 => told(
            "a path is missing",
            "a commit has a path, but where it only adds members (RFC 9420, 12.4)",
            "the committer sends a path",
        ),
        65 => told(
            "a wrong confirmation tag",
            "the tag is that of the new epoch (RFC 9420, 6.1)",
            "the receiver drops the message; both see that they were in one state",
        ),
        _ => None,
    }
}

/// What is told of refusals of epochs and pending commits (66 to 68).
fn about_epochs(number: u8) -> Option<Explanation>
    ensures { option_map explanation_view result ≡ found_in about_epochs number }
{
    match number {
        66 => told(
            "no epoch comes after this one",
            "the epoch is below 2^64 - 1",
            "found a new group",
        ),
        67 => told(
            "a commit is pending",
            "a member has one commit of its own pending at most",
            "deliver the commit to the member, or drop it",
        ),
        68 => told(
            "two lists of extensions",
            "a commit has one proposal of group_context_extensions at most (RFC 9420, 12.2)",
            "the committer leaves one of both out",
        ),
        _ => None,
    }
}

/// What is told of refusals of Welcomes (70 to 75).
fn about_welcomes(number: u8) -> Option<Explanation>
    ensures { option_map explanation_view result ≡ found_in about_welcomes number }
{
    match number {
        70 => told(
            "no Welcome",
            "a candidate joins by a Welcome",
            "deliver the Welcome that the committer made",
        ),
        71 => told(
            "another suite",
            "the Welcome and its group are of the candidate's suite",
            "the candidate makes a KeyPackage of the group's suite; of a GroupInfo, give its --suite",
        ),
        72 => told(
            "no entry for the candidate",
            "the Welcome has an entry with the reference of the candidate's KeyPackage (RFC 9420, 12.4.3.1)",
            "deliver the Welcome of the commit that added this KeyPackage",
        ),
        73 => told(
            "the secrets can't be read",
            "the entry opens under the init key, and is a GroupSecrets with secrets of 32 bytes",
            "the committer seals to the init key of the KeyPackage",
        ),
        74 => told(
            "a pre-shared key is asked for",
            "the secrets name no pre-shared key",
            "the committer leaves pre-shared keys out",
        ),
        75 => told(
            "the GroupInfo can't be read",
            "the GroupInfo opens under the welcome secret, and is one",
            "the receiver asks for another Welcome",
        ),
        _ => None,
    }
}

/// What is told of refusals of the groups that are joined (76 to 80).
fn about_joined_groups(number: u8) -> Option<Explanation>
    ensures { option_map explanation_view result ≡ found_in about_joined_groups number }
{
    match number {
        76 => told(
            "no ratchet tree",
            "the GroupInfo has a ratchet_tree extension",
            "the committer puts the tree into the GroupInfo",
        ),
        77 => told(
            "a wrong tree hash",
            "the tree's hash is that of the GroupContext (RFC 9420, 12.4.3.1)",
            "the receiver asks for another Welcome",
        ),
        78 => told(
            "a wrong signer",
            "the signer's leaf has a member, which isn't the candidate",
            "the receiver asks for another Welcome",
        ),
        79 => told(
            "the GroupInfo's signature doesn't verify",
            "the GroupInfo is signed by the signer's leaf (RFC 9420, 12.4.3.1)",
            "the receiver asks for another Welcome",
        ),
        80 => told(
            "the candidate isn't in the tree",
            "a leaf of the tree is the candidate's (RFC 9420, 12.4.3.1)",
            "the receiver asks for another Welcome",
        ),
        _ => None,
    }
}

/// What is told of refusals of worlds (90 to 95).
fn about_worlds(number: u8) -> Option<Explanation>
    ensures { option_map explanation_view result ≡ found_in about_worlds number }
{
    match number {
        90 => told(
            "no such member",
            "a member has the number",
            "count members from 0, in the order of their creation and joining",
        ),
        91 => told(
            "the candidate is spent",
            "the candidate hasn't become a member",
            "make another candidate",
        ),
        92 => told(
            "no such candidate",
            "a candidate has the number",
            "count candidates from 0",
        ),
        93 => told(
            "the candidate is repeated",
            "no other candidate has the signature key of this seed",
            "give another seed",
        ),
        94 => told(
            "no such message",
            "a message has the number",
            "count messages from 0, a commit's before its Welcome's",
        ),
        95 => told(
            "another kind of message",
            "the bytes are a message of the kind that is asked for",
            "give a KeyPackage's message to propose_add, a proposal's to a ref, a GroupInfo's to --group-info",
        ),
        _ => None,
    }
}
