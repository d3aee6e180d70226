//! Where changed and cut inputs have their first fault.

use crate::rows::{bytes_of, gives, line_of, text_of};
use mls_cli_place::{Place, Whole, place_of_file, place_of_message, place_of_tree};
use mls_cli_text::Form;
use std::alloc::{AllocError, Global};
use std::process::Abort;
use std::test::Fail;

/// A public message with a commit: an add, a reference, an update, a removal, extensions, and a path of two nodes.
const COMMIT: &str =
    "000100010167000000000000000301000000020261640340680100010001f0010149014501530001026964020001\
    02f0010000020001010000000000000000ffffffffffffffff000373696700016b02017201000201450153000102\
    696402000102f00100000200010200037369670100030000000701000707f0010178f00200010145015300010269\
    6402000102f001000002000103016800037369670e015008016101620002636401510001730163016d";

/// Its first fault where the byte at each place is ff; a line for each place whose fault differs from the one before.
const CHANGED_COMMIT: &str = "\
0 offset: 0 field: version fault: 7
2 offset: 2 field: wire_format fault: 7
4 offset: 4 field: public_message.content.group_id fault: 4
5 none
14 offset: 14 field: public_message.content.sender.sender_type fault: 7
15 none
19 offset: 19 field: public_message.content.authenticated_data fault: 4
20 none
22 offset: 22 field: public_message.content.content_type fault: 7
23 offset: 23 field: public_message.content.commit.proposals fault: 4
24 offset: 23 field: public_message.content.commit.proposals fault: 2
25 offset: 25 field: public_message.content.commit.proposals[0].type fault: 7
26 offset: 26 field: public_message.content.commit.proposals[0].proposal.proposal_type fault: 12
28 offset: 28 field: public_message.content.commit.proposals[0].proposal.key_package.version fault: 7
30 none
32 offset: 32 field: public_message.content.commit.proposals[0].proposal.key_package.init_key fault: 4
33 none
34 offset: 34 field: public_message.content.commit.proposals[0].proposal.key_package.leaf_node.encryption_key fault: 4
35 none
36 offset: 36 field: public_message.content.commit.proposals[0].proposal.key_package.leaf_node.signature_key fault: 4
37 none
38 offset: 38 field: public_message.content.commit.proposals[0].proposal.key_package.leaf_node.credential.credential_type fault: 11
40 offset: 40 field: public_message.content.commit.proposals[0].proposal.key_package.leaf_node.credential.identity fault: 4
41 none
43 offset: 43 field: public_message.content.commit.proposals[0].proposal.key_package.leaf_node.capabilities.versions fault: 4
44 none
46 offset: 46 field: public_message.content.commit.proposals[0].proposal.key_package.leaf_node.capabilities.cipher_suites fault: 4
47 none
49 offset: 49 field: public_message.content.commit.proposals[0].proposal.key_package.leaf_node.capabilities.extensions fault: 4
50 offset: 50 field: public_message.content.commit.proposals[0].proposal.key_package.leaf_node.capabilities.proposals fault: 4
51 offset: 51 field: public_message.content.commit.proposals[0].proposal.key_package.leaf_node.capabilities.credentials fault: 4
52 none
54 offset: 54 field: public_message.content.commit.proposals[0].proposal.key_package.leaf_node.leaf_node_source fault: 7
55 none
71 offset: 71 field: public_message.content.commit.proposals[0].proposal.key_package.leaf_node.extensions fault: 4
72 offset: 72 field: public_message.content.commit.proposals[0].proposal.key_package.leaf_node.signature fault: 4
73 none
76 offset: 76 field: public_message.content.commit.proposals[0].proposal.key_package.extensions fault: 4
77 offset: 77 field: public_message.content.commit.proposals[0].proposal.key_package.signature fault: 4
78 none
79 offset: 79 field: public_message.content.commit.proposals[1].type fault: 7
80 offset: 80 field: public_message.content.commit.proposals[1].reference fault: 4
81 none
82 offset: 82 field: public_message.content.commit.proposals[2].type fault: 7
83 offset: 83 field: public_message.content.commit.proposals[2].proposal.proposal_type fault: 12
85 offset: 85 field: public_message.content.commit.proposals[2].proposal.leaf_node.encryption_key fault: 4
86 none
87 offset: 87 field: public_message.content.commit.proposals[2].proposal.leaf_node.signature_key fault: 4
88 none
89 offset: 89 field: public_message.content.commit.proposals[2].proposal.leaf_node.credential.credential_type fault: 11
91 offset: 91 field: public_message.content.commit.proposals[2].proposal.leaf_node.credential.identity fault: 4
92 none
94 offset: 94 field: public_message.content.commit.proposals[2].proposal.leaf_node.capabilities.versions fault: 4
95 none
97 offset: 97 field: public_message.content.commit.proposals[2].proposal.leaf_node.capabilities.cipher_suites fault: 4
98 none
100 offset: 100 field: public_message.content.commit.proposals[2].proposal.leaf_node.capabilities.extensions fault: 4
101 offset: 101 field: public_message.content.commit.proposals[2].proposal.leaf_node.capabilities.proposals fault: 4
102 offset: 102 field: public_message.content.commit.proposals[2].proposal.leaf_node.capabilities.credentials fault: 4
103 none
105 offset: 105 field: public_message.content.commit.proposals[2].proposal.leaf_node.leaf_node_source fault: 7
106 offset: 106 field: public_message.content.commit.proposals[2].proposal.leaf_node.extensions fault: 4
107 offset: 107 field: public_message.content.commit.proposals[2].proposal.leaf_node.signature fault: 4
108 none
111 offset: 111 field: public_message.content.commit.proposals[3].type fault: 7
112 offset: 112 field: public_message.content.commit.proposals[3].proposal.proposal_type fault: 12
114 none
118 offset: 118 field: public_message.content.commit.proposals[4].type fault: 7
119 offset: 119 field: public_message.content.commit.proposals[4].proposal.proposal_type fault: 12
121 offset: 121 field: public_message.content.commit.proposals[4].proposal.extensions fault: 4
122 none
124 offset: 121 field: public_message.content.commit.proposals[4].proposal.extensions fault: 4
125 none
128 offset: 121 field: public_message.content.commit.proposals[4].proposal.extensions fault: 4
129 offset: 129 field: public_message.content.commit.path fault: 7
130 offset: 130 field: public_message.content.commit.path.leaf_node.encryption_key fault: 4
131 none
132 offset: 132 field: public_message.content.commit.path.leaf_node.signature_key fault: 4
133 none
134 offset: 134 field: public_message.content.commit.path.leaf_node.credential.credential_type fault: 11
136 offset: 136 field: public_message.content.commit.path.leaf_node.credential.identity fault: 4
137 none
139 offset: 139 field: public_message.content.commit.path.leaf_node.capabilities.versions fault: 4
140 none
142 offset: 142 field: public_message.content.commit.path.leaf_node.capabilities.cipher_suites fault: 4
143 none
145 offset: 145 field: public_message.content.commit.path.leaf_node.capabilities.extensions fault: 4
146 offset: 146 field: public_message.content.commit.path.leaf_node.capabilities.proposals fault: 4
147 offset: 147 field: public_message.content.commit.path.leaf_node.capabilities.credentials fault: 4
148 none
150 offset: 150 field: public_message.content.commit.path.leaf_node.leaf_node_source fault: 7
151 offset: 151 field: public_message.content.commit.path.leaf_node.parent_hash fault: 4
152 none
153 offset: 153 field: public_message.content.commit.path.leaf_node.extensions fault: 4
154 offset: 154 field: public_message.content.commit.path.leaf_node.signature fault: 4
155 none
158 offset: 158 field: public_message.content.commit.path.nodes fault: 4
159 offset: 159 field: public_message.content.commit.path.nodes[0].encryption_key fault: 4
160 none
161 offset: 161 field: public_message.content.commit.path.nodes[0].encrypted_path_secret fault: 4
162 offset: 162 field: public_message.content.commit.path.nodes[0].encrypted_path_secret[0].kem_output fault: 4
163 none
164 offset: 164 field: public_message.content.commit.path.nodes[0].encrypted_path_secret[0].ciphertext fault: 4
165 none
166 offset: 166 field: public_message.content.commit.path.nodes[0].encrypted_path_secret[1].kem_output fault: 4
167 offset: 167 field: public_message.content.commit.path.nodes[0].encrypted_path_secret[1].ciphertext fault: 4
168 none
170 offset: 170 field: public_message.content.commit.path.nodes[1].encryption_key fault: 4
171 none
172 offset: 172 field: public_message.content.commit.path.nodes[1].encrypted_path_secret fault: 4
173 offset: 173 field: public_message.auth.signature fault: 4
174 none
175 offset: 175 field: public_message.auth.confirmation_tag fault: 4
176 none
177 offset: 177 field: public_message.membership_tag fault: 4
178 none
";

/// Its first fault where so many bytes of it are left.
const CUT_COMMIT: &str = "\
0 offset: 0 field: version fault: 2
2 offset: 2 field: wire_format fault: 2
4 offset: 4 field: public_message.content.group_id fault: 2
6 offset: 6 field: public_message.content.epoch fault: 2
14 offset: 14 field: public_message.content.sender.sender_type fault: 2
15 offset: 15 field: public_message.content.sender.leaf_index fault: 2
19 offset: 19 field: public_message.content.authenticated_data fault: 2
22 offset: 22 field: public_message.content.content_type fault: 2
23 offset: 23 field: public_message.content.commit.proposals fault: 2
129 offset: 129 field: public_message.content.commit.path fault: 2
130 offset: 130 field: public_message.content.commit.path.leaf_node.encryption_key fault: 2
132 offset: 132 field: public_message.content.commit.path.leaf_node.signature_key fault: 2
134 offset: 134 field: public_message.content.commit.path.leaf_node.credential.credential_type fault: 2
136 offset: 136 field: public_message.content.commit.path.leaf_node.credential.identity fault: 2
139 offset: 139 field: public_message.content.commit.path.leaf_node.capabilities.versions fault: 2
142 offset: 142 field: public_message.content.commit.path.leaf_node.capabilities.cipher_suites fault: 2
145 offset: 145 field: public_message.content.commit.path.leaf_node.capabilities.extensions fault: 2
146 offset: 146 field: public_message.content.commit.path.leaf_node.capabilities.proposals fault: 2
147 offset: 147 field: public_message.content.commit.path.leaf_node.capabilities.credentials fault: 2
150 offset: 150 field: public_message.content.commit.path.leaf_node.leaf_node_source fault: 2
151 offset: 151 field: public_message.content.commit.path.leaf_node.parent_hash fault: 2
153 offset: 153 field: public_message.content.commit.path.leaf_node.extensions fault: 2
154 offset: 154 field: public_message.content.commit.path.leaf_node.signature fault: 2
158 offset: 158 field: public_message.content.commit.path.nodes fault: 2
173 offset: 173 field: public_message.auth.signature fault: 2
175 offset: 175 field: public_message.auth.confirmation_tag fault: 2
177 offset: 177 field: public_message.membership_tag fault: 2
";

/// A Welcome for two.
const WELCOME: &str = "00010003f0010a016e016b0163016f0000026769";

/// Its first fault where the byte at each place is ff.
const CHANGED_WELCOME: &str = "\
0 offset: 0 field: version fault: 7
2 offset: 2 field: wire_format fault: 7
4 none
6 offset: 6 field: welcome.secrets fault: 4
7 offset: 7 field: welcome.secrets[0].new_member fault: 4
8 none
9 offset: 9 field: welcome.secrets[0].encrypted_group_secrets.kem_output fault: 4
10 none
11 offset: 11 field: welcome.secrets[0].encrypted_group_secrets.ciphertext fault: 4
12 none
13 offset: 13 field: welcome.secrets[1].new_member fault: 4
14 none
15 offset: 15 field: welcome.secrets[1].encrypted_group_secrets.kem_output fault: 4
16 offset: 16 field: welcome.secrets[1].encrypted_group_secrets.ciphertext fault: 4
17 offset: 17 field: welcome.encrypted_group_info fault: 4
18 none
";

/// A GroupInfo with a ratchet tree of one leaf.
const GROUP_INFO: &str =
    "000100040001f0010167000000000000000101740004f00301652000021d1c010101450153000102696402000102\
    f00100000200010200037369670163000000000173";

/// Its first fault where the byte at each place is ff.
const CHANGED_GROUP_INFO: &str = "\
0 offset: 0 field: version fault: 7
2 offset: 2 field: wire_format fault: 7
4 offset: 4 field: group_info.group_context.version fault: 7
6 none
8 offset: 8 field: group_info.group_context.group_id fault: 4
9 none
18 offset: 18 field: group_info.group_context.tree_hash fault: 4
19 none
20 offset: 20 field: group_info.group_context.confirmed_transcript_hash fault: 4
21 offset: 21 field: group_info.group_context.extensions fault: 4
22 none
24 offset: 21 field: group_info.group_context.extensions fault: 4
25 none
26 offset: 26 field: group_info.extensions fault: 4
27 offset: 27 field: group_info.extensions[0].extension_type fault: 14
29 offset: 29 field: group_info.extensions[0].extension_data fault: 4
30 offset: 30 field: group_info.extensions[0].extension_data.ratchet_tree fault: 4
31 offset: 31 field: group_info.extensions[0].extension_data.ratchet_tree[0] fault: 7
32 offset: 32 field: group_info.extensions[0].extension_data.ratchet_tree[0].node_type fault: 7
33 offset: 33 field: group_info.extensions[0].extension_data.ratchet_tree[0].leaf_node.encryption_key fault: 4
34 none
35 offset: 35 field: group_info.extensions[0].extension_data.ratchet_tree[0].leaf_node.signature_key fault: 4
36 none
37 offset: 37 field: group_info.extensions[0].extension_data.ratchet_tree[0].leaf_node.credential.credential_type fault: 11
39 offset: 39 field: group_info.extensions[0].extension_data.ratchet_tree[0].leaf_node.credential.identity fault: 4
40 none
42 offset: 42 field: group_info.extensions[0].extension_data.ratchet_tree[0].leaf_node.capabilities.versions fault: 4
43 none
45 offset: 45 field: group_info.extensions[0].extension_data.ratchet_tree[0].leaf_node.capabilities.cipher_suites fault: 4
46 none
48 offset: 48 field: group_info.extensions[0].extension_data.ratchet_tree[0].leaf_node.capabilities.extensions fault: 4
49 offset: 49 field: group_info.extensions[0].extension_data.ratchet_tree[0].leaf_node.capabilities.proposals fault: 4
50 offset: 50 field: group_info.extensions[0].extension_data.ratchet_tree[0].leaf_node.capabilities.credentials fault: 4
51 none
53 offset: 53 field: group_info.extensions[0].extension_data.ratchet_tree[0].leaf_node.leaf_node_source fault: 7
54 offset: 54 field: group_info.extensions[0].extension_data.ratchet_tree[0].leaf_node.extensions fault: 4
55 offset: 55 field: group_info.extensions[0].extension_data.ratchet_tree[0].leaf_node.signature fault: 4
56 none
59 offset: 59 field: group_info.confirmation_tag fault: 4
60 none
65 offset: 65 field: group_info.signature fault: 4
66 none
";

/// A ratchet tree of three leaves, the second blank.
const TREE: &str =
    "4049010101450153000102696402000102f001000002000102000373696701020170000800000001000000050000\
    010101450153000102696402000102f001000002000103000003736967";

/// Its first fault where the byte at each place is ff.
const CHANGED_TREE: &str = "\
0 offset: 0 field: ratchet_tree fault: 4
1 offset: 0 field: ratchet_tree fault: 2
2 offset: 2 field: ratchet_tree[0] fault: 7
3 offset: 3 field: ratchet_tree[0].node_type fault: 7
4 offset: 4 field: ratchet_tree[0].leaf_node.encryption_key fault: 4
5 none
6 offset: 6 field: ratchet_tree[0].leaf_node.signature_key fault: 4
7 none
8 offset: 8 field: ratchet_tree[0].leaf_node.credential.credential_type fault: 11
10 offset: 10 field: ratchet_tree[0].leaf_node.credential.identity fault: 4
11 none
13 offset: 13 field: ratchet_tree[0].leaf_node.capabilities.versions fault: 4
14 none
16 offset: 16 field: ratchet_tree[0].leaf_node.capabilities.cipher_suites fault: 4
17 none
19 offset: 19 field: ratchet_tree[0].leaf_node.capabilities.extensions fault: 4
20 offset: 20 field: ratchet_tree[0].leaf_node.capabilities.proposals fault: 4
21 offset: 21 field: ratchet_tree[0].leaf_node.capabilities.credentials fault: 4
22 none
24 offset: 24 field: ratchet_tree[0].leaf_node.leaf_node_source fault: 7
25 offset: 25 field: ratchet_tree[0].leaf_node.extensions fault: 4
26 offset: 26 field: ratchet_tree[0].leaf_node.signature fault: 4
27 none
30 offset: 30 field: ratchet_tree[1] fault: 7
31 offset: 31 field: ratchet_tree[1].node_type fault: 7
32 offset: 32 field: ratchet_tree[1].parent_node.encryption_key fault: 4
33 none
34 offset: 34 field: ratchet_tree[1].parent_node.parent_hash fault: 4
35 offset: 35 field: ratchet_tree[1].parent_node.unmerged_leaves fault: 4
36 offset: 35 field: ratchet_tree[1].parent_node.unmerged_leaves fault: 13
40 none
44 offset: 44 field: ratchet_tree[2] fault: 7
45 offset: 45 field: ratchet_tree[3] fault: 7
46 offset: 46 field: ratchet_tree[4] fault: 7
47 offset: 47 field: ratchet_tree[4].node_type fault: 7
48 offset: 48 field: ratchet_tree[4].leaf_node.encryption_key fault: 4
49 none
50 offset: 50 field: ratchet_tree[4].leaf_node.signature_key fault: 4
51 none
52 offset: 52 field: ratchet_tree[4].leaf_node.credential.credential_type fault: 11
54 offset: 54 field: ratchet_tree[4].leaf_node.credential.identity fault: 4
55 none
57 offset: 57 field: ratchet_tree[4].leaf_node.capabilities.versions fault: 4
58 none
60 offset: 60 field: ratchet_tree[4].leaf_node.capabilities.cipher_suites fault: 4
61 none
63 offset: 63 field: ratchet_tree[4].leaf_node.capabilities.extensions fault: 4
64 offset: 64 field: ratchet_tree[4].leaf_node.capabilities.proposals fault: 4
65 offset: 65 field: ratchet_tree[4].leaf_node.capabilities.credentials fault: 4
66 none
68 offset: 68 field: ratchet_tree[4].leaf_node.leaf_node_source fault: 7
69 offset: 69 field: ratchet_tree[4].leaf_node.parent_hash fault: 4
70 offset: 70 field: ratchet_tree[4].leaf_node.extensions fault: 4
71 offset: 71 field: ratchet_tree[4].leaf_node.signature fault: 4
72 none
";

/// The first fault's place.
fn place_in(whole: Whole, bytes: &[u8]) -> Option<Place> {
    match whole {
        Whole::Message => place_of_message(bytes),
        Whole::Tree => place_of_tree(bytes),
    }
}

/// The place and the number of the first fault.
fn place_line(alloc: Global, whole: Whole, bytes: &[u8]) -> Result<String, AllocError> {
    match place_in(whole, bytes) {
        Some(place) => {
            let line = line_of(alloc, &place)?;
            format!(in alloc; "{line} fault: {}", place.fault)
        }
        None => String::from_str(alloc, "none"),
    }
}

/// What is done to an input at a place.
#[derive(Clone, Copy)]
enum Change {
    /// The byte there is turned to ff.
    Turn,
    /// The bytes from there on are left out.
    Cut,
}

/// The line of the input that is changed at this place.
fn changed_line(
    alloc: Global,
    whole: Whole,
    change: Change,
    bytes: &[u8],
    index: usize,
) -> Result<String, AllocError> {
    let mut changed = Vec::from_slice(alloc, bytes)?;
    match change {
        Change::Turn => {
            if let Some(byte) = changed.get_mut(index) {
                *byte = 0xFF;
            }
        }
        Change::Cut => changed.truncate(index),
    }
    place_line(alloc, whole, changed.as_slice())
}

/// Puts the line of a place behind a text.
fn push_line(alloc: Global, text: &mut String, index: usize, line: &str) -> Result<(), AllocError> {
    let whole = format!(in alloc; "{index} {line}\n")?;
    text.push_str(whole.as_str())
}

/// A line for each place at which a change brings another line than at the place before.
fn changed_lines(
    alloc: Global,
    whole: Whole,
    change: Change,
    digits: &str,
) -> Result<String, AllocError> {
    let bytes = bytes_of(alloc, digits)?;
    let mut text = String::new(alloc);
    let mut last = String::new(alloc);
    for index in 0..bytes.len() {
        let line = changed_line(alloc, whole, change, bytes.as_slice(), index)?;
        if line.as_str() != last.as_str() {
            push_line(alloc, &mut text, index, line.as_str())?;
        }
        last = line;
    }
    Ok(text)
}

/// Asserts of each input that such a change at each of its places brings these lines.
fn changes(
    rt: &impl Abort,
    alloc: Global,
    change: Change,
    rows: &[(Whole, &str, &str)],
) -> Result<(), Fail> {
    for (whole, digits, wanted) in rows {
        gives(
            rt,
            changed_lines(alloc, *whole, change, digits),
            wanted,
            digits,
        )?;
    }
    Ok(())
}

const CHANGED: &[(Whole, &str, &str)] = &[
    (Whole::Message, COMMIT, CHANGED_COMMIT),
    (Whole::Message, WELCOME, CHANGED_WELCOME),
    (Whole::Message, GROUP_INFO, CHANGED_GROUP_INFO),
    (Whole::Tree, TREE, CHANGED_TREE),
];

#[test]
fn places_in_changed_inputs(rt: HostRuntime) -> Result<(), Fail> {
    changes(&rt, rt.alloc(), Change::Turn, CHANGED)
}

const CUT: &[(Whole, &str, &str)] = &[(Whole::Message, COMMIT, CUT_COMMIT)];

#[test]
fn places_in_cut_inputs(rt: HostRuntime) -> Result<(), Fail> {
    changes(&rt, rt.alloc(), Change::Cut, CUT)
}

/// The line of an input.
fn input_line(alloc: Global, whole: Whole, digits: &str) -> Result<String, AllocError> {
    place_line(alloc, whole, bytes_of(alloc, digits)?.as_slice())
}

/// Asserts of each input that it has this line.
fn places(rt: &impl Abort, alloc: Global, rows: &[(Whole, &str, &str)]) -> Result<(), Fail> {
    for (whole, digits, wanted) in rows {
        gives(rt, input_line(alloc, *whole, digits), wanted, digits)?;
    }
    Ok(())
}

const ENDS: &[(Whole, &str, &str)] = &[
    (Whole::Message, COMMIT, "none"),
    (Whole::Message, WELCOME, "none"),
    (Whole::Message, GROUP_INFO, "none"),
    (Whole::Tree, TREE, "none"),
    (Whole::Message, "", "offset: 0 field: version fault: 2"),
    (Whole::Tree, "", "offset: 0 field: ratchet_tree fault: 2"),
    (
        Whole::Tree,
        "4049010101450153000102696402000102f001000002000102000373696701020170000800000001000000050000010101450153000102696402000102f00100000200010300000373696700",
        "offset: 75 field: ratchet_tree fault: 3",
    ),
    (
        Whole::Message,
        "00010003f0010a016e016b0163016f00000267690000",
        "offset: 20 field: MLSMessage fault: 3",
    ),
    (
        Whole::Message,
        "000100040001f0010167000000000000000101740000404000021d1c010101450153000102696402000102f001000002000102000373696700021d1c010101450153000102696402000102f00100000200010200037369670163000000000173",
        "offset: 56 field: group_info.extensions[1].extension_type fault: 14",
    ),
    (
        Whole::Message,
        "000100040001f00101670000000000000001017400002100021e1c010101450153000102696402000102f0010000020001020003736967000163000000000173",
        "offset: 55 field: group_info.extensions[0].extension_data fault: 3",
    ),
];

#[test]
fn places_at_the_ends(rt: HostRuntime) -> Result<(), Fail> {
    places(&rt, rt.alloc(), ENDS)
}

/// The offset of the first fault in the file of a message.
fn offset_in(alloc: Global, form: Form, file: &[u8]) -> Result<Option<usize>, AllocError> {
    match place_of_file(alloc, Whole::Message, form, file)? {
        Some(place) => Ok(Some(place.offset)),
        None => Ok(None),
    }
}

/// Asserts of each file that its first fault has this offset.
fn offsets(
    rt: &impl Abort,
    alloc: Global,
    rows: &[(Form, &[u8], Option<usize>)],
) -> Result<(), Fail> {
    for (form, file, wanted) in rows {
        assert_eq!(rt; offset_in(alloc, *form, file)?, *wanted, "for {file:?}");
    }
    Ok(())
}

const FILES: &[(Form, &[u8], Option<usize>)] = &[
    (Form::Hex, b" 0001\n", Some(2)),
    (Form::Hex, b"00 01", None),
    (Form::Raw, b"\0\x01\0", Some(2)),
    (Form::Raw, b"0001", Some(0)),
];

#[test]
fn finds_places_in_files(rt: HostRuntime) -> Result<(), Fail> {
    offsets(&rt, rt.alloc(), FILES)
}

/// What is printed of the place in a message.
fn printed_place(alloc: Global, digits: &str) -> Result<String, AllocError> {
    match place_of_message(bytes_of(alloc, digits)?.as_slice()) {
        Some(place) => text_of(alloc, &place),
        None => Ok(String::new(alloc)),
    }
}

#[test]
fn prints_the_offset_and_the_field(rt: HostRuntime) -> Result<(), Fail> {
    let digits = "00010003f0";
    let wanted = "offset: 4\nfield: welcome.cipher_suite\n";
    gives(&rt, printed_place(rt.alloc(), digits), wanted, digits)
}
