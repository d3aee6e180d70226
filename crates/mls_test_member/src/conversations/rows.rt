//! Keys and messages by RFC 9420, 6.3 and 9, and by Python alone: tools/application-messages prints them.

use crate::conversations::speakers::{Speakers, Text, bytes_of, converse_all, is_said};
use crate::conversations::trio::{Trio, create_trio};
use mls_conversation::{ExchangeError, Opened};
use mls_member::Member;
use mls_secret_tree::{SecretTree, SecretTreeError};
use mls_suite::{Glass, Suite};
use mls_suite_0001::Suite0001;
use std::alloc::Global;
use std::test::Fail;

/// A key of the epoch, with its nonce, under the practice suite and under suite 0x0001.
#[derive(Clone, Copy)]
struct Key {
    leaf: u32,
    generation: u32,
    glass: &'static str,
    suite_0001: &'static str,
}

const KEYS: [Key; 6] = [
    Key {
        leaf: 0,
        generation: 0,
        glass: "0dfee5e347842245ef4cfb6c049bb6dbb71d60227962387346765727",
        suite_0001: "d50a4f357ea732b08676fd3c84940b022a73b321785c9ffd373c04d4",
    },
    Key {
        leaf: 0,
        generation: 1,
        glass: "16c708592ef80832a13305afa380f2cefa6df2b217a9105d923b8d77",
        suite_0001: "972b384d4577b0ec7d300ad4192d2629cd49d5c250c575d3c837b5d8",
    },
    Key {
        leaf: 1,
        generation: 0,
        glass: "4fd0f5724e3253aa2595a1b8f5e070ce489b9aef1585295e9372e372",
        suite_0001: "cba917cfad46218f578a671de554f3ea68568134bc4e22a4624ff99c",
    },
    Key {
        leaf: 2,
        generation: 0,
        glass: "04280f53755ac833f50a8452f96e89f1af28162e26d560f37117f97a",
        suite_0001: "abe3b030552b3893295f1247135f0e20fd36cfeaafd0a424343ef200",
    },
    Key {
        leaf: 2,
        generation: 3,
        glass: "ab4df798c93a6786b918f99f2badd3933b904b9c248d295cb6653435",
        suite_0001: "e980deb9c1104fd8d4151b47e5fd59830449016bb1a1aeab64b786d7",
    },
    Key {
        leaf: 1,
        generation: 1000,
        glass: "954a080322abf38c488bdc464e40c3a1528f5d0510c5f8755570b884",
        suite_0001: "0ff3b6faa056a33dfb02f20c871490bad2023b4eccff7510f8a6b572",
    },
];

/// A message, as the two suites seal it.
#[derive(Clone, Copy)]
struct Row {
    leaf: u32,
    identity: &'static [u8],
    generation: u32,
    text: Text,
    glass: &'static str,
    suite_0001: &'static str,
}

const ROWS: [Row; 5] = [
    Row {
        leaf: 0,
        identity: b"alice",
        generation: 0,
        text: Text {
            application_data: b"hello",
            authenticated_data: b"",
            padding: 0,
            seed: 6,
        },
        glass: "000100020567726f7570000000000000000101002c55cf1ae1945d36b44abc386c8fa7ab9133ecbe83576cb12bc52c41b638aee502d0eb048efcc86bee57aa23ba40473ee58e3740aee0ca9ae8d6068fc0b497ec7f76179e93d7c79545e7aca5104e2dda1bcb185b3fc395e8f5ffe730dbc87ed57b7122a3daeec35f37b9f8de5c231c97e53e84a73fed",
        suite_0001: "000100020567726f7570000000000000000101001cfb2f81308472276935351c9adc3920cc1b5af7ee09a59fd3c684fa774058f2b7bb438ee540b265bb52c039491297e3582aec18a28904d152dc2f34f3fb8a5d98b389c32a0d2c95d5a7bbd5f00c827f8e5d7bcf2790ebdf2ed56659133f303d2c5591379270afc65f377a8a71dc8299a9826757331008",
    },
    Row {
        leaf: 0,
        identity: b"alice",
        generation: 1,
        text: Text {
            application_data: b"",
            authenticated_data: b"aad",
            padding: 3,
            seed: 7,
        },
        glass: "000100020567726f7570000000000000000101036161642c00c41b2b141b6e3c9e478dc0550296c8460276a5a841376c42ec8a5bb8c5588338d3593904f8cafc8fb13e034045d905a9e7140c44f96c4e9ce933daf5c8e44ad224323762d99447085f3c13efc57b854f56bbb4fe1933d924908be0b47f713049d684794ef0a3bd988914db4eef6b991aeb18",
        suite_0001: "000100020567726f7570000000000000000101036161641c5855036cc68785b530cdeed821955b56716dd2375403644961513e154056b8673c412ff425e98b4845b2b48ace68c9c9cef3123718167f05531b16eb5bbf040ab649ce3eafc73dfe4388ec3ead11cb90ad37c12ad26f8d99396b24812f41068620ab74e3992cd9bb469336ec56f672fdf471b9d2",
    },
    Row {
        leaf: 1,
        identity: b"bob",
        generation: 0,
        text: Text {
            application_data: b"hi",
            authenticated_data: b"aad",
            padding: 0,
            seed: 8,
        },
        glass: "000100020567726f7570000000000000000101036161642c76e82d33fb660897ff6a058408c0a2728da8ff35e902d570fd11930d3fcdfd077c5ce16ddf25b54c078abab04044dc84e8392bf9c84ecfa35482f2e52bd9a51790654e831446a0a14980e96deda7800bc28be7af68237ecb0ad94e97295f375a9c55ccca7b1874316f87a91f5035b0b0bdea",
        suite_0001: "000100020567726f7570000000000000000101036161641cc4eabd52b111b64e7e9c14da8e94df9f0a7bfa19c6fe757383fb71474055047e0fdc87dfac6efd0d1d3fcc98acaf0029b2f97d49dac86a2c2637b23fa7a2b79ce19ce63de9e5dd5fc8fbb22ae4335242ce91c134a737bbe740d32a8b943ead5bc77461539ddadb3d6eafe679cf79d7d09ea6dc",
    },
    Row {
        leaf: 2,
        identity: b"carol",
        generation: 0,
        text: Text {
            application_data: &[b'd'; 70],
            authenticated_data: &[b'a'; 70],
            padding: 40,
            seed: 9,
        },
        glass: "000100020567726f75700000000000000001014046616161616161616161616161616161616161616161616161616161616161616161616161616161616161616161616161616161616161616161616161616161616161616161612cc8a2284f223b103663adcad4fda36876d111e21163b1b163c91f0c044dffe8b23e2f0d8957fc55cb50ca29c040b16f2643c4315db3b19fb52f5a4fb89ee990d25a91d376a41166c05473e02685b73bb997fe9c0cdb66977f154a92a82a223c28cdf0ba47153215ab83b9459ec1277c060f158cfd291f414d30f0ec0093365f1360be2b7b181fea2c6e241fbd8bd5d11bbd5801514beef624a8c11dd9dba85fda76cf8e7abb4a1cb6429f4ba52282970953486a8fffb5a1f89c67f170869388a92ff282f3790b6f19a1861f71220ded347d11d22f5e2ea6f3cadba1f84e70d8",
        suite_0001: "000100020567726f75700000000000000001014046616161616161616161616161616161616161616161616161616161616161616161616161616161616161616161616161616161616161616161616161616161616161616161611c8e22c8cb8f89101502c649c3a5932cfaa53c562853924765ff63682240c25e1731573146650872a346b922acb74e74080470a14b9699c9b03fbcaac919b1d0ee6c035d04be85a7205f3741b8e1672ccfbe60ce5822d01dc9c12976f4239bd3cc89b211fe7b56b6c7d914a173e8d018ca8cf0abdc7e1ede10c3577e44d7fee60cd7dff4e5e9dc5d8175289f00beedec789ad331aa5eac455e4942b83bab1b3d6e1121bd4dea9b73345151f664d84accb776ef4881d818d0f5490d25a508af4c4fef2ebc6f3585ba1588ec47ae55e1d3b6172b9f60b452f7e8a0dc47db9ddb8884",
    },
    Row {
        leaf: 0,
        identity: b"alice",
        generation: 2,
        text: Text {
            application_data: b"bye",
            authenticated_data: b"",
            padding: 1,
            seed: 10,
        },
        glass: "000100020567726f7570000000000000000101002cc322365da830ac42ba1778f69fc7d9f1bfe9cacf998a0e9d878757937d1b1e71c4ebbdc96f16fec35aa0b5ea4046b5e272b499a31713f23a640b561472473e95ac382da4ce678d257a0f838d52603e865935829f111fc1e79d79d8e48ba93825311eac26b1e076cc883a637609803a65589b08b1",
        suite_0001: "000100020567726f7570000000000000000101001c55b5a9885c94331218a1b04367c128b9ca471c37c7dfed2e04ffdecf405795123499dd882fb65bb304d71fb6d22b9993dba13345a900076ae0504f92d902698ba416e854798976e52d870b3c05fda345e838439f837080a8e93c68844d3d86b593f912d8eaa92b804287106d70429bee30e1519f84",
    },
];

/// The digits for a suite: the first for the practice suite, the others for suite 0x0001.
fn digits_for<S: Suite>(glass: &'static str, suite_0001: &'static str) -> &'static str {
    if S::NUMBER == 1 { suite_0001 } else { glass }
}

/// The secret tree of a member's epoch: `SenderWithoutLeaf` where there is none.
fn secret_tree<S: Suite>(member: &Member<S>) -> Result<SecretTree, SecretTreeError> {
    let leaves = member.group().tree().leaf_count();
    match SecretTree::new(member.secrets().encryption_secret(), leaves) {
        Some(tree) => Ok(tree),
        None => Err(SecretTreeError::SenderWithoutLeaf),
    }
}

/// A key and its nonce, in one.
fn key_and_nonce(
    alloc: Global,
    tree: &SecretTree,
    leaf: u32,
    generation: u32,
) -> Result<Vec<u8>, SecretTreeError> {
    let draft = tree.draft_key(alloc, leaf, generation)?;
    let mut bytes = Vec::from_slice(alloc, &draft.key().key)?;
    bytes.extend_from_slice(&draft.key().nonce)?;
    Ok(bytes)
}

/// Whether the key of a leaf's generation is the one by hand.
fn is_key_by_hand<S: Suite>(
    alloc: Global,
    tree: &SecretTree,
    key: &Key,
) -> Result<bool, SecretTreeError> {
    let wanted = bytes_of(alloc, digits_for::<S>(key.glass, key.suite_0001))?;
    let made = key_and_nonce(alloc, tree, key.leaf, key.generation)?;
    Ok(made.as_slice() == wanted.as_slice())
}

/// How many keys of a member's epoch are those by hand.
fn keys_by_hand<S: Suite>(alloc: Global, member: &Member<S>) -> Result<u32, SecretTreeError> {
    let tree = secret_tree(member)?;
    let mut count: u32 = 0;
    for key in KEYS {
        if is_key_by_hand::<S>(alloc, &tree, &key)? {
            count = count.saturating_add(1);
        }
    }
    Ok(count)
}

/// Whether what was opened is what a row says.
fn shows(row: &Row, opened: &Opened) -> bool {
    is_said(opened, row.leaf, row.generation, row.text.application_data)
        && opened.identity.as_slice() == row.identity
        && opened.authenticated_data.as_slice() == row.text.authenticated_data
}

/// Whether the message by hand opens as the row says at the two others.
fn opens_as_by_hand<S: Suite>(
    speakers: &mut Speakers<S>,
    row: &Row,
    message: &[u8],
) -> Result<bool, ExchangeError> {
    let mut is_right = true;
    for leaf in 0..3 {
        if leaf != row.leaf {
            let opened = speakers.hear(leaf, message)?;
            is_right = is_right && shows(row, &opened);
        }
    }
    Ok(is_right)
}

/// Whether a row is sealed as by hand, and its message opens.
fn goes_as_by_hand<S: Suite>(
    alloc: Global,
    speakers: &mut Speakers<S>,
    row: &Row,
) -> Result<bool, ExchangeError> {
    let message = bytes_of(alloc, digits_for::<S>(row.glass, row.suite_0001))?;
    let sealed = speakers.say(row.leaf, &row.text)?;
    let is_sealed = sealed.as_slice() == message.as_slice();
    Ok(is_sealed && opens_as_by_hand(speakers, row, &message)?)
}

/// How many rows go as by hand, in order.
fn rows_by_hand<S: Suite>(alloc: Global, speakers: &mut Speakers<S>) -> Result<u32, ExchangeError> {
    let mut count: u32 = 0;
    for row in ROWS {
        if goes_as_by_hand(alloc, speakers, &row)? {
            count = count.saturating_add(1);
        }
    }
    Ok(count)
}

/// How many keys and rows of a group of three are those by hand.
fn counts_of<S: Suite>(alloc: Global, members: &Trio<S>) -> Result<(u32, u32), Fail> {
    let keys = keys_by_hand(alloc, &members.alice)?;
    let mut speakers = converse_all(alloc, members)?;
    Ok((keys, rows_by_hand(alloc, &mut speakers)?))
}

/// How many keys and rows of a new group of three are those by hand.
fn counts<S: Suite>(alloc: Global) -> Result<(u32, u32), Fail> {
    let members = create_trio::<S>(alloc, b"group")?;
    counts_of(alloc, &members)
}

#[test]
fn keys_and_messages_under_glass(rt: HostRuntime) -> Result<(), Fail> {
    assert_eq!(rt; counts::<Glass>(rt.alloc())?, (6, 5));
    Ok(())
}

#[test]
fn keys_and_messages_under_suite_0001(rt: HostRuntime) -> Result<(), Fail> {
    assert_eq!(rt; counts::<Suite0001>(rt.alloc())?, (6, 5));
    Ok(())
}
