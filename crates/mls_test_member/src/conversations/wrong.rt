//! Messages that are wrong in one point, by Python alone: tools/application-messages prints them.

use crate::conversations::speakers::{
    Speakers, Text, bytes_of, hears, new_speakers, number_of_hearing,
};
use mls_conversation::{Conversation, ExchangeError};
use mls_suite::{Glass, Suite};
use std::alloc::{AllocError, Global};
use std::test::Fail;

/// The number that each is refused with, and its digits. All are of generation 0, and of Alice where nothing is said.
const WRONG: [(u8, &str); 27] = [
    // Another group.
    (
        111,
        "000100020567726f6570000000000000000101036161642cb8970e1f6d4aec2d2703297d79c44446647b8c34635d31614606756ab591a890bc43292c378f6e4e9cb5cad1404a05374d01c24a70b02a1f79aa9e35092bcfd4c6e63226a11888ffd147a8a537ebf0fa8a9a6e74f6f22a47211a0c34c24f8f0a44f7b26941e33867ab71ff63843f388f252d4124a88750cd",
    ),
    // A group's name that is longer.
    (
        111,
        "000100020667726f757073000000000000000101036161642cba63f15e12eacb24ce035aa17cb2da6ff281e678197da1098d338da97f13979c6cfa94880689d9da25c46c74404a609429217d599d2df99fb5b1ea6080c38dce080ec3234dbe145e79065da6d0c72bc79ddb5c237aee15c8c9297a67bd5ec77daa6b1b8419320d7cd5b200e00d7f426c5aeaa0fb20d42191",
    ),
    // The epoch before.
    (
        112,
        "000100020567726f7570000000000000000001036161642c13858be1d618b136998fa13e4b78a72d92e5b5f872a25c2de3f2dfeb252f1ec326371601746edf3e7559ebd3404afc7e2cfd45e67be705b8058cdbef1f334cf0146195b9abf9ab2e887469d628ab761848268d1091ff026b2e6abfa2556f1bd3dce0152c231761b18cd4f47a38e784866d1069bd19d680b4",
    ),
    // The epoch behind.
    (
        112,
        "000100020567726f7570000000000000000201036161642ccdada9c8146b5fe782489e193b61c0de978fc06341e2d3814826652cb1c9b36d92b326ff1678baa76be8e7b5404aa6d07ab68bc1adc2f219ac0fad6dbd7a080baf95216a1df009be5e57ca42aceb02688ccdde890bee57a6ebb3cd595ba36f0a6fb1b1896018cb93893095b9ffa91e0ac56a550132e34c4a",
    ),
    // Sender data of 11 bytes.
    (
        113,
        "000100020567726f7570000000000000000101036161642b702b54942e2a9363c86b80a969691708d7743ee28142ff33d480abe88ad21c9ea619c5491dedabc15f6aaf404ab3356dbba56c1487e93dc46deccfcb61ba607bfab03843de2a75d4f642950fbffa8b5898b2bd7e8772d911378770778b4aeea16db91aaa22ab7433d579f567335373116c185e98aaad23",
    ),
    // Sender data of 13 bytes.
    (
        113,
        "000100020567726f7570000000000000000101036161642d702b54942e2a9363c86b80cbcde05ad922e1fb0beffaa1af34e5b6df17becb488d29045b9287606f3d47ed01ff404ab3356dbba56c1487e93dc46deccfcb61ba607bfab03843de2a75d4f642950fbffa8b5898b2bd7e8772d911378770778b4aeea16db91aaa22ab7433d579f567335373116c185e98aaad23",
    ),
    // Sender data under a sample of 31 bytes.
    (
        113,
        "000100020567726f7570000000000000000101036161642cd8a8846956993f830ae30f6b4871fa32a2f1ca799b4a9c3ad453759372d2f8365780d1bb48e95006bd97868a404ab3356dbba56c1487e93dc46deccfcb61ba607bfab03843de2a75d4f642950fbffa8b5898b2bd7e8772d911378770778b4aeea16db91aaa22ab7433d579f567335373116c185e98aaad23",
    ),
    // Sender data under a sample of 33 bytes.
    (
        113,
        "000100020567726f7570000000000000000101036161642c57103efb932707a77e0a8c9c0f205f842adc64f6e77ae1b14f72f40c1189f8841db50071fc974471a807c86c404ab3356dbba56c1487e93dc46deccfcb61ba607bfab03843de2a75d4f642950fbffa8b5898b2bd7e8772d911378770778b4aeea16db91aaa22ab7433d579f567335373116c185e98aaad23",
    ),
    // Leaf 3.
    (
        114,
        "000100020567726f7570000000000000000101036161642c702b54972e2a9363c86b80cbd3388aee6056f9effdcd49ad114e702d099b5cc45d249e1833c1dbba249ce2c1404ab3356dbba56c1487e93dc46deccfcb61ba607bfab03843de2a75d4f642950fbffa8b5898b2bd7e8772d911378770778b4aeea16db91aaa22ab7433d579f567335373116c185e98aaad23",
    ),
    // Leaf 4.
    (
        114,
        "000100020567726f7570000000000000000101036161642c702b54902e2a9363c86b80cb1cf424baa512157278e1fcfd7ef5d544ab1f1c28a28dea264a7dbd2fc4cfbf0e404ab3356dbba56c1487e93dc46deccfcb61ba607bfab03843de2a75d4f642950fbffa8b5898b2bd7e8772d911378770778b4aeea16db91aaa22ab7433d579f567335373116c185e98aaad23",
    ),
    // Leaf 4294967295.
    (
        114,
        "000100020567726f7570000000000000000101036161642c8fd4ab6b2e2a9363c86b80cb29dc6ff5ec10bb4e36f395d37ba6c414004b2aa79be8838aa30ce111e0f532b3404ab3356dbba56c1487e93dc46deccfcb61ba607bfab03843de2a75d4f642950fbffa8b5898b2bd7e8772d911378770778b4aeea16db91aaa22ab7433d579f567335373116c185e98aaad23",
    ),
    // Generation 1001.
    (
        115,
        "000100020567726f7570000000000000000101036161642c702b54942e2a908ac86b80cbda9f989db20fcd5ffdfd1293c5e7d91373522f74435de79508140a3c3a83b6ba404ab3356dbba56c1487e93dc46deccfcb61ba607bfab03843de2a75d4f642950fbffa8b5898b2bd7e8772d911378770778b4aeea16db91aaa22ab7433d579f567335373116c185e98aaad23",
    ),
    // Generation 4294967295.
    (
        115,
        "000100020567726f7570000000000000000101036161642c702b5494d1d56c9cc86b80cbb6e446e100d3929f29871bd907ecbfb23eaa5a6e89d438a85997feb341ff94bf404ab3356dbba56c1487e93dc46deccfcb61ba607bfab03843de2a75d4f642950fbffa8b5898b2bd7e8772d911378770778b4aeea16db91aaa22ab7433d579f567335373116c185e98aaad23",
    ),
    // A guard that isn't applied.
    (
        117,
        "000100020567726f7570000000000000000101036161642c7075465a3c8aff58c57b556e70293aa89a6c8b83166844876a75023d259b760aa71e0451b7dacb23b251315a404a61040d781c7774f66055b629d29b85ac948395fcb9b07c3461aa08a6cef89899060333707a91c0e636d712466cd653c9206098518f4a0864c9dcd3bb71089172e526ca593c212fecabaa",
    ),
    // The key of generation 1.
    (
        117,
        "000100020567726f7570000000000000000101036161642c501745e756e3538275f830826f6e3069bbf1ff79a2072249320e52babb77b6c4a38d0735eeb65a84f870ae55404af47a764a069ef68de17b3777730cac2484ff026b4150e0fc673f7a553c60029debbe7ebe4f8f5f3233c2108c271a928ff279495651a102769a2a3dbb9e2a90556fd5c64db10907fc2271",
    ),
    // The key of leaf 1.
    (
        117,
        "000100020567726f7570000000000000000101036161642c295715be3aea7c6d9b5775ee0275027101af5a2ade99b962442d984f94b0ccec8b205be57ff45f8addf34578404a29bba6fc4bce27dd866f1357e5402dd11e6bb2b56d7c3f1c66c7bce41df25558973a66ff63c201ec2bb556ac3e03a59c076b083d1a57ad6c7349c7d7ff4ecc08e6ec368d7ec6390e77e7",
    ),
    // A content of no bytes.
    (
        2,
        "000100020567726f7570000000000000000101036161642c9009505df4984ecd353b8a97c9ecfce0574438c6bf5aac881634a65e42cc3eee995ef2063eed58d92a48aee8201efd329076c11180f48fa215110dbb549bedcd152df4c9009ff54c274fae123a",
    ),
    // A content with no signature.
    (
        2,
        "000100020567726f7570000000000000000101036161642cf2db994c22522781f769b7218c5b3f7e806283bbb0e851703de8b49ea5b89f57759978acdd593c9347a0fb1626b3356dbba56c865317bddf7d99122cf46ccae96a5de1927aa0fe34e7aa3b408f054131d85f29",
    ),
    // A content with a long header.
    (
        5,
        "000100020567726f7570000000000000000101036161642c9fd95112bb72b93a07f7c401cc5a51049ac89ba0eff3188d7a5c7d523ae203138c827c21af94b92cd03f5bfc28f65860b2a56f5b8045b888c421123dc4c37abc83374fa3d774cc6c3503d2fff40cba4d3beccb2806",
    ),
    // Padding that ends in 1.
    (
        118,
        "000100020567726f7570000000000000000101036161642c702b54942e2a9363c86b80cba65876f08d872253af46d1f8630c7a75b734d8a035d150b4d080ad81d6cbae7d404ab3356dbba56c1487e93dc46deccfcb61ba607bfab03843de2a75d4f642950fbffa8b5898b2bd7e8772d8f33c669b671bae8f82e761e87956643d4ebd15393ee666b3126fbf2525d8ec95",
    ),
    // Padding that begins with 128.
    (
        118,
        "000100020567726f7570000000000000000101036161642c702b54942e2a9363c86b80cba65876f08d872253af46d1f8630c7a75b734d8a035d150b4d080ad81d6cbae7d404ab3356dbba56c1487e93dc46deccfcb61ba607bfab03843de2a75d4f642950fbffa8b5898b2bd7e0772d984bcbfa4a1fee1b165b8e264c39589812fe33aad9f01d05620229201c7e8bfa0",
    ),
    // A signature with padding that isn't zero.
    (
        118,
        "000100020567726f7570000000000000000101036161642cefc29b5a4dea156fcae96165ea1381d718bff49730a7af1ad4535c0a6da09d550d9d8ca08ec92ae31b6e27f428b3356dbba56c3481283d5eb5eca972ba4216e64b234dd81be0a5ef35b7a4a232e0d17c7aada8d7aa",
    ),
    // No signature.
    (
        119,
        "000100020567726f7570000000000000000101036161642c6418d8059796db0d1461f1f4f93575785207ebb7d45a42c4fed21c02811fb14a71e54ac052c2c9f85c5347b22ab3356dbba56c3480f271ba8f01065508e82dbbecacbf54e00df686a42dd7c84f611e3a00eb7b4c813702",
    ),
    // A signature of other data.
    (
        119,
        "000100020567726f7570000000000000000101036161642c25e3b5ff2dd2077bfe8d3866c571ec9e8c3a984e7f07594a49ab0f15034dd1f748d428d5cb8df8865709f4a7404ab33569bba56c1487e93dc46deccfcb61ba607bfab03843de2a75d4f642950fbffa8b5898b2bd7e8772d909eef1b6febd579fedff8e31157562d877aefc714510ee8be85723eb950463ed",
    ),
    // A signature of other authenticated data.
    (
        119,
        "000100020567726f7570000000000000000101002c9372537127847803ec20a09cfcb817dea819d5a9823c0eb9601161658013e8834a388c61b36f9178bad4fdb3404a46ba533511514e4fa04061a10337a04d8795122387d33d2aef4b5f7efe7a44c2fa20a50b2528cd872453abde1d360d22d6c904eebdf51282411605bbd3aa2d8f0f9e86c61f53026def56",
    ),
    // A signature for a PublicMessage.
    (
        119,
        "000100020567726f7570000000000000000101036161642ceb1082c53bb9b2e5704e290ec2d8d169ec31efe06ea3d94d8440e471364cc9cbce61eb3bbd95ae5492665fa4404ab3356dbba56c14a22c2ec367ada75f94b6e52bc389f766cc47ae67beda1a815e4f1ac7d44d2c618772d9fbe41719556fcb2f5927e5366c483c83e6953321c7413d2da691f138bdd82e37",
    ),
    // Another member's signature.
    (
        119,
        "000100020567726f7570000000000000000101036161642c295715bf3aea7c6d9b5775ee28879bc14565e80c92184309aa935954d7cd03a94b4a80f7250fc163442e5f99404a29bba6fc4bce27dd866f1357e5402dd11e6bb2b56d7c3f1c66c7bce41df25558973a66ff63c201ec2bb556ac3e03a59c076b083d1a57ad6c7349c7d7ff4ecc08e6ec368d7ec6390e77e7",
    ),
];

/// The number that digits are refused with, 0 where they open.
fn number_of_digits<S: Suite>(
    alloc: Global,
    conversation: &mut Conversation<S>,
    digits: &str,
) -> Result<u8, AllocError> {
    let message = bytes_of(alloc, digits)?;
    Ok(number_of_hearing(conversation, &message))
}

/// How many of the wrong messages are refused with their number.
fn refused_by_number<S: Suite>(
    alloc: Global,
    conversation: &mut Conversation<S>,
) -> Result<u32, AllocError> {
    let mut count: u32 = 0;
    for (number, digits) in WRONG {
        if number_of_digits(alloc, conversation, digits)? == number {
            count = count.saturating_add(1);
        }
    }
    Ok(count)
}

const HELLO: Text = Text {
    application_data: b"hello",
    authenticated_data: b"aad",
    padding: 3,
    seed: 6,
};

/// Whether the true message of the first generation of a leaf opens at Carol.
fn true_one_opens<S: Suite>(speakers: &mut Speakers<S>, leaf: u32) -> Result<bool, ExchangeError> {
    let message = speakers.say(leaf, &HELLO)?;
    hears(&mut speakers.carol, &message, leaf, 0, b"hello")
}

/// How many wrong messages Carol refuses, and whether the true ones of Alice and Bob open then.
fn answers_of<S: Suite>(
    alloc: Global,
    speakers: &mut Speakers<S>,
) -> Result<(u32, bool, bool), ExchangeError> {
    let count = refused_by_number(alloc, &mut speakers.carol)?;
    let of_alice = true_one_opens(speakers, 0)?;
    let of_bob = true_one_opens(speakers, 1)?;
    Ok((count, of_alice, of_bob))
}

/// `answers_of` in a new group of three.
fn answers(alloc: Global) -> Result<(u32, bool, bool), Fail> {
    let mut speakers = new_speakers::<Glass>(alloc, b"group")?;
    Ok(answers_of(alloc, &mut speakers)?)
}

#[test]
fn wrong_messages(rt: HostRuntime) -> Result<(), Fail> {
    assert_eq!(rt; answers(rt.alloc())?, (27, true, true));
    Ok(())
}
