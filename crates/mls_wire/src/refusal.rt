//! The names of refusals: one table for all crates.

ghost use Rattle.std.specs.Prelude.{◌≡◌};
ghost use Rattle.mls_wire.specs.Names.{name_in, names_of_bytes, names_of_trees, names_of_members, names_of_joins, refusal_name};

/// The name of the refusal with that number, as it is printed. Where no refusal has it, nothing.
pub fn refusal_name(number: u8) -> &'static str
    ensures { result.now ≡ refusal_name number }
{
    match number {
        0..=19 => name_of_bytes(number),
        20..=39 => name_of_trees(number),
        40..=69 => name_of_members(number),
        _ => name_of_joins(number),
    }
}

/// The name of a refusal of bytes and texts (1 to 14), or nothing.
fn name_of_bytes(number: u8) -> &'static str
    ensures { result.now ≡ name_in names_of_bytes number }
{
    match number {
        1 => "OutOfMemory",
        2 => "Truncated",
        3 => "Trailing",
        4 => "BadLength",
        5 => "NotMinimal",
        6 => "TooLong",
        7 => "BadTag",
        8 => "NotHex",
        9 => "BadJson",
        10 => "OutputTooLong",
        11 => "UnsupportedCredential",
        12 => "UnsupportedProposal",
        13 => "NotRising",
        14 => "ExtensionNotAllowed",
        _ => "",
    }
}

/// The name of a refusal of trees and private paths (20 to 36), or nothing.
fn name_of_trees(number: u8) -> &'static str
    ensures { result.now ≡ name_in names_of_trees number }
{
    match number {
        20 => "TreeShape",
        21 => "TreeFull",
        22 => "NoSuchLeaf",
        23 => "UnmergedWrong",
        24 => "ParentHashWrong",
        25 => "KeyRepeated",
        26 => "ClientRepeated",
        30 => "PathLength",
        31 => "CipherCount",
        32 => "OpenFailed",
        33 => "SecretLength",
        34 => "PathKeyMismatch",
        35 => "KeyMissing",
        36 => "BadKey",
        _ => "",
    }
}

/// The name of a refusal of messages, leaves and commits (40 to 68), or nothing.
fn name_of_members(number: u8) -> &'static str
    ensures { result.now ≡ name_in names_of_members number }
{
    match number {
        40 => "Gone",
        41 => "NotPublicMessage",
        42 => "WrongGroup",
        43 => "WrongEpoch",
        44 => "SenderNotMember",
        45 => "NotHandshake",
        46 => "BadMembershipTag",
        47 => "BadSignature",
        48 => "OwnUnknown",
        49 => "ReferenceTaken",
        50 => "LeafSource",
        51 => "LeafSignature",
        52 => "LeafCapability",
        53 => "LeafIdentityChanged",
        54 => "LeafKeySame",
        55 => "KeyPackageSuite",
        56 => "KeyPackageSignature",
        57 => "InitKeySame",
        60 => "UnknownReference",
        61 => "CommitterUpdate",
        62 => "CommitterRemoved",
        63 => "SameLeafTwice",
        64 => "PathMissing",
        65 => "BadConfirmationTag",
        66 => "EpochEnd",
        67 => "PendingCommit",
        68 => "SecondExtensions",
        _ => "",
    }
}

/// The name of a refusal of Welcomes and of worlds (70 to 95), or nothing.
fn name_of_joins(number: u8) -> &'static str
    ensures { result.now ≡ name_in names_of_joins number }
{
    match number {
        70 => "NotWelcome",
        71 => "WrongSuite",
        72 => "NotForMe",
        73 => "SecretsUnreadable",
        74 => "PskPresent",
        75 => "GroupInfoUnreadable",
        76 => "NoTree",
        77 => "TreeHashWrong",
        78 => "SignerWrong",
        79 => "GroupInfoSignature",
        80 => "NotInTree",
        90 => "NoSuchMember",
        91 => "CandidateSpent",
        92 => "NoSuchCandidate",
        93 => "CandidateRepeated",
        94 => "NoSuchMessage",
        95 => "WrongMessageKind",
        _ => "",
    }
}
