//! Laws of leaves and key packages. Each function does nothing, and its contract is the laws of one subject.

ghost use Rattle.std.specs.Prelude.{ℕ, List};
ghost use Rattle.std.specs.Bool.{Decides};
ghost use Rattle.std.specs.Prelude.{◌≡◌};
ghost use Rattle.mls_leaf.specs.InputLaws.{LeafIsSpelled, KeyPackageIsSpelled};

use crate::bytes::Bytes;
use crate::extension::Extension;
use crate::group_extensions::GroupExtensions;
use crate::leaf::LeafNode;

/// What is signed is all of a spelling in front of the signature (RFC 9420, sections 7.2 and 10).
pub fn laws_of_signed_parts()
    ensures leaf { LeafIsSpelled }
    ensures key_package { KeyPackageIsSpelled }
{}

/// Byte strings, leaves and the extensions of a group are equal by `==` exactly when they are the same.
pub fn laws_of_equality()
    ensures byte_strings { (x y : List ℕ) → Decides (⟦<Bytes as PartialEq>⟧.eq x y) (x ≡ y) }
    ensures leaves { (v w : LeafNode) → Decides (⟦<LeafNode as PartialEq>⟧.eq v w) (v ≡ w) }
    ensures extensions { (v w : List Extension)
        → Decides (⟦<GroupExtensions as PartialEq>⟧.eq v w) (v ≡ w) }
{}
