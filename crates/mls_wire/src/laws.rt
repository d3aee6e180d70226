//! What spelling and reading have to do with each other.

ghost use Rattle.std.specs.Prelude.{◌^◌, ◌<◌, length};
ghost use Rattle.std.specs.Int.{w8, w16, w32, w64};
ghost use Rattle.mls_wire.specs.Format.{IsLawful};
ghost use Rattle.mls_wire.specs.Reading.{uint, uint_at, header, length_at, opaque, opaque_at};

/// What is read is spelled so, and what is spelled so is read, whatever follows. So each number, each length
/// and each byte string has one spelling, and none begins a longer one.
pub fn one_spelling()
    ensures uint8 { IsLawful (uint w8) (λ n. n < 2 ^ 8) (uint_at w8) }
    ensures uint16 { IsLawful (uint w16) (λ n. n < 2 ^ 16) (uint_at w16) }
    ensures uint32 { IsLawful (uint w32) (λ n. n < 2 ^ 32) (uint_at w32) }
    ensures uint64 { IsLawful (uint w64) (λ n. n < 2 ^ 64) (uint_at w64) }
    ensures lengths { IsLawful header (λ n. n < 2 ^ 30) length_at }
    ensures byte_strings { IsLawful opaque (λ text. length text < 2 ^ 30) opaque_at }
{}
