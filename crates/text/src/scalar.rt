// Scalar values and white space.
ghost use Rattle.std.specs.Prelude.{◌≡◌, ◌≤◌, ◌⊎◌, Decides};
ghost use Rattle.std.proofs.Math.Utf8.{scalar, scalars};
ghost use Rattle.text.specs.Scalars.{white};

/// Whether `code` is a Unicode scalar value: at most 10FFFF, and no surrogate.
pub fn is_scalar(code: u32) -> bool
    ensures value { result ≡ scalar code }
    ensures ranges { Decides result ((code ≤ 0xD7FF) ⊎ ((0xE000 ≤ code) × (code ≤ 0x10FFFF))) }
{
    matches!(code, 0..=0xD7FF | 0xE000..=0x10FFFF)
}

/// Whether `code` is white space.
pub fn is_whitespace(code: u32) -> bool
    ensures value { result ≡ white code }
{
    matches!(
        code,
        0x09..=0x0D | 0x20 | 0x85 | 0xA0 | 0x1680 | 0x2000..=0x200A | 0x2028 | 0x2029 | 0x202F | 0x205F | 0x3000
    )
}

/// Whether each of the codes is a Unicode scalar value.
pub fn all_scalars(codes: &[u32]) -> bool
    ensures value { result ≡ scalars codes.now }
{
    // By `any`: over `all` the compiler leaves one instruction more to each code.
    !codes.iter().any(|code| !is_scalar(*code))
}
