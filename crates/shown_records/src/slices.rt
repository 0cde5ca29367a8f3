//! The bytes behind others.
ghost use Rattle.std.specs.Prelude.{◌≡◌, drop};

/// The bytes behind the first so many.
pub(crate) fn behind(bytes: &[u8], count: usize) -> &[u8]
    ensures { result.now ≡ drop count bytes.now }
{
    if count <= bytes.len() {
        &bytes[count..]
    } else {
        &[]
    }
}
