//! Whether two runs of bytes are the same.
ghost use Rattle.std.specs.Prelude.{◌≡◌, length};
ghost use Rattle.std.specs.Str.{bytes_eq};

// Whether they have the same bytes, where one is as long as the other: by eight, and then the rest.
#[inline(always)]
fn same_eights(p: &[u8], q: &[u8]) -> bool
    requires { length p.now ≡ length q.now }
    ensures { result ≡ bytes_eq p.now q.now }
{
    let (p_eights, p_rest) = p.as_chunks::<8>();
    let (q_eights, q_rest) = q.as_chunks::<8>();
    p_eights.iter().zip(q_eights).all(|(a, b)| a == b) && p_rest == q_rest
}

// Whether they have the same bytes: the first 32 at once, then the others.
// Not by `==` of the slices, which has no way out before the last byte where the first four are the same.
#[inline]
pub(crate) fn same_bytes(p: &[u8], q: &[u8]) -> bool
    ensures { result ≡ bytes_eq p.now q.now }
{
    if p.len() != q.len() {
        return false;
    }
    match (p.split_first_chunk::<32>(), q.split_first_chunk::<32>()) {
        (Some((a, p)), Some((b, q))) => a == b && same_eights(p, q),
        _ => same_eights(p, q),
    }
}
