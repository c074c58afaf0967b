// Little-endian reads.
ghost use Rattle.std.specs.Prelude.{◌≡◌, drop};
ghost use Rattle.sheet.specs.Bytes.{field, little_endian};

// What is left of `s` from `i` on: nothing where `i` lies past the end.
pub(crate) fn tail(s: &[u8], i: usize) -> &[u8]
    ensures rest { result.now ≡ drop i s.now }
{
    s.get(i..).unwrap_or(&[])
}

// The `N` bytes of `s` from `i` on. A byte past the end is zero, so that no length has to be carried along.
pub(crate) fn bytes_at<const N: usize>(s: &[u8], i: usize) -> [u8; N]
    ensures value { little_endian result ≡ field i N s.now }
{
    let rest = tail(s, i);
    let count = N.min(rest.len());
    let mut bytes = [0; N];
    bytes[..count].copy_from_slice(&rest[..count]);
    bytes
}
