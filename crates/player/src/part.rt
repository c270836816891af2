// The front of a slice, held to its length: whatever the number, there is one.
ghost use Rattle.std.specs.Prelude.{◌≡◌, ◌≤◌, length, take};

// The first n bytes, or all where there are fewer.
pub fn first(s: &[u8], n: usize) -> &[u8]
    ensures value { result.now ≡ take n s.now }
    ensures in_bounds { length result.now ≤ length s.now }
{
    &s[..n.min(s.len())]
}
