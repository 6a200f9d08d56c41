ghost use Rattle.std.specs.Prelude.{◌≡◌, ◌<◌, ◌≤◌};

/// A shelf or a sink over another one, of which each call moves at most so many bytes.
#[derive(Drop)]
pub struct Portioned<T: Drop> {
    /// What is read and written.
    pub inner: T,
    /// The most bytes that one call moves.
    pub most: usize,
    ghost some: { 0 < most },
}

impl<T: Drop> Portioned<T> {
    /// Calls that move at most so many bytes, which are at least one.
    pub fn make(inner: T, most: usize) -> Portioned<T>
        requires { 0 < most }
        ensures inner { result.inner ≡ inner }
        ensures most { result.most ≡ most }
    {
        Portioned { inner, most }
    }

    /// How many of so many bytes one call moves at most.
    pub fn portion(&self, length: usize) -> usize
        ensures few { result ≤ self.now.most }
        ensures within { result ≤ length }
        ensures some { 0 < length → 0 < result }
    {
        length.min(self.most)
    }
}
