//! Bytes in memory as a source.
ghost use Rattle.std.specs.Prelude.{◌≡◌, Some};

use odb_base::{Failed, Source};

/// Borrowed bytes. No read of them fails.
#[derive(Drop)]
pub struct Lent<'a> {
    left: &'a [u8],
}

impl<'a> Lent<'a> {
    pub fn new(bytes: &'a [u8]) -> Lent<'a>
        ensures whole { result.left.now ≡ bytes.now }
    {
        Lent { left: bytes }
    }
}

impl Source for Lent<'_> {
    ghost left = { λ lent. Some lent.left.now };

    ghost faults = { λ _. 0 };

    fn read(&mut self, out: &mut [u8]) -> Result<usize, Failed> {
        let count = out.len().min(self.left.len());
        let (front, rest) = self.left.split_at(count);
        out[..count].copy_from_slice(front);
        self.left = rest;
        Ok(count)
    }
}
