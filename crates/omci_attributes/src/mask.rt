//! A set of attributes by their numbers.

ghost use Rattle.std.specs.Prelude.{◌≡◌, ◌≤◌};
ghost use Rattle.class_spec.specs.Masks.{bit_of, has};

/// A mask of attributes: attribute 1 is the most significant bit, attribute 16 the least.
#[derive(Clone, Copy, Debug, PartialEq, Eq)]
pub struct Mask(pub u16);

impl Mask {
    /// Whether the mask names the attribute of this number, which is 1 to 16.
    pub fn has(self, number: u8) -> bool
        requires from_one { 1 ≤ number }
        requires to_sixteen { number ≤ 16 }
        ensures { result ≡ has self.0 number }
    {
        (self.0 >> (16 - number)) & 1 == 1
    }
}

/// The mask that names the attribute of this number alone.
pub(crate) fn bit(number: u8) -> u16
    requires from_one { 1 ≤ number }
    requires to_sixteen { number ≤ 16 }
    ensures { result ≡ bit_of number }
{
    1 << (16 - number)
}
