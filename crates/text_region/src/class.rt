// The classes of block sizes.

ghost use Rattle.std.specs.Prelude.{◌≡◌, ◌<◌, ◌≤◌};
ghost use Rattle.text_region.specs.Class.{IsClassOf, size_of};

/// The least class whose blocks hold `len` bytes: the blocks of class 0 have 16 bytes, and from each power of two to the next there are
/// four sizes, a quarter of the power apart (16, 20, 24, 28, 32, 40 and so on), up to 33,554,432 in class 84.
pub fn class_of(len: usize) -> u8
    requires { len ≤ 33554432 }
    ensures { IsClassOf len result }
{
    let mut class = 0;
    let mut size: usize = 16;
    while size * 2 < len {
        class += 4;
        size *= 2;
    }
    let quarter = size / 4;
    while size < len {
        class += 1;
        size += quarter;
    }
    class
}

// How many bytes a block of this class has.
pub(crate) fn size_of(class: u8) -> usize
    requires { class < 85 }
    ensures { result ≡ size_of class }
{
    (4 + class % 4) as usize * 2usize.pow(2 + (class / 4) as u32)
}
