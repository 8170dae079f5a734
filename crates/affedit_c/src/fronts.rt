//! Items in an array of the caller's.

ghost use Rattle.std.specs.Prelude.{◌≡◌, map};
ghost use Rattle.affedit_c.specs.Fronts.{array_with};

/// Tells C of items, each as a value of another type.
pub trait Telling<T, C> {
    /// The value that an item is told as.
    ghost told: { Self → T → C };

    /// The value that an item is told as.
    fn tell(&mut self, item: &T) -> C
        ensures told { result ≡ told self.old item.now }
        ensures same { self.new ≡ self.old };
}

/// Tells of items as they are: characters by their numbers in Unicode, bytes, and marks by their
/// bytes.
#[derive(Drop)]
pub struct AsTheyAre;

impl Telling<char, u32> for AsTheyAre {
    ghost told = { λ telling character. character };

    fn tell(&mut self, item: &char) -> u32 {
        *item as u32
    }
}

impl Telling<u8, u8> for AsTheyAre {
    ghost told = { λ telling byte. byte };

    fn tell(&mut self, item: &u8) -> u8 {
        *item
    }
}

/// Puts items at the front of an array, as many as it has room for.
pub fn write_front<T, C: Copy, W: Telling<T, C>>(items: &[T], telling: &mut W, array: &mut [C])
    ensures { array.new ≡ array_with (map (W.told telling.old) items.now) array.old }
{
    let mut place = 0;
    while place < items.len() && place < array.len() {
        array[place] = telling.tell(&items[place]);
        place += 1;
    }
}
