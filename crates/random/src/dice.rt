// The number generator of docs/RANDOM.md.
ghost use Rattle.std.specs.Prelude.{◌≡◌, ◌<◌, length};

#[derive(Drop)]
pub struct Dice {
    x: usize,
    ghost in_range: { x < 2147483648 },
}

impl Dice {
    // for schedule, trial or list i
    pub fn seeded(i: u32, more: u8) -> Dice {
        Dice {
            x: (i as usize * 7919 + more as usize) % 2147483648,
        }
    }

    // "draw k"
    pub fn roll(&mut self, k: usize) -> usize
        requires { 0 < k }
        ensures { result < k }
    {
        self.x = (self.x * 1103515245 + 12345) % 2147483648;
        self.x / 32768 % k
    }

    // "draw 2 is 0"
    pub fn is_zero(&mut self) -> bool {
        self.roll(2) == 0
    }

    // "draw 256"
    pub fn byte(&mut self) -> u8 {
        self.roll(256) as u8
    }

    // "the (draw M)-th of", where M is how many there are
    pub fn one_of<T: Copy>(&mut self, items: &[T]) -> T
        requires { 0 < length items.now }
    {
        items[self.roll(items.len())]
    }
}
