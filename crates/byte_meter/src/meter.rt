// What is shown of the bytes that have passed.
ghost use Rattle.std.specs.Prelude.{◌≡◌, ◌+◌, ◌-◌, ◌^◌, min};

use std::io::Write;
use std::marker::Model;

const STEP: u64 = 1 << 20; // bytes

/// A count of bytes, shown on a terminal at each mebibyte. It is seen as the count.
#[derive(Drop)]
pub struct Meter<W: Write + Drop> {
    pub(crate) screen: Option<W>,
    passed: u64,
}

impl<W: Write + Drop> Model for Meter<W> {
    ghost use Rattle.std.specs.Prelude.{ℕ};

    ghost Value = { ℕ };

    ghost view = { λ m. m.passed };
}

impl<W: Write + Drop> Meter<W> {
    /// A meter that shows its count on a screen, and nowhere where there is none.
    pub fn new(screen: Option<W>) -> Self
        ensures { result ≡ 0 }
    {
        Meter { screen, passed: 0 }
    }

    /// Counts bytes. Each time that one more mebibyte has passed, the line is the number of these,
    /// as `12 MiB`, and what is written next begins over it. `O(1)`.
    pub fn pass(&mut self, bytes: usize)
        ensures { self.new ≡ min (self.old + bytes) (2 ^ 64 - 1) }
    {
        let before = self.passed / STEP;
        self.passed = self.passed.saturating_add(bytes as u64);
        let now = self.passed / STEP;
        if now > before {
            self.show(now);
        }
    }

    /// Takes the count off the line, where one was shown.
    pub fn clear(&mut self)
        ensures { self.new ≡ self.old }
    {
        if self.passed < STEP {
            return;
        }
        if let Some(screen) = &mut self.screen {
            let _ = screen.write(b"            \r");
        }
    }

    fn show(&mut self, count: u64)
        ensures { self.new ≡ self.old }
    {
        if let Some(screen) = &mut self.screen {
            let _ = write!(screen, "{count} MiB\r");
        }
    }
}
