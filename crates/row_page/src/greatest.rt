// The greatest name and the greatest durable stamp of some cells.
ghost use Rattle.std.specs.Prelude.{◌≡◌, ◌+◌, ◌*◌, ◌^◌};
ghost use Rattle.stamp.specs.Order.{later};
ghost use Rattle.row_page.specs.Heads.{greatest_with};

use stamp::{Name, Window};

// Of no cells they are 0.
#[derive(Clone, Copy)]
pub(crate) struct Greatest {
    pub name: Name,
    pub durable: u64,
}

// Its run and its id as one number, which orders names in one comparison.
fn both(name: Name) -> u128
    ensures { result ≡ name.run * 2 ^ 64 + name.id }
{
    name.run as u128 * 0x1_0000_0000_0000_0000 + name.id as u128
}

fn later(a: Name, b: Name) -> Name
    ensures { result ≡ later a b }
{
    if both(a) < both(b) { b } else { a }
}

impl Greatest {
    // One window more.
    pub(crate) fn add(&mut self, window: &Window)
        ensures { self.new ≡ greatest_with self.old window.now }
    {
        self.name = later(self.name, window.name);
        self.durable = self.durable.max(window.durable);
    }
}
