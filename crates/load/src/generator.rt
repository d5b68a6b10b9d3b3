// Marsaglia's xorshift32: a generator by value. A draw hands back the number, and the generator as it then stands.
ghost use Rattle.std.specs.Prelude.{◌≡◌};
ghost use Rattle.load.specs.Draws.{drawn};

#[derive(Clone, Copy)]
pub struct Generator {
    pub state: u32,
}

#[derive(Clone, Copy)]
pub struct Draw {
    pub number: u32,
    pub next: Generator,
}

impl Generator {
    // By value, and no `&mut self`: "each draw hands back the number and the generator as it now stands". Of the state
    // 0, which no other leads to, every draw is 0.
    pub fn draw(self) -> Draw
        ensures { result ≡ drawn self }
    {
        let a = self.state ^ (self.state << 13);
        let b = a ^ (a >> 17);
        let state = b ^ (b << 5);
        Draw {
            number: state,
            next: Generator { state },
        }
    }
}
