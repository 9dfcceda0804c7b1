// The two runs that are compared.

/// One of both runs.
#[derive(Clone, Copy, PartialEq, Eq)]
pub enum Side {
    /// The first one.
    A,
    /// The second one.
    B,
}

/// Both runs, in their order.
pub const SIDES: [Side; 2] = [Side::A, Side::B];

impl Side {
    /// The other one.
    pub fn other(self) -> Side {
        match self {
            Side::A => Side::B,
            Side::B => Side::A,
        }
    }

    /// Its letter.
    pub fn letter(self) -> &'static [u8] {
        match self {
            Side::A => b"A",
            Side::B => b"B",
        }
    }
}

/// Something of each run.
#[derive(Clone, Copy)]
pub struct Both<T> {
    /// That of the first.
    pub a: T,
    /// That of the second.
    pub b: T,
}

impl<T: Copy> Both<T> {
    /// That of one of both.
    pub fn of(&self, side: Side) -> T {
        match side {
            Side::A => self.a,
            Side::B => self.b,
        }
    }

    /// Gives one of both another one.
    pub fn set(&mut self, side: Side, value: T) {
        match side {
            Side::A => self.a = value,
            Side::B => self.b = value,
        }
    }
}
